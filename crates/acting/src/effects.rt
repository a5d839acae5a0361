// The call or event of the C interface that an order names. The buffers come one by one, as the functions of that interface take them.
ghost use Rattle.std.specs.Prelude.{◌≡◌, [], ◌∷◌};
ghost use Rattle.slots.specs.Lists.{put};
ghost use Rattle.runs.specs.Promises.{Called};
ghost use Rattle.acting.specs.Steps.{op_of, seen_by, Took, told, Spares};

use dates::Term;
use orders::{Command, Order};

// A put, without a term or with one.
fn store(
    term: Term,
    block: &mut [u8; 765],
    array: &mut [u8],
    slot: usize,
    limit: usize,
    recipe: &[u8],
    script: &[u8],
    junk: &[u8],
    log: &mut [u8],
    counts: &mut [u64; 3],
) -> u8
    ensures { Called (put slot limit term script.now recipe.now junk.now log.old) block.old array.old result block.new array.new log.new counts.new [] }
{
    match term {
        Term::Unlimited => slipknoll::slipknoll_put(
            block, array, slot, limit, recipe, script, junk, log, counts,
        ),
        Term::Between { first, last } => slipknoll::slipknoll_put_term(
            block,
            array,
            slot,
            limit,
            first.year,
            first.month,
            first.day,
            last.year,
            last.month,
            last.day,
            recipe,
            script,
            junk,
            log,
            counts,
        ),
    }
}

// The call or event that the order names; its answer. `counts` gets a call's frames, polls and n.
pub fn act(
    o: Order,
    block: &mut [u8; 765],
    array: &mut [u8],
    bytes: &[u8],
    script: &[u8],
    junk: &[u8],
    log: &mut [u8],
    out: &mut [u8],
    counts: &mut [u64; 3],
) -> u8
    requires { Spares o.command log.old out.old × (counts.old ≡ 0 ∷ 0 ∷ 0 ∷ []) }
    ensures { Took (seen_by (op_of o bytes.now script.now junk.now log.old out.old) block.old array.old) (told result counts.new) block.new array.new log.new out.new }
{
    let c = o.command;
    let slot = o.number;
    let b = o.limit;
    match c {
        Command::Put => {
            let term = o.term;
            store(
                term, block, array, slot, b, bytes, script, junk, log, counts,
            )
        }
        Command::Patch => slipknoll::slipknoll_patch(
            block, array, slot, b, o.place, bytes, script, junk, log, counts,
        ),
        Command::Get => slipknoll::slipknoll_get(
            block,
            array,
            slot,
            b,
            o.today.year,
            o.today.month,
            o.today.day,
            out,
            script,
            junk,
            log,
            counts,
        ),
        Command::Wipe => slipknoll::slipknoll_wipe(
            block, array, slot, b, script, junk, log, counts,
        ),
        Command::Raw => slipknoll::slipknoll_raw(
            block, array, bytes, out, script, junk, log, counts,
        ),
        Command::Send => slipknoll::slipknoll_send(block, array, bytes, out),
        Command::End => slipknoll::slipknoll_end_busy(block, array),
        Command::Pin => slipknoll::slipknoll_move_pin(block, slot != 0),
        Command::Cut => slipknoll::slipknoll_cut(block, array, junk),
        Command::Part => 0,
        Command::Sum => 0,
    }
}
