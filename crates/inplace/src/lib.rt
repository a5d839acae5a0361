// The five entry points on a chip that a record block holds. Frames and busy ends are made in place: no more of the block is written than can
// change. What each of the five promises is what the C interface promises; none has a `requires`. Each answers a number and no `Result`, since
// `Met` holds the number that C gets.
#![tactic(auto)]

ghost use Rattle.std.specs.Prelude.{◌≡◌, true, [], length};
ghost use Rattle.geometry.specs.Parts.{Sized};
ghost use Rattle.registers.specs.Operations.{within};
ghost use Rattle.state.specs.Frames.{reply_of};
ghost use Rattle.state.specs.Memory.{memory_of, chip_in};
ghost use Rattle.state.specs.Outcomes.{fresh_outcome, sent_state, send_outcome, ended_state, end_outcome, cut_outcome};
ghost use Rattle.blocks.specs.Block.{decode_operation, decode_registers, decode_chip, encode_chip};
ghost use Rattle.blocks.specs.Promises.{held_in, Met, MetFresh, MetPin};
ghost use Rattle.inplace.specs.Plain.{is_plain};

use geometry::Geometry;
use registers::{Operation, Update};

// ---- frames

// A frame that is accepted. `o`: the operation under way.
fn send_in(
    g: Geometry,
    block: &mut [u8; 765],
    o: Operation,
    array: &[u8],
    frame: &[u8],
    reply: &mut [u8],
)
    requires { (Sized g (length array.now)) × (o ≡ decode_operation block.old) × (length frame.now ≡ length reply.old) }
    ensures { (block.new ≡ encode_chip (chip_in (sent_state g frame.now (held_in block.old array.now)))) × (reply.new ≡ reply_of g (decode_registers block.old) (memory_of (decode_chip block.old) array.now) frame.now) }
{
    let m = blocks::marks_at(block, o);
    let d = rulings::control_frame(g, m, frame);
    // As a slice, since two parts of an array behind a reference cannot be lent at once.
    let held: &[u8] = block;
    frames::respond(
        g,
        m,
        held[764] != 0,
        &held[32..160],
        &held[236..764],
        array,
        d.action,
        d.lead,
        reply,
    );
    settling::settle(block, o, d.change);
    frames::act(g, &mut block[236..764], d.action, &frame[d.lead..]);
}

// A frame sent straight to the chip; the reply is as long. Answers 0, 1, 2.
pub fn send(block: &mut [u8; 765], array: &[u8], frame: &[u8], reply: &mut [u8]) -> u8
    ensures { Met block.old (send_outcome (held_in block.old array.now) frame.now reply.old) result block.new array.now reply.new }
{
    let o = blocks::operation(block);
    let Some(g) = registers::place(array.len(), o) else {
        return 1;
    };
    if !frames::is_framed(frame.len(), reply.len()) {
        return 2;
    }
    send_in(g, block, o, array, frame, reply);
    0
}

// ---- busy ends

// The operation's end keeps every register.
fn is_plain(o: Operation) -> bool
    ensures { result ≡ is_plain o }
{
    matches!(registers::update_of(o), Update::Keep)
}

// Such an end.
fn end_in(g: Geometry, block: &mut [u8; 765], o: Operation, array: &mut [u8])
    requires { (Sized g (length array.old)) × (o ≡ decode_operation block.old) × (within g o ≡ true) × (is_plain o ≡ true) }
    ensures { (block.new ≡ encode_chip (chip_in (ended_state g (held_in block.old array.old)))) × (array.new ≡ (ended_state g (held_in block.old array.old)).memory.array) }
{
    let compare = block[764] != 0;
    settling::rest(block);
    let bit = completion::complete_memory(g, compare, &mut block[236..764], array, o);
    block[764] = u8::from(bit);
}

// The operation under way ends and takes effect. Answers 0, 1.
pub fn end_busy(block: &mut [u8; 765], array: &mut [u8]) -> u8
    ensures { Met block.old (end_outcome (held_in block.old array.old)) result block.new array.new [] }
{
    let o = blocks::operation(block);
    if !is_plain(o) {
        let e = chip::end_busy(blocks::decode(block), array);
        return storing::store(block, e);
    }
    let Some(g) = registers::place(array.len(), o) else {
        return 1;
    };
    end_in(g, block, o, array);
    0
}

// ---- the others

// A fresh chip with these factory bytes; the array becomes FFh. Answers 0, 1.
pub fn fresh(block: &mut [u8; 765], factory: &[u8; 64], array: &mut [u8]) -> u8
    ensures { MetFresh block.old (fresh_outcome factory.now array.old) result block.new array.new }
{
    storing::store(block, chip::fresh(*factory, array))
}

// The WP pin is moved. Answer 0.
pub fn move_pin(block: &mut [u8; 765], high: bool) -> u8
    ensures { MetPin block.old high result block.new }
{
    storing::move_pin(block, high);
    0
}

// The supply is cut, with junk. Answers 0, 1, 7.
pub fn cut(block: &mut [u8; 765], array: &mut [u8], junk: &[u8]) -> u8
    ensures { Met block.old (cut_outcome junk.now (held_in block.old array.old)) result block.new array.new [] }
{
    let o = chip::cut(blocks::decode(block), array, junk);
    storing::store(block, o)
}
