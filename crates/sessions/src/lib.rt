// A call's run: one frame after another, until the driver ends or a cut ends it.
// Internal to this repository: a caller here meets each `requires`; no entry point is in this crate.
#![tactic(auto)]

ghost use Rattle.std.specs.Prelude.{◌≡◌, cond, not, ◌≤◌, length, take, eqb};
ghost use Rattle.geometry.specs.Parts.{slot_room};
ghost use Rattle.slots.specs.Driver.{ended, is_ended};
ghost use Rattle.worlds.specs.Turns.{with, step_in, Sound, data_after, took_on};
ghost use Rattle.blocks.specs.Promises.{held_in};
ghost use Rattle.runs.specs.Exchange.{Canonical};
ghost use Rattle.runs.specs.Runs.{Going, Turned, Starts, Driven};

use geometry::Geometry;
use runs::Session;
use slots::{Driver, Step};
use state::Answer;

// The driver after the frame's script byte b: d before the reply, e with the reply taken in. A cut ends the call with 11 before
// anything of the reply is looked at.
fn heed(b: u8, d: Driver, e: Driver) -> Driver
    ensures { result ≡ with e e.verdict (cond (eqb b 2) (ended Answer.Cut d.course) e.course) }
{
    if b == 2 {
        return Driver {
            course: courses::end_with(d.course, Answer::Cut),
            ..e
        };
    }
    e
}

// The reply taken in that the first n bytes are.
fn take_first(
    g: Geometry,
    d: Driver,
    x: Step,
    payload: &[u8],
    reply: &[u8],
    n: usize,
    staged: &mut [u8],
) -> Driver
    requires { (Sound g d) × (x ≡ step_in g d) × (length staged.old ≡ slot_room) × (n ≤ length reply.now) }
    ensures { (result ≡ took_on g d payload.now staged.old (take n reply.now)) × (staged.new ≡ (data_after g d payload.now staged.old (take n reply.now)).staged) }
{
    let course = turns::take_course(g, d, x, &reply[..n]);
    let verdict = turns::take_data(g, d, x, payload, &reply[..n], staged);
    turns::with(d, verdict, course)
}

// One frame sent and logged, its script byte acted on, its reply taken in. `frame` and `reply` are room for the two.
fn turn(
    g: Geometry,
    s: Session,
    block: &mut [u8; 765],
    array: &mut [u8],
    payload: &[u8],
    staged: &mut [u8; 2112],
    frame: &mut [u8; 272],
    reply: &mut [u8; 272],
    script: &[u8],
    log: &mut [u8],
) -> Session
    requires { Going g (held_in block.old array.old) s log.old }
    ensures { (Turned g (held_in block.old array.old) s payload.now staged.old script.now log.old (held_in block.new array.new) result staged.new log.new) × (Canonical block.new) }
{
    let d = s.driver;
    let x = steps::step_at(d.kind, d.slot, d.course.place);
    let n = turns::write_step(g, d, x, payload, staged, frame);
    let b = slices::byte_or(script, s.frames, 0);
    let at = 6 * s.frames;
    exchanges::exchange(g, block, array, &frame[..n], &mut reply[..n], log, at, b);
    let e = take_first(g, d, x, payload, reply, n, staged);
    Session {
        driver: heed(b, d, e),
        frames: s.frames + 1,
        polls: s.polls + turns::poll_count(x),
        cut: b == 2,
    }
}

fn is_going(s: Session) -> bool
    ensures { result ≡ not (is_ended s.driver.course.stage) }
{
    !courses::has_ended(s.driver.course.stage)
}

// The call loop, one for every call.
pub fn drive(
    g: Geometry,
    start: Session,
    block: &mut [u8; 765],
    array: &mut [u8],
    payload: &[u8],
    staged: &mut [u8; 2112],
    script: &[u8],
    log: &mut [u8],
) -> Session
    requires { Starts g (held_in block.old array.old) start log.old }
    ensures { (Driven g (held_in block.old array.old) start payload.now staged.old script.now log.old (held_in block.new array.new) result staged.new log.new) × (Canonical block.new) }
{
    let mut frame = [0; 272];
    let mut reply = [0; 272];
    let mut s = start;
    while is_going(s) {
        s = turn(
            g, s, block, array, payload, staged, &mut frame, &mut reply, script, log,
        );
    }
    s
}
