// A frame on a chip whose part is known: the reply, and what it does to the buffers. The buffers are lent as one slice.
#![tactic(auto)]

ghost use Rattle.std.specs.Prelude.{◌≡◌, cond, ◌++◌, ◌*◌, ◌≤◌, ◌<◌, length, Some};
ghost use Rattle.geometry.specs.Parts.{Sized, page_room};
ghost use Rattle.slices.specs.Lists.{over, splice, ring_write};
ghost use Rattle.registers.specs.Protection.{Roomed, register_of, guarded};
ghost use Rattle.control.specs.Names.{Names};
ghost use Rattle.control.specs.Rulings.{WithMarks};
ghost use Rattle.memory.specs.Replies.{replied, once_data, ring_data};
ghost use Rattle.state.specs.Lent.{memory_in, buffer_start, lent, acted_on};
ghost use Rattle.state.specs.Frames.{is_idle, is_free, status_of, identity, data_of};
ghost use Rattle.state.specs.Memory.{state_of};
ghost use Rattle.state.specs.Outcomes.{Leaves, framed, sent_by};

use commands::Buffer;
use control::{Action, Marks};
use geometry::Geometry;
use registers::Usage;
use state::{Answer, Chip, Outcome};

fn is_free(u: Usage) -> bool
    ensures { result ≡ is_free u }
{
    matches!(u, Usage::Free)
}

fn bit(on: bool, value: u8) -> u8
    ensures { (result ≡ cond on value 0) × (result ≤ value) }
{
    if on { value } else { 0 }
}

#[tactic(auto, unfolding(state::specs::Frames::status_of))]
fn status(g: Geometry, ready: bool, compare: bool, protect: bool) -> u8
    ensures { result ≡ status_of g ready compare protect }
{
    bit(ready, 0x80) + bit(compare, 0x40) + 0x24 + bit(protect, 0x02) + bit(g.binary, 0x01)
}

// ---- replies

fn reply_buffer(
    g: Geometry,
    buffers: &[u8],
    lead: usize,
    buffer: Buffer,
    start: usize,
    reply: &mut [u8],
)
    requires { (g.size ≤ page_room) × (start < g.size) × (lead ≤ length reply.old) × (length buffers.now ≡ 2 * page_room) }
    ensures { reply.new ≡ replied (length reply.old) lead (ring_data g.size start (lent buffer buffers.now)) }
{
    let a = state::buffer_start(buffer);
    memory::reply_ring(reply, lead, &buffers[a..a + 264], g.size, start);
}

fn reply_status(g: Geometry, m: Marks, compare: bool, lead: usize, reply: &mut [u8])
    requires { lead ≤ length reply.old }
    ensures { WithMarks m (λ r. reply.new ≡ replied (length reply.old) lead (λ _. status_of g (is_idle r.operation) compare (guarded r))) }
{
    let value = status(g, is_free(m.usage), compare, registers::is_guarded(m.seals));
    memory::reply_repeated(reply, lead, value);
}

fn reply_register(g: Geometry, bytes: &[u8; 16], lead: usize, reply: &mut [u8])
    requires { (Roomed g) × (lead ≤ length reply.old) }
    ensures { reply.new ≡ replied (length reply.old) lead (once_data (register_of g bytes.now)) }
{
    memory::reply_once(reply, lead, bytes);
}

fn reply_identity(lead: usize, reply: &mut [u8])
    requires { lead ≤ length reply.old }
    ensures { reply.new ≡ replied (length reply.old) lead (once_data identity) }
{
    memory::reply_once(reply, lead, &[0x1F, 0x25, 0x00, 0x00]);
}

// The reply to a frame: made from the chip as it was before the frame. `security`: user and factory bytes.
#[tactic(auto, unfolding(state::specs::Frames::data_of, control::specs::Names::Names))]
pub fn respond(
    g: Geometry,
    m: Marks,
    compare: bool,
    security: &[u8],
    buffers: &[u8],
    array: &[u8],
    a: Action,
    lead: usize,
    reply: &mut [u8],
)
    requires { (Sized g (length array.now)) × (Names g a) × (lead ≤ length reply.old) × (length buffers.now ≡ 2 * page_room) }
    ensures { WithMarks m (λ r. security.now ≡ r.user ++ r.factory → reply.new ≡ replied (length reply.old) lead (data_of g r (memory_in array.now buffers.now compare) a)) }
{
    match a {
        Action::Silent
        | Action::WriteBuffer { .. }
        | Action::LoadProtection { .. }
        | Action::LoadSecurity { .. } => memory::reply_nothing(reply, lead),
        Action::ReadPage { page, start } => memory::reply_page(g, reply, lead, array, page, start),
        Action::ReadArray { start } => memory::reply_ring(reply, lead, array, array.len(), start),
        Action::ReadBuffer { buffer, start } => reply_buffer(
            g, buffers, lead, buffer, start, reply,
        ),
        Action::ReadProtection => reply_register(g, &m.seals.protection, lead, reply),
        Action::ReadLockdown => reply_register(g, &m.seals.lockdown, lead, reply),
        Action::ReadSecurity => memory::reply_once(reply, lead, security),
        Action::ReadStatus => reply_status(g, m, compare, lead, reply),
        Action::ReadId => reply_identity(lead, reply),
    }
}

// ---- what a frame does to the buffers

fn write_buffer(g: Geometry, buffers: &mut [u8], buffer: Buffer, start: usize, bytes: &[u8])
    requires { (g.size ≤ page_room) × (start < g.size) × (length buffers.old ≡ 2 * page_room) }
    ensures { buffers.new ≡ splice (buffer_start buffer) (ring_write g.size start bytes.now (lent buffer buffers.old)) buffers.old }
{
    let a = state::buffer_start(buffer);
    slices::ring_write(&mut buffers[a..a + 264], g.size, start, bytes);
}

// The first bytes of buffer 1 become `bytes`.
fn lay(buffers: &mut [u8], bytes: &[u8])
    requires { length bytes.now ≤ length buffers.old }
    ensures { buffers.new ≡ over bytes.now buffers.old }
{
    slices::copy(&mut buffers[..bytes.len()], bytes);
}

// What a frame writes into a buffer; `bytes`: its data.
pub fn act(g: Geometry, buffers: &mut [u8], a: Action, bytes: &[u8])
    requires { (g.size ≤ page_room) × (Names g a) × (length buffers.old ≡ 2 * page_room) }
    ensures { buffers.new ≡ acted_on g a bytes.now buffers.old }
{
    match a {
        Action::WriteBuffer { buffer, start } => write_buffer(g, buffers, buffer, start, bytes),
        Action::LoadProtection { data } => lay(buffers, &registers::unpacked16(data)),
        Action::LoadSecurity { data } => lay(buffers, &registers::unpacked64(data)),
        _ => {}
    }
}

// ---- a frame

// A frame of 1 to 1,100 bytes, with a reply as long.
#[tactic(auto, unfolding(state::specs::Outcomes::framed))]
pub fn is_framed(frame: usize, reply: usize) -> bool
    ensures { result ≡ framed frame reply }
{
    (1..=1100).contains(&frame) && frame == reply
}

// The frame sent to a chip by value.
pub fn send_to(g: Geometry, c: Chip, array: &[u8], frame: &[u8], reply: &mut [u8]) -> Outcome
    requires { Sized g (length array.now) }
    ensures { Leaves (sent_by (Some g) (state_of c array.now) frame.now reply.old) result array.now reply.new }
{
    if !is_framed(frame.len(), reply.len()) {
        return Outcome {
            answer: Answer::Frame,
            chip: c,
        };
    }
    let m = control::marks_of(c.registers);
    let d = rulings::control_frame(g, m, frame);
    let security = state::security_of(c.registers);
    let mut buffers = state::buffers_of(c);
    respond(
        g, m, c.compare, &security, &buffers, array, d.action, d.lead, reply,
    );
    act(g, &mut buffers, d.action, &frame[d.lead..]);
    let after = control::apply(c.registers, d.change);
    Outcome {
        answer: Answer::Done,
        chip: state::chip_of(after, buffers, c.compare),
    }
}
