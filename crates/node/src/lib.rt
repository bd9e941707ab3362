// The calls on a node in memory that the caller lends. A refused call changes nothing.
#![tactic(auto)]

ghost use Rattle.std.specs.Prelude.{◌≡◌, ◌<◌, length};
ghost use Rattle.whole.specs.Whole.{all_of};
ghost use Rattle.store.specs.Node.{layout_of, state_of, node_of, message_at, state_at, node_with};
ghost use Rattle.own.specs.Own.{InMemory, cells_of, fields_of};
ghost use Rattle.node.specs.Answers.{number_of, answer_of, goes, message_of, frame_of};
ghost use Rattle.node.specs.Calls.{
  left,
  outcome,
  moved,
  send_of,
  invalidate_of,
  all_invalid,
  suppressed,
  written,
  assemble_of,
  assembled,
  consumed_of,
  flag_answer,
  gone_at,
  flag_place,
  deliver_of,
  receive_answer,
  received_place,
};
ghost use Rattle.closing.specs.Closing.{close_of};
ghost use Rattle.node.specs.Load.{load_of};

use layout::Refused;
use message::Change;
use own::Owner;
use store::{Frame, Message, MessageState, Node};

// Of a call that changes the node the public function answers the number of what the other answers.

// ---- refusals

// Why a call is refused.
#[derive(Clone, Copy, PartialEq, Eq)]
enum CallRefusal {
    Id,
    Access,
    Value,
    NoFunc,
    Suppressed,
}

// The paper's number.
impl From<CallRefusal> for u8 {
    ghost from_gives = { λ refused number. number ≡ number_of refused };

    fn from(refused: CallRefusal) -> u8 {
        match refused {
            CallRefusal::Id => 16,
            CallRefusal::Access => 17,
            CallRefusal::Value => 18,
            CallRefusal::NoFunc => 19,
            CallRefusal::Suppressed => 23,
        }
    }
}

// 0, or the refusal's number: C and the promises have numbers.
fn answer(done: Result<(), CallRefusal>) -> u8
    ensures { result ≡ answer_of done }
{
    match done {
        Ok(()) => 0,
        Err(refused) => u8::from(refused),
    }
}

// ---- the first two tests

// Which way a message or a frame goes.
#[derive(Clone, Copy, PartialEq, Eq)]
enum Way {
    Received,
    Sent,
}

impl Way {
    // Whether what is sent, or not, goes this way.
    fn goes(self, sent: bool) -> bool
        ensures { result ≡ goes self sent }
    {
        match self {
            Way::Received => !sent,
            Way::Sent => sent,
        }
    }
}

// Twice, for a message and for a frame, as `its_message` and `its_state` are, and by no trait: it would have three methods and their laws for two callers.
fn message_of(node: &Node, message: u64, way: Way) -> Result<(u8, Message), CallRefusal>
    ensures { result ≡ message_of (layout_of node.now) message way }
{
    if !store::has_message(node, message) {
        return Err(CallRefusal::Id);
    }
    let g = store::message_at(node, message as usize);
    if !way.goes(g.is_sent()) {
        return Err(CallRefusal::Access);
    }
    Ok((message as u8, g))
}

fn frame_of(node: &Node, frame: u64, way: Way) -> Result<(u8, Frame), CallRefusal>
    ensures { result ≡ frame_of (layout_of node.now) frame way }
{
    if !store::has_frame(node, frame) {
        return Err(CallRefusal::Id);
    }
    let h = store::frame_at(node, frame as usize);
    if !way.goes(h.is_sent()) {
        return Err(CallRefusal::Access);
    }
    Ok((frame as u8, h))
}

// ---- an owner's fields

// An owner's fields move on; the other cells stay. No iterator of the fields: it would lend the node while their stages are written.
// And no step that lends nothing, `while let Some(d) = owner.next_cell(node, &mut places)`: it needs a measure at each loop, and `for` none.
fn move_fields(node: &mut Node, owner: Owner, change: Change)
    requires { InMemory owner }
    ensures { node_of node.new ≡ node_with (node_of node.old) (moved change owner (node_of node.old)) }
{
    for i in own::places_of(node, owner) {
        let d = own::cell_at(node, owner, i);
        if own::owns(node, owner, d) {
            let x = store::field_at(node, d);
            store::put_stage(node, d, message::stage_after(change, x));
        }
    }
}

// ---- send

fn try_send(node: &mut Node, message: u64, value: i64) -> Result<(), CallRefusal>
    ensures { left (answer_of result) node.new ≡ send_of (node_of node.old) message value }
{
    let (m, g) = message_of(node, message, Way::Sent)?;
    if !message::can_hold(g, value) {
        return Err(CallRefusal::Value);
    }
    move_fields(node, Owner::Message(m), Change::Send);
    // Read again, so that it need not be kept meanwhile.
    let g = store::message_at(node, m as usize);
    let s = store::state_at(node, m as usize);
    store::put_state(node, m as usize, message::offered_state(g, s, value));
    Ok(())
}

pub fn send(node: &mut Node, message: u64, value: i64) -> u8
    ensures { left result node.new ≡ send_of (node_of node.old) message value }
{
    answer(try_send(node, message, value))
}

// ---- invalidate

fn try_invalidate(node: &mut Node, message: u64) -> Result<(), CallRefusal>
    ensures { left (answer_of result) node.new ≡ invalidate_of (node_of node.old) message }
{
    let (m, g) = message_of(node, message, Way::Sent)?;
    if !g.has_status_bit() {
        return Err(CallRefusal::NoFunc);
    }
    let s = store::state_at(node, m as usize);
    store::put_state(node, m as usize, message::invalidated_state(s));
    Ok(())
}

pub fn invalidate(node: &mut Node, message: u64) -> u8
    ensures { left result node.new ≡ invalidate_of (node_of node.old) message }
{
    answer(try_invalidate(node, message))
}

// ---- assemble

// A message that a field names, or none: on any memory that may be one that the memory has not.
fn its_message(node: &Node, m: u8) -> Message
    ensures { result ≡ message_at (layout_of node.now) m }
{
    if m < 32 {
        return store::message_at(node, m as usize);
    }
    store::no_message()
}

fn its_state(node: &Node, m: u8) -> MessageState
    ensures { result ≡ state_at (state_of node.now) m }
{
    if m < 32 {
        return store::state_at(node, m as usize);
    }
    store::no_state()
}

// Whether the frame has a field, and all messages of its fields are invalid. By place and not by `fields`: with a loop over them the answer 23 took a third
// longer where there are eight or more.
fn all_invalid(node: &Node, frame: u8) -> bool
    requires { frame < 32 }
    ensures { result ≡ all_invalid (state_of node.now) (fields_of (layout_of node.now) (Owner.Frame frame)) }
{
    let owner = Owner::Frame(frame);
    let mut some = false;
    for i in own::places_of(node, owner) {
        let d = own::cell_at(node, owner, i);
        if own::owns(node, owner, d) {
            if its_state(node, store::laid_at(node, d).message).is_valid() {
                return false;
            }
            some = true;
        }
    }
    some
}

#[tactic(auto, unfolding(crate::specs::Calls::suppressed))]
fn is_suppressed(node: &Node, frame: u8) -> bool
    requires { frame < 32 }
    ensures { result ≡ suppressed (node_of node.now) frame }
{
    store::frame_at(node, frame as usize).is_event() && all_invalid(node, frame)
}

// The frame's fields write what they carry into the buffer, and move on. No iterator of them, as in `move_fields`.
fn load_fields(node: &mut Node, frame: u8, h: Frame, buffer: &mut [u8])
    requires { frame < 32 }
    ensures { (node_of node.new ≡ node_with (node_of node.old) (moved Change.Load (Owner.Frame frame) (node_of node.old))) × (buffer.new ≡ written (node_of node.old) h (fields_of (layout_of node.old) (Owner.Frame frame)) buffer.old) }
{
    let owner = Owner::Frame(frame);
    for i in own::places_of(node, owner) {
        let d = own::cell_at(node, owner, i);
        if own::owns(node, owner, d) {
            let x = store::laid_at(node, d);
            message::write_field(
                buffer,
                h,
                its_message(node, x.message),
                its_state(node, x.message),
                x,
            );
            let y = store::field_at(node, d);
            store::put_stage(node, d, message::stage_after(Change::Load, y));
        }
    }
}

fn try_assemble(node: &mut Node, frame: u64, buffer: &mut [u8]) -> Result<(), CallRefusal>
    ensures { (left (answer_of result) node.new ≡ assemble_of (node_of node.old) frame (length buffer.old)) × (buffer.new ≡ assembled (node_of node.old) frame buffer.old) }
{
    let (f, h) = frame_of(node, frame, Way::Sent)?;
    if buffer.len() != h.length as usize {
        return Err(CallRefusal::Value);
    }
    if is_suppressed(node, f) {
        return Err(CallRefusal::Suppressed);
    }
    load_fields(node, f, h, buffer);
    Ok(())
}

pub fn assemble(node: &mut Node, frame: u64, buffer: &mut [u8]) -> u8
    ensures { (left result node.new ≡ assemble_of (node_of node.old) frame (length buffer.old)) × (buffer.new ≡ assembled (node_of node.old) frame buffer.old) }
{
    answer(try_assemble(node, frame, buffer))
}

// ---- consumed

fn try_consumed(node: &mut Node, frame: u64) -> Result<(), CallRefusal>
    ensures { left (answer_of result) node.new ≡ consumed_of (node_of node.old) frame }
{
    let (f, _) = frame_of(node, frame, Way::Sent)?;
    move_fields(node, Owner::Frame(f), Change::Consume);
    Ok(())
}

pub fn consumed(node: &mut Node, frame: u64) -> u8
    ensures { left result node.new ≡ consumed_of (node_of node.old) frame }
{
    answer(try_consumed(node, frame))
}

// ---- read flag

fn all_gone(node: &Node, message: u8) -> bool
    requires { message < 32 }
    ensures { result ≡ all_of (gone_at (state_of node.now)) (cells_of (layout_of node.now) (Owner.Message message)) }
{
    Owner::Message(message).fields(node).all(message::is_gone)
}

pub fn read_flag(node: &Node, message: u64, flag: &mut u8) -> u8
    ensures { (result ≡ flag_answer (layout_of node.now) message) × (flag.new ≡ flag_place (node_of node.now) message flag.old) }
{
    match message_of(node, message, Way::Sent) {
        Ok((m, _)) => {
            *flag = u8::from(all_gone(node, m));
            0
        }
        Err(_) => u8::from(CallRefusal::Id), // for a received message too
    }
}

// ---- deliver

fn try_deliver(node: &mut Node, frame: u64, valid: bool, bytes: &[u8]) -> Result<(), CallRefusal>
    ensures { left (answer_of result) node.new ≡ deliver_of (node_of node.old) frame valid bytes.now }
{
    let (f, h) = frame_of(node, frame, Way::Received)?;
    if bytes.len() != h.length as usize {
        return Err(CallRefusal::Value);
    }
    if valid {
        let n = bytes.len().min(32);
        store::put_data(node, f as usize, &bytes[..n]);
        store::put_mark(node, f as usize, 1);
    }
    Ok(())
}

// Of a frame that is longer than the memory has room for, which no layout has, the first 32 bytes are kept.
pub fn deliver(node: &mut Node, frame: u64, valid: bool, bytes: &[u8]) -> u8
    ensures { left result node.new ≡ deliver_of (node_of node.old) frame valid bytes.now }
{
    answer(try_deliver(node, frame, valid, bytes))
}

// ---- receive

// The status of the last closing; with 0 the place takes the held value.
pub fn receive(node: &Node, message: u64, value: &mut i64) -> u8
    ensures { (result ≡ receive_answer (node_of node.now) message) × (value.new ≡ received_place (node_of node.now) message value.old) }
{
    match message_of(node, message, Way::Received) {
        Ok((m, g)) => {
            let s = store::state_at(node, m as usize);
            if s.status == 0 {
                *value = packing::value_of(s.held, 32, g.is_signed());
            }
            s.status
        }
        Err(refused) => u8::from(refused),
    }
}

// ---- close

pub fn close(node: &mut Node) -> u8
    ensures { left result node.new ≡ outcome 0 (close_of (node_of node.old)) (node_of node.old) }
{
    closing::close_round(node);
    0
}

// ---- load

// The verdict first: a refusal changes nothing, and answers its number, 256 times its record and 65,536 times its byte.
pub fn load(node: &mut Node, file: &[u8]) -> u32
    ensures { left result node.new ≡ load_of (node_of node.old) file.now }
{
    match reader::read_layout(file) {
        Ok(counts) => {
            start::start(node, file, counts);
            0
        }
        Err(Refused { refusal, record }) => {
            let number = layout::number_of(refusal) as u32;
            let byte = layout::byte_of(refusal) as u32;
            number + 256 * (record as u32) + 65536 * byte
        }
    }
}
