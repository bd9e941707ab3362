// What a call or a closing makes of one message and of one field, by value: no memory.
#![tactic(auto)]

ghost use Rattle.std.specs.Prelude.{◌≡◌, cond};
ghost use Rattle.packing.specs.Values.{pattern_of};
ghost use Rattle.store.specs.Node.{with_status, with_held};
ghost use Rattle.message.specs.Messages.{can_hold, passes_now, offered, invalidated, agreed_by, filtered, agreed_on, settled};
ghost use Rattle.message.specs.Fields.{stage_after, is_gone, writes};

use store::{Field, Frame, Message, MessageState, Stage};

// What happens to a field's stage: which call it is. `moved` and `stage_after` (docs/PROMISES.md) take it.
#[derive(Clone, Copy)]
pub enum Change {
    Send,
    Load,
    Consume,
}

// ---- a message

// Whether the message can hold the value.
#[tactic(auto, unfolding(crate::specs::Messages::can_hold))]
pub fn can_hold(g: Message, value: i64) -> bool
    ensures { result ≡ can_hold g value }
{
    if g.is_float() && float::is_aside(packing::pattern_of(value)) {
        return false;
    }
    packing::in_range(value, g.width, g.is_signed())
}

// Whether the message's filter passes a value. Most messages have filter 0: it takes no call, and so it is inlined, which LLVM would not do by itself.
#[inline(always)]
#[tactic(auto, using(crate::proofs::Passed::true_passes), unfolding(crate::specs::Messages::passes_now))]
fn passes_now(g: Message, s: MessageState, value: i64) -> bool
    ensures { result ≡ passes_now g s value }
{
    if g.filter == 0 {
        return true;
    }
    let old = packing::value_of(s.held, 32, g.is_signed());
    filter::passes(g.filter, g.sign, g.x1, g.x2, value, old)
}

// A value is held if it passed.
fn held_if(passed: bool, s: MessageState, value: i64) -> MessageState
    ensures { result ≡ cond passed (with_held (pattern_of 32 value) s) s }
{
    let pattern = packing::pattern_of(value);
    if passed {
        MessageState { held: pattern, ..s }
    } else {
        s
    }
}

// The state after a value was put to the message's filter by a sending.
#[tactic(auto, unfolding(crate::specs::Messages::offered))]
pub fn offered_state(g: Message, s: MessageState, value: i64) -> MessageState
    ensures { result ≡ offered g s value }
{
    let passed = passes_now(g, s, value);
    MessageState {
        valid: u8::from(passed),
        ..held_if(passed, s, value)
    }
}

pub fn invalidated_state(s: MessageState) -> MessageState
    ensures { result ≡ invalidated s }
{
    MessageState { valid: 0, ..s }
}

// A status is the paper's number and no enum: `receive` answers it, and on any memory its byte says anything.
fn with_status(s: MessageState, status: u8) -> MessageState
    ensures { result ≡ with_status status s }
{
    MessageState { status, ..s }
}

// The state after an agreed value was put to the message's filter by a closing.
#[tactic(auto, unfolding(crate::specs::Messages::filtered))]
fn filtered_state(g: Message, s: MessageState, agreed: i64) -> MessageState
    ensures { result ≡ filtered g s agreed }
{
    let passed = passes_now(g, s, agreed);
    with_status(held_if(passed, s, agreed), if passed { 0 } else { 21 })
}

// What the counting instances agree on.
#[tactic(auto, unfolding(crate::specs::Messages::agreed_by))]
fn agree_by(g: Message, instances: &[i64]) -> Option<i64>
    ensures { result ≡ agreed_by g instances.now }
{
    if g.is_float() {
        return agreement::agree_floats(g.agreement, instances);
    }
    agreement::agree(g.agreement, instances)
}

fn agreed_state(g: Message, s: MessageState, agreed: Option<i64>) -> MessageState
    ensures { result ≡ agreed_on g s agreed }
{
    match agreed {
        None => with_status(s, 20),
        Some(v) => filtered_state(g, s, v),
    }
}

// The state after a round in which those instances count, and in which none of its frames came or some did. A flag beside the list, since the
// definition `settled` takes both.
pub fn settled_state(g: Message, s: MessageState, none: bool, instances: &[i64]) -> MessageState
    ensures { result ≡ settled g s none instances.now }
{
    if instances.is_empty() {
        return with_status(s, if none { 21 } else { 22 });
    }
    agreed_state(g, s, agree_by(g, instances))
}

// ---- a field

// The stage that a field moves on to.
pub fn stage_after(change: Change, x: Field) -> Stage
    ensures { result ≡ stage_after change x.stage }
{
    match change {
        // A match of one arm, since the paper's form has the stage matched on each change.
        Change::Send => match x.stage {
            Stage::Waiting | Stage::Loaded | Stage::Gone(_) => Stage::Waiting,
        },
        Change::Load => match x.stage {
            Stage::Waiting => Stage::Loaded,
            stage => stage,
        },
        Change::Consume => match x.stage {
            Stage::Loaded => Stage::Gone(2),
            stage => stage, // a waiting one stays: the value sent last was not in the frame
        },
    }
}

pub fn is_gone(x: Field) -> bool
    ensures { result ≡ is_gone x.stage }
{
    matches!(x.stage, Stage::Gone(_))
}

// A field's value and, if present, its status bit.
#[tactic(auto, unfolding(crate::specs::Fields::writes, crate::specs::Fields::status_places, packing::specs::Places::packed))]
pub fn write_field(buffer: &mut [u8], h: Frame, g: Message, s: MessageState, x: record::Field)
    ensures { buffer.new ≡ writes h g s x buffer.old }
{
    let big = h.is_big();
    packing::pack(buffer, big, x.start, g.width, s.held);
    if x.status == 1 {
        packing::pack(buffer, big, x.place, 1, u32::from(s.is_valid()));
    }
}
