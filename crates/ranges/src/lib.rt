// What is wrong with one record of a layout file: RANGE, RESERVED, UNUSED and WIDTH, byte by byte, and the lowest byte that is wrong.
#![tactic(auto)]

ghost use Rattle.std.specs.Prelude.{◌≡◌, false, not, ◌&&◌, ◌||◌, ◌≤◌, eqb, ltb, drop};
ghost use Rattle.ranges.specs.Ranges.{
  wrong_if,
  is_mask,
  is_float,
  word_fits,
  word_finding,
  frame_findings,
  message_findings,
  field_findings,
  reserved_from,
  fault_at,
  or_else,
  first_wrong,
  lowest_fault,
  range_fault,
};

use record::{Field, Frame, Message};

// How a byte of a record is wrong, or a word, whose byte is its first.
#[derive(Clone, Copy)]
pub enum Fault {
    Range,
    Reserved,
    Unused,
    Width,
}

// The lowest wrong byte of a record, and how it is wrong.
#[derive(Clone, Copy)]
pub struct RangeFault {
    pub fault: Fault,
    pub byte: u8,
}

// The kinds in a record (its order, direction, sign, agreement and filter) are bytes and no enums: RANGE sees each byte that a file can have.

// ---- the bytes that are named, in their order: the first that is wrong ends the walk

// This byte is wrong in this way where the test holds.
#[tactic(auto, unfolding(crate::specs::Ranges::wrong_if))]
fn wrong_if(wrong: bool, fault: Fault, byte: u8) -> Result<(), RangeFault>
    ensures { result ≡ fault_at byte (wrong_if wrong fault) }
{
    if wrong {
        return Err(RangeFault { fault, byte });
    }
    Ok(())
}

#[tactic(auto, unfolding(crate::specs::Ranges::first_wrong))]
fn frame_fault(h: Frame) -> Result<(), RangeFault>
    ensures { result ≡ first_wrong 0 (frame_findings h) }
{
    wrong_if(31 < h.number, Fault::Range, 1)?;
    wrong_if(!(1..=32).contains(&h.length), Fault::Range, 2)?;
    wrong_if(1 < h.order, Fault::Range, 3)?;
    wrong_if(1 < h.direction, Fault::Range, 4)?;
    wrong_if(1 < h.trigger, Fault::Range, 5)
}

fn is_float(g: Message) -> bool
    ensures { result ≡ is_float g }
{
    g.sign == 2
}

fn is_signed(g: Message) -> bool
    ensures { result ≡ eqb g.sign 1 }
{
    g.sign == 1
}

fn is_sent(g: Message) -> bool
    ensures { result ≡ eqb g.direction 1 }
{
    g.direction == 1
}

#[tactic(auto, unfolding(crate::specs::Ranges::word_fits))]
fn does_word_fit(g: Message, x: u32) -> bool
    ensures { result ≡ word_fits g x }
{
    packing::is_extended(x, g.width, is_signed(g)) && !(is_float(g) && float::is_aside(x))
}

#[tactic(auto, unfolding(crate::specs::Ranges::word_finding, crate::specs::Ranges::wrong_if))]
fn word_finding(g: Message, used: bool, x: u32) -> Result<(), Fault>
    ensures { result ≡ word_finding g used x }
{
    if !used && x != 0 {
        return Err(Fault::Unused);
    }
    if !does_word_fit(g, x) {
        return Err(Fault::Width);
    }
    Ok(())
}

// A message's words, from byte 8 on; what is found at byte 7 plays no part.
#[tactic(auto, unfolding(crate::specs::Ranges::first_wrong))]
fn words_fault(g: Message) -> Result<(), RangeFault>
    ensures { result ≡ first_wrong 8 (drop 8 (message_findings g false)) }
{
    let uses_x1 = matches!(g.filter, 2..=3 | 6..=9);
    let uses_x2 = matches!(g.filter, 2..=3 | 8..=9);
    word_finding(g, uses_x1, g.x1).map_err(|fault| RangeFault { fault, byte: 8 })?;
    word_finding(g, uses_x2, g.x2).map_err(|fault| RangeFault { fault, byte: 12 })?;
    word_finding(g, true, g.initial).map_err(|fault| RangeFault { fault, byte: 16 })
}

// Signs are 0 to 2, and a float has 32 bits.
fn is_sign_wrong(g: Message) -> bool
    ensures { result ≡ (ltb 2 g.sign || (is_float g && not (eqb g.width 32))) }
{
    2 < g.sign || is_float(g) && g.width != 32
}

// Agreements are 0 to 2, and a sent message has 0.
fn is_agreement_wrong(g: Message) -> bool
    ensures { result ≡ (ltb 2 g.agreement || (eqb g.direction 1 && not (eqb g.agreement 0))) }
{
    2 < g.agreement || is_sent(g) && g.agreement != 0
}

// Filters are 0 to 13, and a float takes no mask.
fn is_filter_wrong(g: Message) -> bool
    ensures { result ≡ (ltb 13 g.filter || (is_float g && is_mask g.filter)) }
{
    13 < g.filter || is_float(g) && matches!(g.filter, 2..=3 | 6..=7)
}

// Of byte 7, which is not named, `other` says that it is not zero.
#[tactic(auto, unfolding(crate::specs::Ranges::first_wrong))]
fn message_fault(g: Message, other: bool) -> Result<(), RangeFault>
    ensures { result ≡ first_wrong 0 (message_findings g other) }
{
    wrong_if(31 < g.number, Fault::Range, 1)?;
    wrong_if(!(1..=32).contains(&g.width), Fault::Range, 2)?;
    wrong_if(is_sign_wrong(g), Fault::Range, 3)?;
    wrong_if(1 < g.direction, Fault::Range, 4)?;
    wrong_if(is_agreement_wrong(g), Fault::Range, 5)?;
    wrong_if(is_filter_wrong(g), Fault::Range, 6)?;
    wrong_if(other, Fault::Reserved, 7)?;
    words_fault(g)
}

#[tactic(auto, unfolding(crate::specs::Ranges::first_wrong))]
fn field_fault(r: Field) -> Result<(), RangeFault>
    ensures { result ≡ first_wrong 0 (field_findings r) }
{
    wrong_if(1 < r.status, Fault::Range, 4)?;
    wrong_if(r.status == 0 && r.place != 0, Fault::Range, 5)
}

// ---- and those that are not

// What is wrong with the bytes that are named, or else the first from `from` on that is not zero.
fn or_reserved(
    named: Result<(), RangeFault>,
    file: &[u8],
    i: usize,
    from: u8,
) -> Result<(), RangeFault>
    requires { (i ≤ 192) × (from ≤ 24) }
    ensures { result ≡ or_else named (lowest_fault (reserved_from file.now i from)) }
{
    named?;
    for k in from..24 {
        wrong_if(record::byte(file, i, k as usize) != 0, Fault::Reserved, k)?;
    }
    Ok(())
}

#[tactic(auto, using(crate::proofs::Walk::frame_walked, crate::proofs::Walk::field_walked))]
pub fn range_fault(file: &[u8], i: usize) -> Result<(), RangeFault>
    requires { i ≤ 192 }
    ensures { result ≡ range_fault file.now i }
{
    // Each byte has an answer; ORDER comes first, and refuses those that are no kind.
    match record::byte(file, i, 0) {
        1 => or_reserved(frame_fault(record::frame_at(file, i)), file, i, 6),
        2 => {
            let g = record::message_at(file, i);
            let other = record::byte(file, i, 7) != 0;
            or_reserved(message_fault(g, other), file, i, 20)
        }
        _ => or_reserved(field_fault(record::field_at(file, i)), file, i, 6),
    }
}
