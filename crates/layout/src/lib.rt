// What is said of a layout file: its counts, why it is refused, and the verdict. crates/reader finds it.
#![tactic(auto)]

ghost use Rattle.std.specs.Prelude.{◌≡◌, ◌≤◌};
ghost use Rattle.layout.specs.declared.Refusal.{Refusal};
ghost use Rattle.layout.specs.Counts.{counted_by};
ghost use Rattle.layout.specs.Numbers.{fault_number, number_of, byte_of};

use ranges::{Fault, RangeFault};
use record::Record;

// How many records of each kind there are.
#[derive(Clone, Copy, Default)]
pub struct Counts {
    pub frames: usize,
    pub messages: usize,
    pub fields: usize,
}

// Why a file is refused; where it is a byte of the record, the lowest that is wrong.
#[derive(Clone, Copy)]
pub enum Refusal {
    Size,
    Order,
    Byte(RangeFault),
    Ref,
    Group,
    Place,
    NoField,
}

impl From<RangeFault> for Refusal {
    ghost from_gives = { λ wrong refusal. refusal ≡ Refusal.Byte wrong };

    fn from(wrong: RangeFault) -> Refusal {
        Refusal::Byte(wrong)
    }
}

// A refused file: why, and at which record.
#[derive(Clone, Copy)]
pub struct Refused {
    pub refusal: Refusal,
    pub record: usize,
}

// ---- the refusals' numbers: functions and no `From`, since the promises name them

fn fault_number(fault: Fault) -> u8
    ensures { result ≡ fault_number fault }
{
    match fault {
        Fault::Range => 3,
        Fault::Reserved => 8,
        Fault::Unused => 9,
        Fault::Width => 10,
    }
}

pub fn number_of(refusal: Refusal) -> u8
    ensures { result ≡ number_of refusal }
{
    match refusal {
        Refusal::Size => 1,
        Refusal::Order => 2,
        Refusal::Byte(wrong) => fault_number(wrong.fault),
        Refusal::Ref => 4,
        Refusal::Group => 5,
        Refusal::Place => 6,
        Refusal::NoField => 7,
    }
}

// The byte that a refusal gives, or 0: byte 0 holds the kind, which ORDER tests. A number and no Option: `load` adds it to its answer.
pub fn byte_of(refusal: Refusal) -> u8
    ensures { result ≡ byte_of refusal }
{
    match refusal {
        Refusal::Byte(wrong) => wrong.byte,
        _ => 0,
    }
}

// ---- the counts

impl Counts {
    // With one record more, if it is one.
    pub fn with(self, read: Result<Record, Refusal>) -> Counts
        requires { (self.frames ≤ 192) × (self.messages ≤ 192) × (self.fields ≤ 192) }
        ensures { result ≡ counted_by self read }
    {
        match read {
            Ok(Record::Frame(_)) => Counts {
                frames: self.frames + 1,
                ..self
            },
            Ok(Record::Message(_)) => Counts {
                messages: self.messages + 1,
                ..self
            },
            Ok(Record::Field(_)) => Counts {
                fields: self.fields + 1,
                ..self
            },
            Err(_) => self,
        }
    }
}
