// The layout reader: a file is accepted, or refused with a record. An accepted file is its own store; what a test asks of the records before is carried
// from record to record.
#![tactic(auto)]

ghost use Rattle.std.specs.Prelude.{◌≡◌, cond, ◌+◌, ◌-◌, ◌*◌, ◌<◌, ◌≤◌, ltb, length, Ok, Err};
ghost use Rattle.record.specs.Records.{byte_at, record_bytes, is_frame, is_message, is_field, field_at, record_at};
ghost use Rattle.record.specs.Runs.{message_run};
ghost use Rattle.ranges.specs.Ranges.{range_fault};
ghost use Rattle.layout.specs.Counts.{message_numbered};
ghost use Rattle.layout.specs.Verdict.{order_fault, ref_fault, group_fault, place_fault, read_at, refused_at, judged, verdict};
ghost use Rattle.reader.specs.Carried.{
  is_at_hand,
  earlier_by,
  Earlier,
  fields_after,
  lacking_after,
  TableOf,
  HasRow,
  Fits,
  Carried,
};

use layout::{Counts, Refusal, Refused};
use ranges::RangeFault;
use record::{Field, Record, Run};
use used::Table;

// Bytes of a message's record.
const WIDTH: usize = 2;

const DIRECTION: usize = 4;

const FILTER: usize = 6;

// What two of them say: the message is sent, and each value passes its filter.
const SENT: u8 = 1;

const FILTER_TRUE: u8 = 0;

// Record i of a file, and the counts of the records read so far.
#[derive(Clone, Copy)]
struct At<'a> {
    file: &'a [u8],
    i: usize,
    c: Counts,
    ghost few: { i ≤ 192 },
    ghost inside: { i * 24 + 24 ≤ length file.now },
    ghost frames: { c.frames ≤ 192 },
}

// ---- its bytes

impl<'a> At<'a> {
    // Read as record 0 of these, no byte need be looked for past the end of the file.
    fn bytes(&self) -> &'a [u8]
        ensures { result.now ≡ record_bytes self.now.file.now self.now.i }
    {
        record::bytes(self.file, self.i)
    }

    // A number and no enum: ORDER is what finds the bytes that are no kind.
    #[tactic(auto, using(record::proofs::Own::byte_read))]
    fn kind(&self) -> u8
        ensures { result ≡ byte_at self.now.file.now self.now.i 0 }
    {
        record::byte(self.bytes(), 0, 0)
    }

    // Three functions and no enum: each is named by its definition.
    #[tactic(auto, unfolding(record::specs::Records::is_frame))]
    fn is_frame(&self) -> bool
        ensures { result ≡ is_frame self.now.file.now self.now.i }
    {
        self.kind() == 1
    }

    #[tactic(auto, unfolding(record::specs::Records::is_message))]
    fn is_message(&self) -> bool
        ensures { result ≡ is_message self.now.file.now self.now.i }
    {
        self.kind() == 2
    }

    #[tactic(auto, unfolding(record::specs::Records::is_field))]
    fn is_field(&self) -> bool
        ensures { result ≡ is_field self.now.file.now self.now.i }
    {
        self.kind() == 3
    }

    #[tactic(auto, using(record::proofs::Own::byte_read))]
    fn number(&self) -> u8
        ensures { result ≡ byte_at self.now.file.now self.now.i 1 }
    {
        record::byte(self.bytes(), 0, 1)
    }

    #[tactic(auto, using(record::proofs::Own::field_read))]
    fn field(&self) -> Field
        ensures { result ≡ field_at self.now.file.now self.now.i }
    {
        record::field_at(self.bytes(), 0)
    }

    #[tactic(auto, using(record::proofs::Own::record_read))]
    fn record(&self) -> Record
        ensures { result ≡ record_at self.now.file.now self.now.i }
    {
        record::record_at(self.bytes(), 0)
    }

    // The record before; of record 0 itself, which is never looked at.
    fn last(&self) -> At<'a>
        ensures file { result.file.now ≡ self.now.file.now }
        ensures i { result.i ≡ self.now.i - 1 }
    {
        At {
            file: self.file,
            i: self.i.saturating_sub(1),
            c: self.c,
        }
    }

    // A byte of a message's record: all the words of the message would take longer than the tests.
    fn message_byte(&self, m: u8, k: usize) -> u8
        requires { k < 24 }
        ensures { result ≡ byte_at self.now.file.now (self.now.c.frames + m) k }
    {
        record::byte(self.file, self.c.frames + m as usize, k)
    }
}

// ---- the tests

impl<'a> At<'a> {
    // ORDER
    #[tactic(auto, unfolding(layout::specs::Verdict::order_fault))]
    fn order_fault(&self) -> bool
        ensures { result ≡ order_fault self.now.file.now self.now.i self.now.c }
    {
        let c = self.c;
        let last = self.last();
        let kind = self.kind();
        let number = self.number() as usize;
        let rises = record::pair_below(last.field(), self.field());
        !(1..=3).contains(&kind)
            | ((0 < self.i) & (kind < last.kind()))
            | (self.is_frame() & (number != c.frames))
            | (self.is_message() & (number != c.messages))
            | ((0 < self.i) & (last.is_field() & (self.is_field() & !rises)))
    }

    // RANGE, RESERVED, UNUSED and WIDTH
    #[tactic(auto, using(ranges::proofs::Own::own_range))]
    fn range_fault(&self) -> Result<(), RangeFault>
        ensures { result ≡ range_fault self.now.file.now self.now.i }
    {
        ranges::range_fault(self.bytes(), 0)
    }

    // REF
    #[tactic(auto, unfolding(layout::specs::Verdict::ref_fault, record::specs::Records::message_at))]
    fn ref_fault(&self) -> bool
        ensures { result ≡ ref_fault self.now.file.now self.now.i self.now.c }
    {
        let c = self.c;
        let r = self.field();
        let direction = self.message_byte(r.message, DIRECTION);
        let h = record::frame_at(self.file, r.frame as usize);
        self.is_field()
            & ((c.messages <= r.message as usize)
                | (c.frames <= r.frame as usize)
                | (direction != h.direction))
    }

    // As pairs rise, the fields of a message come together: those before a field are of its message, or there are none.
    #[tactic(auto, unfolding(crate::specs::Carried::is_at_hand))]
    fn is_at_hand(&self) -> bool
        ensures { result ≡ is_at_hand self.now.file.now self.now.i }
    {
        let last = self.last();
        let q = last.field();
        let r = self.field();
        (0 < self.i) & (last.is_field() & (q.message == r.message))
    }

    // How many fields of a field's message come before it, where so many of the message at hand did.
    #[tactic(auto, unfolding(crate::specs::Carried::earlier_by))]
    fn earlier_fields(&self, fields_so_far: usize) -> usize
        ensures value { result ≡ earlier_by self.now.file.now self.now.i fields_so_far }
        ensures few { result ≤ fields_so_far }
    {
        if self.is_at_hand() { fields_so_far } else { 0 }
    }

    // GROUP: whether the earlier fields have a status bit the record before tells.
    #[tactic(auto, using(crate::proofs::Reading::kind_three), unfolding(layout::specs::Verdict::group_fault, record::specs::Records::message_at))]
    fn group_fault(&self, earlier: usize) -> bool
        requires { Earlier self.now.file.now self.now.i earlier }
        ensures { result ≡ group_fault self.now.file.now self.now.i self.now.c }
    {
        if !self.is_field() {
            return false;
        }
        let r = self.field();
        let q = self.last().field();
        let direction = self.message_byte(r.message, DIRECTION);
        let filter = self.message_byte(r.message, FILTER);
        (8 <= earlier)
            | (128 <= self.c.fields)
            | ((0 < earlier) & (q.status != r.status))
            | ((direction == SENT) & ((filter != FILTER_TRUE) & (r.status == 0)))
    }

    // The bits that a field uses for its message.
    #[tactic(auto, unfolding(record::specs::Records::message_at))]
    fn message_run(&self, r: Field) -> Run
        ensures { result ≡ message_run (message_numbered self.now.file.now self.now.c r.message) r }
    {
        Run {
            start: r.start,
            width: self.message_byte(r.message, WIDTH),
        }
    }

    // PLACE
    #[tactic(auto, using(crate::proofs::Reading::kind_three), unfolding(layout::specs::Verdict::place_fault))]
    fn place_fault(&self, table: &Table) -> bool
        requires row { HasRow self.now.file.now self.now.c.frames self.now.i }
        requires table { TableOf self.now.file.now self.now.c.frames self.now.i table.now }
        ensures { result ≡ place_fault self.now.file.now self.now.i self.now.c }
    {
        if !self.is_field() {
            return false;
        }
        let r = self.field();
        let h = record::frame_at(self.file, r.frame as usize);
        let a = self.message_run(r);
        let b = record::status_run(r);
        if record::past_end(h.length, a) | record::past_end(h.length, b) | record::runs_meet(a, b) {
            return true;
        }
        let f = r.frame as usize;
        used::is_used(table, f, a) | used::is_used(table, f, b)
    }
}

// ---- the verdict

impl<'a> At<'a> {
    // Reads the record by what is carried from those before: the first failing test decides.
    #[tactic(auto, unfolding(layout::specs::Verdict::fails, layout::specs::Verdict::refusal_of, layout::specs::Verdict::read_at))]
    fn read(&self, fields_so_far: usize, table: &Table) -> Result<Record, Refusal>
        requires { Carried self.now.file.now self.now.i self.now.c fields_so_far table.now }
        ensures { result ≡ read_at self.now.file.now self.now.i self.now.c }
    {
        if self.order_fault() {
            return Err(Refusal::Order);
        }
        self.range_fault()?;
        if self.ref_fault() {
            return Err(Refusal::Ref);
        }
        if self.group_fault(self.earlier_fields(fields_so_far)) {
            return Err(Refusal::Group);
        }
        if self.place_fault(table) {
            return Err(Refusal::Place);
        }
        Ok(self.record())
    }

    // The bits of a field that passes are used from now on.
    #[tactic(auto, using(crate::proofs::Reading::kind_three))]
    fn add_field(&self, table: &mut Table)
        requires fits { Fits self.now.file.now self.now.c.frames self.now.i }
        requires table { TableOf self.now.file.now self.now.c.frames self.now.i table.old }
        ensures { TableOf self.now.file.now self.now.c.frames (self.now.i + 1) table.new }
    {
        if self.is_field() {
            let r = self.field();
            let f = r.frame as usize;
            used::add(table, f, self.message_run(r));
            used::add(table, f, record::status_run(r));
        }
    }

    // How many fields of the message at hand there are with this record.
    #[tactic(auto, unfolding(crate::specs::Carried::fields_after))]
    fn fields_after(&self, fields_so_far: usize) -> usize
        requires { fields_so_far ≤ 192 }
        ensures { result ≡ fields_after self.now.file.now self.now.i fields_so_far }
    {
        if !self.is_field() {
            return 0;
        }
        self.earlier_fields(fields_so_far) + 1
    }

    // The lowest message without a field, with this record: as messages rise, one that is passed over never gets one.
    #[tactic(auto, unfolding(crate::specs::Carried::lacking_after))]
    fn lacking_after(&self, lacking: usize) -> usize
        requires { lacking ≤ 256 }
        ensures value { result ≡ lacking_after self.now.file.now self.now.i lacking }
        ensures few { result ≤ 256 }
    {
        let r = self.field();
        if self.is_field() & (r.message as usize == lacking) {
            lacking + 1
        } else {
            lacking
        }
    }
}

// The verdict on records that pass their tests: NOFIELD is left.
fn complete_file(c: Counts, lacking: usize) -> Result<Counts, Refused>
    requires { (c.frames ≤ 192) × (lacking ≤ 256) }
    ensures { result ≡ cond (ltb lacking c.messages) (Err (refused_at Refusal.NoField (c.frames + lacking))) (Ok c) }
{
    if lacking < c.messages {
        return Err(Refused {
            refusal: Refusal::NoField,
            record: c.frames + lacking,
        });
    }
    Ok(c)
}

// The verdict on n records: a refusal gives its record, and no layout.
#[tactic(auto, using(crate::proofs::Reading::counts_few))]
fn judge(file: &[u8], n: usize) -> Result<Counts, Refused>
    requires { (n ≤ 192) × (n * 24 ≤ length file.now) }
    ensures { result ≡ judged file.now n }
{
    let mut c = Counts::default();
    // Carried one by one and in no struct: `read` asks for two of these, and each step below for one.
    let mut fields_so_far = 0;
    let mut lacking = 0;
    let mut table: Table = [0; 1032];
    // By index and not by chunks: a test also looks at the record before, and at those of the frame and the message that a field names.
    for i in 0..n {
        let at = At { file, i, c };
        let read = at.read(fields_so_far, &table);
        let Err(refusal) = read else {
            at.add_field(&mut table);
            fields_so_far = at.fields_after(fields_so_far);
            lacking = at.lacking_after(lacking);
            c = c.with(read);
            continue;
        };
        return Err(Refused { refusal, record: i });
    }
    complete_file(c, lacking)
}

// The verdict on a layout file.
#[tactic(auto, unfolding(layout::specs::Verdict::size_fault, layout::specs::Verdict::verdict))]
pub fn read_layout(file: &[u8]) -> Result<Counts, Refused>
    ensures { result ≡ verdict file.now }
{
    if (file.len() % 24 != 0) | (4608 < file.len()) {
        return Err(Refused {
            refusal: Refusal::Size,
            record: 0,
        });
    }
    judge(file, file.len() / 24)
}
