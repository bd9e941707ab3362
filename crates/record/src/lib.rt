// One record of a layout file: its bytes and words by the paper's names, and the runs of frame bits that a field uses.
#![tactic(auto)]

ghost use Rattle.std.specs.Prelude.{◌≡◌, ◌+◌, ◌*◌, ◌≤◌, length};
ghost use Rattle.record.specs.Records.{byte_at, record_bytes, word_at, frame_at, message_at, field_at, record_at, pair_below};
ghost use Rattle.record.specs.Runs.{status_run, past_end, meet};

// Bytes and no enums: RANGE must see each byte that a file can have.
#[derive(Clone, Copy)]
pub struct Frame {
    pub number: u8,
    pub length: u8,
    pub order: u8,
    pub direction: u8,
    pub trigger: u8,
}

// Bytes and no enums, as above.
#[derive(Clone, Copy)]
pub struct Message {
    pub number: u8,
    pub width: u8,
    pub sign: u8,
    pub direction: u8,
    pub agreement: u8,
    pub filter: u8,
    pub x1: u32,
    pub x2: u32,
    pub initial: u32,
}

// Bytes and no enums, as above.
#[derive(Clone, Copy)]
pub struct Field {
    pub message: u8,
    pub frame: u8,
    pub start: u8,
    pub status: u8,
    pub place: u8,
}

#[derive(Clone, Copy)]
pub enum Record {
    Frame(Frame),
    Message(Message),
    Field(Field),
}

// Frame bits start, start + 1, .. of that number.
#[derive(Clone, Copy)]
pub struct Run {
    pub start: u8,
    pub width: u8,
}

impl Run {
    // The bit behind its last.
    fn end(self) -> usize
        ensures { result ≡ self.start + self.width }
    {
        self.start as usize + self.width as usize
    }
}

// ---- reading

// A file and a number, and no struct of the two: docs/PROMISES.md names these functions, and a struct would be made anew at each call.

// Byte k of record i, 0 past the end of the file. The bounds keep the sum from overflowing: one that saturates would need none, but takes three instructions more for each record read.
pub fn byte(file: &[u8], i: usize, k: usize) -> u8
    requires { (i ≤ 1000) × (k ≤ 1000) }
    ensures { result ≡ byte_at file.now i k }
{
    file.get(i * 24 + k).copied().unwrap_or(0)
}

fn word(file: &[u8], i: usize, k: usize) -> u32
    requires { (i ≤ 1000) × (k ≤ 900) }
    ensures { result ≡ word_at file.now i k }
{
    packing::word_of(
        byte(file, i, k),
        byte(file, i, k + 1),
        byte(file, i, k + 2),
        byte(file, i, k + 3),
    )
}

// The bytes of a record that the file has. Read as record 0 of these, its bytes need not be looked for past the end.
pub fn bytes(file: &[u8], i: usize) -> &[u8]
    requires { (i ≤ 1000) × (i * 24 + 24 ≤ length file.now) }
    ensures { result.now ≡ record_bytes file.now i }
{
    &file[i * 24..i * 24 + 24]
}

pub fn frame_at(file: &[u8], i: usize) -> Frame
    requires { i ≤ 1000 }
    ensures { result ≡ frame_at file.now i }
{
    Frame {
        number: byte(file, i, 1),
        length: byte(file, i, 2),
        order: byte(file, i, 3),
        direction: byte(file, i, 4),
        trigger: byte(file, i, 5),
    }
}

pub fn message_at(file: &[u8], i: usize) -> Message
    requires { i ≤ 1000 }
    ensures { result ≡ message_at file.now i }
{
    Message {
        number: byte(file, i, 1),
        width: byte(file, i, 2),
        sign: byte(file, i, 3),
        direction: byte(file, i, 4),
        agreement: byte(file, i, 5),
        filter: byte(file, i, 6),
        x1: word(file, i, 8),
        x2: word(file, i, 12),
        initial: word(file, i, 16),
    }
}

pub fn field_at(file: &[u8], i: usize) -> Field
    requires { i ≤ 1000 }
    ensures { result ≡ field_at file.now i }
{
    Field {
        message: byte(file, i, 1),
        frame: byte(file, i, 2),
        start: byte(file, i, 3),
        status: byte(file, i, 4),
        place: byte(file, i, 5),
    }
}

pub fn record_at(file: &[u8], i: usize) -> Record
    requires { i ≤ 1000 }
    ensures { result ≡ record_at file.now i }
{
    match byte(file, i, 0) {
        1 => Record::Frame(frame_at(file, i)),
        2 => Record::Message(message_at(file, i)),
        // Any other kind reads as a field: ORDER comes first.
        _ => Record::Field(field_at(file, i)),
    }
}

// ---- ORDER

pub fn pair_below(p: Field, r: Field) -> bool
    ensures { result ≡ pair_below p r }
{
    (p.message, p.frame) < (r.message, r.frame)
}

// ---- PLACE

pub fn past_end(n: u8, a: Run) -> bool
    ensures { result ≡ past_end n a }
{
    (0 < a.width) & (n as usize * 8 < a.end())
}

pub fn runs_meet(a: Run, b: Run) -> bool
    ensures { result ≡ meet a b }
{
    (0 < a.width)
        & ((0 < b.width) & (((a.start as usize) < b.end()) & ((b.start as usize) < a.end())))
}

pub fn status_run(r: Field) -> Run
    ensures { result ≡ status_run r }
{
    Run {
        start: r.place,
        width: r.status,
    }
}
