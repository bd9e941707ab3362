// The text of the listing program, written into a lent buffer.
#![tactic(auto)]

ghost use Rattle.std.specs.Prelude.{◌≡◌, ◌++◌, ◌+◌, ◌*◌, ◌≤◌, length};
ghost use Rattle.listing.specs.Text.{decimal, space, status_text, line_of, line_at, lines, byte_text, refusal_text, listing};
ghost use Rattle.listing.specs.Put.{Put, Adds};

use layout::{Counts, Refused};
use record::Field;

// A text in a lent buffer, of which the bytes before a place are written. Each method writes on from there, and asks for its own room: its clause says
// how much.
// A lent buffer and no list: what is left of it stays (`Put`).
#[derive(Drop)]
struct Text<'a> {
    out: &'a mut [u8; 4096],
    at: usize,
}

impl Text<'_> {
    fn bytes(&mut self, text: &[u8])
        requires { self.old.at + length text.now ≤ 4096 }
        ensures { Adds self.old self.new text.now (length text.now) }
    {
        let from = self.at;
        let end = from + text.len();
        // The whole first: Rattle takes no part of what lies behind a reference.
        let out = &mut self.out[..];
        out[from..end].copy_from_slice(text);
        self.at = end;
    }

    // Not by `write!`: its bytes are known only where it answers `Ok`, and a listing is always whole.
    fn number(&mut self, n: u8)
        requires { self.old.at + 3 ≤ 4096 }
        ensures { Adds self.old self.new (decimal n) 3 }
    {
        self.bytes(itoa::Buffer::new().format(n).as_bytes());
    }

    fn spaced(&mut self, n: u8)
        requires { self.old.at + 4 ≤ 4096 }
        ensures { Adds self.old self.new (decimal n ++ space) 4 }
    {
        self.number(n);
        self.bytes(b" ");
    }

    fn status(&mut self, r: Field)
        requires { self.old.at + 3 ≤ 4096 }
        ensures { Adds self.old self.new (status_text r) 3 }
    {
        if r.status == 1 {
            self.number(r.place);
        } else {
            self.bytes(b"-");
        }
    }

    fn line(&mut self, r: Field, width: u8)
        requires { self.old.at + 20 ≤ 4096 }
        ensures { Adds self.old self.new (line_of r width) 20 }
    {
        self.spaced(r.message);
        self.spaced(r.frame);
        self.spaced(r.start);
        self.spaced(width);
        self.status(r);
        self.bytes(b"\n");
    }

    fn field(&mut self, file: &[u8], counts: Counts, d: usize)
        requires { (self.old.at + 20 ≤ 4096) × (counts.frames ≤ 192) × (counts.messages ≤ 192) × (d ≤ 192) }
        ensures { Adds self.old self.new (line_at file.now counts.frames counts.messages d) 20 }
    {
        let r = record::field_at(file, counts.frames + counts.messages + d);
        let g = record::message_at(file, counts.frames + r.message as usize);
        self.line(r, g.width);
    }

    fn lines(&mut self, file: &[u8], counts: Counts)
        requires { (self.old.at + 20 * counts.fields ≤ 4096) × (counts.frames ≤ 192) × (counts.messages ≤ 192) × (counts.fields ≤ 192) }
        ensures { Adds self.old self.new (lines file.now counts.frames counts.messages counts.fields) (20 * counts.fields) }
    {
        for d in 0..counts.fields {
            self.field(file, counts, d);
        }
    }

    // A byte and no Option: `byte_text` says nothing for 0.
    fn byte(&mut self, byte: u8)
        requires { self.old.at + 9 ≤ 4096 }
        ensures { Adds self.old self.new (byte_text byte) 9 }
    {
        if byte != 0 {
            self.bytes(b" byte ");
            self.number(byte);
        }
    }

    fn refusal(&mut self, refused: Refused)
        requires { (self.old.at + 32 ≤ 4096) × (refused.record ≤ 192) }
        ensures { Adds self.old self.new (refusal_text refused.refusal refused.record) 32 }
    {
        self.bytes(b"refused ");
        self.number(layout::number_of(refused.refusal));
        self.bytes(b" record ");
        self.number(refused.record as u8);
        self.byte(layout::byte_of(refused.refusal));
        self.bytes(b"\n");
    }

    fn listing(&mut self, file: &[u8])
        requires { self.old.at ≡ 0 }
        ensures { Adds self.old self.new (listing file.now) 4096 }
    {
        match reader::read_layout(file) {
            Ok(counts) => {
                self.bytes(b"message frame start width status\n");
                self.lines(file, counts);
            }
            Err(refused) => self.refusal(refused),
        }
    }
}

// The listing of a file at the start of the buffer; what is left of the buffer stays.
pub fn list_file(file: &[u8], out: &mut [u8; 4096]) -> usize
    ensures { Put out.old out.new 0 result (listing file.now) 4096 }
{
    let mut text = Text { out, at: 0 };
    text.listing(file);
    text.at
}
