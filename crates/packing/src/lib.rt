// Packing and unpacking of a message's bits, the status bit among them, and the values that their patterns stand for.
#![tactic(auto)]

ghost use Rattle.std.specs.Prelude.{◌≡◌, ◌+◌, ◌-◌, ◌*◌, ◌/◌, ◌%◌, ◌<◌, ◌≤◌, ◌^◌, length, take};
ghost use Rattle.std.specs.Int.Bits.{bit_and};
ghost use Rattle.whole.specs.Whole.{word};
ghost use Rattle.packing.specs.Places.{places, in_frame, places_in, packed, unpacked};
ghost use Rattle.packing.specs.Values.{in_range, value_of, pattern_of, extended};
ghost use Rattle.packing.specs.Window.{Window, Around, window_byte, window_of, replaced, with_replaced, low_bit};

// ---- a field's bytes as one number

// Bytes first .. past of a frame, in its order.
#[derive(Clone, Copy)]
struct Stretch {
    big: bool,
    first: usize,
    past: usize,
}

impl Stretch {
    // Byte d, counted from the one with the message's lowest bits.
    fn byte(self, d: usize) -> usize
        requires { (self.first + d < self.past) × (self.past ≤ 36) }
        ensures { (result ≡ window_byte self.big self.first self.past d) × (result < self.past) }
    {
        if self.big {
            self.past - 1 - d
        } else {
            self.first + d
        }
    }

    // The byte of the highest bits is read first.
    fn read(self, frame: &[u8]) -> u64
        requires { Window (length frame.now) self.first self.past }
        ensures { result ≡ window_of self.big self.first self.past frame.now 0 (self.past - self.first) }
    {
        let mut x: u64 = 0;
        for d in (0..self.past - self.first).rev() {
            x = x * 256 + frame[self.byte(d)] as u64;
        }
        x
    }

    // Eight bytes at once: one load, and in big order one instruction more.
    fn read_eight(self, frame: &[u8]) -> u64
        requires { (self.past ≡ self.first + 8) × (self.past ≤ length frame.now) }
        ensures { result ≡ window_of self.big self.first self.past frame.now 0 8 }
    {
        let bytes = *frame[self.first..self.past].as_array::<8>().unwrap();
        if self.big {
            u64::from_be_bytes(bytes)
        } else {
            u64::from_le_bytes(bytes)
        }
    }

    // The mask's bits replaced in all the bytes. Not a `for`: a compiler unrolls a counted loop, and it takes longer, since most fields take one turn or two.
    fn put(self, frame: &mut [u8], mask: u64, bits: u64)
        requires { Window (length frame.old) self.first self.past × (mask < 2 ^ ((self.past - self.first) * 8)) × (bit_and bits mask ≡ bits) }
        ensures { frame.new ≡ with_replaced self.big self.first self.past 0 (self.past - self.first) mask bits frame.old }
    {
        let mut m = mask;
        let mut y = bits;
        let mut d = 0;
        while 0 < m {
            let i = self.byte(d);
            frame[i] = replaced_byte(frame[i], (m % 256) as u8, (y % 256) as u8);
            m /= 256;
            y /= 256;
            d += 1;
        }
    }

    // The number's bit that is the lowest of the field.
    fn low_bit(self, start: usize, end: usize) -> usize
        requires { Around self.first self.past start end }
        ensures { (result ≡ low_bit self.big self.first self.past start end) × (result < 64) }
    {
        if self.big {
            self.past * 8 - end
        } else {
            start - self.first * 8
        }
    }
}

// The old bits of the mask are taken out of a byte and the new ones put in, so that the other bits stay.
fn replaced_byte(x: u8, m: u8, y: u8) -> u8
    requires { y ≤ m }
    ensures { result ≡ replaced x m y }
{
    x - (x & m) + y
}

// The lowest bits of a number from bit k on.
fn cut(x: u64, k: usize, width: u8) -> u32
    requires { (k < 64) × (width ≤ 32) }
    ensures { result ≡ x / 2 ^ k % 2 ^ width }
{
    let m = 1u64 << width as u64;
    ((x >> k) % m) as u32
}

// The same bit where the bytes are the field's own, so written that a compiler sees that it is below 8.
fn low_bit_in_byte(big: bool, start: usize, end: usize) -> usize
    requires { start ≤ end }
    ensures { (result ≡ low_bit big (start / 8) ((end + 7) / 8) start end) × (result < 8) × (result + (end - start) ≤ ((end + 7) / 8 - start / 8) * 8) }
{
    if big { (8 - end % 8) % 8 } else { start % 8 }
}

// ---- packing

// A message's bits in a frame: width of them from start, in the frame's order.
#[derive(Clone, Copy)]
struct Field {
    big: bool,
    start: u8,
    width: u8,
}

impl Field {
    fn end(self) -> usize
        ensures { result ≡ self.start + self.width }
    {
        self.start as usize + self.width as usize
    }

    // Whether it lies in a frame of that many bytes.
    fn is_in(self, bytes: usize) -> bool
        ensures { result ≡ in_frame bytes self.start self.width }
    {
        (self.width <= 32) & ((self.end() + 7) / 8 <= bytes)
    }

    fn pack(self, frame: &mut [u8], pattern: u32)
        requires { (self.start + self.width ≤ length frame.old * 8) × (self.width ≤ 32) }
        ensures { frame.new ≡ packed (places self.big self.start self.width) pattern frame.old }
    {
        let start = self.start as usize;
        let end = self.end();
        let bytes = Stretch {
            big: self.big,
            first: start / 8,
            past: (end + 7) / 8,
        };
        let k = low_bit_in_byte(self.big, start, end);
        let m = (1u64 << self.width as u64) - 1;
        bytes.put(frame, m << k, (pattern as u64 & m) << k);
    }

    fn unpack(self, frame: &[u8]) -> u32
        requires { (self.start + self.width ≤ length frame.now * 8) × (self.width ≤ 32) }
        ensures { result ≡ unpacked (places self.big self.start self.width) frame.now }
    {
        let start = self.start as usize;
        let first = start / 8;
        let bytes = Stretch {
            big: self.big,
            first,
            past: first + (start % 8 + self.width as usize + 7) / 8,
        };
        cut(
            bytes.read(frame),
            bytes.low_bit(start, self.end()),
            self.width,
        )
    }

    fn unpack_wide(self, room: &[u8]) -> u32
        requires { (self.start + self.width + 64 ≤ length room.now * 8) × (0 < self.width) × (self.width ≤ 32) }
        ensures { result ≡ unpacked (places self.big self.start self.width) room.now }
    {
        let start = self.start as usize;
        let bytes = Stretch {
            big: self.big,
            first: start / 8,
            past: start / 8 + 8,
        };
        cut(
            bytes.read_eight(room),
            bytes.low_bit(start, self.end()),
            self.width,
        )
    }
}

// The public functions keep their parameters, and take no `Field` and no type of a value: docs/PROMISES.md names them.

// A pattern's lowest bits into the field's places. A status bit is a field of width 1. A field that does not lie in the frame changes nothing.
pub fn pack(frame: &mut [u8], big: bool, start: u8, width: u8, pattern: u32)
    ensures { frame.new ≡ packed (places_in (length frame.old) big start width) pattern frame.old }
{
    let field = Field { big, start, width };
    if field.is_in(frame.len()) {
        field.pack(frame, pattern);
    }
}

// The pattern at the field's places, 0 for a field that does not lie in the frame. 0 and no Option: `unpacked (places_in ..)` has it.
pub fn unpack(frame: &[u8], big: bool, start: u8, width: u8) -> u32
    ensures { result ≡ unpacked (places_in (length frame.now) big start width) frame.now }
{
    let field = Field { big, start, width };
    if field.is_in(frame.len()) {
        field.unpack(frame)
    } else {
        0
    }
}

// The same of the first n bytes of a room that goes on behind them, so that eight bytes can be read wherever the field lies.
pub fn unpack_in(room: &[u8], n: usize, big: bool, start: u8, width: u8) -> u32
    requires { n + 8 ≤ length room.now }
    ensures { result ≡ unpacked (places_in n big start width) (take n room.now) }
{
    let field = Field { big, start, width };
    if 0 < width && field.is_in(n) {
        field.unpack_wide(room)
    } else {
        0
    }
}

// ---- values

// The largest unsigned value of a width. The shift has 64 bits, since one of 32 bits by 32 would wrap.
fn largest(width: u8) -> u32
    requires { width ≤ 32 }
    ensures { result ≡ 2 ^ width - 1 }
{
    ((1u64 << width as u64) - 1) as u32
}

// Whether a message of that width and sign holds the value.
pub fn in_range(value: i64, width: u8, signed: bool) -> bool
    ensures { result ≡ in_range signed width value }
{
    if !(1..=32).contains(&width) {
        return false;
    }
    let top = largest(width);
    if signed {
        let half = (top / 2) as i64;
        return (!half <= value) & (value <= half);
    }
    (0 <= value) & (value <= top as i64)
}

// The value of a pattern: the sign is extended from the width.
pub fn value_of(pattern: u32, width: u8, signed: bool) -> i64
    ensures { result ≡ value_of signed width pattern }
{
    if !signed {
        return pattern as i64;
    }
    if 32 < width {
        return pattern as i64;
    }
    let top = largest(width);
    if pattern <= top / 2 {
        return pattern as i64;
    }
    pattern as i64 - (top as i64 + 1)
}

// The 32-bit pattern of a value: its lowest bits.
pub fn pattern_of(value: i64) -> u32
    ensures { result ≡ pattern_of 32 value }
{
    (value & 0xffff_ffff) as u32
}

// The 32-bit pattern of four bytes, the lowest first. Not `from_le_bytes` at each caller: docs/PROMISES.md names it.
pub fn word_of(a: u8, b: u8, c: u8, d: u8) -> u32
    ensures { result ≡ word a b c d }
{
    u32::from_le_bytes([a, b, c, d])
}

// Whether a 32-bit pattern is extended from the width: exactly if its value is one of the width's.
pub fn is_extended(pattern: u32, width: u8, signed: bool) -> bool
    ensures { result ≡ extended signed width pattern }
{
    in_range(value_of(pattern, 32, signed), width, signed)
}
