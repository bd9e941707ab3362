// One node in memory that the caller lends: cells are read into structs, and what changes is written back; nothing else touches the bytes.
#![tactic(auto)]

ghost use Rattle.std.specs.Prelude.{◌≡◌, List, ℕ, ◌++◌, ◌+◌, ◌<◌, ◌≤◌, min, ltb, length, replicate, drop};
ghost use Rattle.store.specs.Memory.{part, overwritten};
ghost use Rattle.store.specs.Node.{
  frame_of,
  frame_bytes,
  message_of,
  message_bytes,
  laid_of,
  laid_bytes,
  message_state_of,
  message_state_bytes,
  is_signed,
  is_float,
  is_sent,
  has_status_bit,
  is_big,
  is_sent_frame,
  is_event,
  is_valid,
  stage_of,
  code_of,
  node_size,
  layout_of,
  state_of,
  node_of,
  room_of,
  counts_of,
  frame_count,
  message_count,
  frame_at,
  message_at,
  laid_at,
  listed_at,
  delivery_at,
  state_at,
  field_at,
  data_at,
  no_message,
  no_delivery,
  no_state,
  marked,
  filled,
  with_deliveries,
  with_delivery,
  with_state,
  with_stage,
  node_with,
  StoredStage,
};
ghost use Rattle.store.specs.Writing.{empty_node, with_numbers, with_frame, with_message, with_laid, with_listed};

use layout::Counts;

// The memory of a node, as large as `node_size` says. An array and no struct with methods: C lends it, and slices of it are what the definitions speak of.
pub type Node = [u8; 2851];

// Where the regions begin behind the three counts, in their order.
const FRAMES: usize = 3;

const MESSAGES: usize = 195;

const FIELDS: usize = 707;

const INDEX: usize = 1347;

const DELIVERIES: usize = 1475;

const STATES: usize = 2531;

const STAGES: usize = 2723;

// ---- what the layout says. Kinds are bytes and no enums: on any memory a byte says anything, and `same_memory` needs each one back.

// A frame: its fields are those whose numbers stand in the index from place first on, of that number.
#[derive(Clone, Copy)]
pub struct Frame {
    pub length: u8,
    pub order: u8,
    pub direction: u8,
    pub trigger: u8,
    pub first: u8,
    pub fields: u8,
}

impl Frame {
    pub fn is_big(self) -> bool
        ensures { result ≡ is_big self }
    {
        self.order == 1
    }

    pub fn is_sent(self) -> bool
        ensures { result ≡ is_sent_frame self }
    {
        self.direction == 1
    }

    pub fn is_event(self) -> bool
        ensures { result ≡ is_event self }
    {
        self.trigger == 1
    }
}

// A message: its fields are those from first on, of that number.
#[derive(Clone, Copy, Default)]
pub struct Message {
    pub width: u8,
    pub sign: u8,
    pub direction: u8,
    pub agreement: u8,
    pub filter: u8,
    pub statusbit: u8,
    pub first: u8,
    pub fields: u8,
    pub x1: u32,
    pub x2: u32,
}

impl Message {
    pub fn is_signed(self) -> bool
        ensures { result ≡ is_signed self }
    {
        self.sign == 1
    }

    pub fn is_float(self) -> bool
        ensures { result ≡ is_float self }
    {
        self.sign == 2
    }

    pub fn is_sent(self) -> bool
        ensures { result ≡ is_sent self }
    {
        self.direction == 1
    }

    pub fn has_status_bit(self) -> bool
        ensures { result ≡ has_status_bit self }
    {
        self.statusbit != 0
    }
}

// ---- what calls change

// A message's validity, the pattern of the value that it holds, and its status. With the word in the middle they are more than eight bytes, and are not
// packed into one register at each call. The validity is a byte and no truth value, as the kinds are.
#[derive(Clone, Copy, Default)]
pub struct MessageState {
    pub valid: u8,
    pub held: u32,
    pub status: u8,
}

impl MessageState {
    pub fn is_valid(self) -> bool
        ensures { result ≡ is_valid self }
    {
        self.valid != 0
    }
}

// The paper's form: a sent field is waiting, loaded or gone; a gone one keeps its byte, so that every byte is a stage.
#[derive(Clone, Copy)]
pub enum Stage {
    Waiting,
    Loaded,
    Gone(u8),
}

// A field: its record, which the layout says, and its stage, which calls change.
#[derive(Clone, Copy)]
pub struct Field {
    pub laid: record::Field,
    pub stage: Stage,
}

// ---- cells

// What the memory holds in cells of N bytes, and how a cell is read and written. Each impl repeats the clause of `read`, which the check cannot give it yet.
trait Cell<const N: usize> {
    ghost of: { List ℕ → Self };

    ghost bytes: { Self → List ℕ };

    fn read(c: [u8; N]) -> Self
        ensures { result ≡ of c.entry };

    fn write(self) -> [u8; N]
        ensures { result ≡ bytes self };
}

impl Cell<6> for Frame {
    ghost of = { frame_of };

    ghost bytes = { frame_bytes };

    #[tactic(auto, unfolding(crate::specs::Node::frame_of))]
    fn read(c: [u8; 6]) -> Frame
        ensures { result ≡ frame_of c }
    {
        let [length, order, direction, trigger, first, fields] = c;
        Frame {
            length,
            order,
            direction,
            trigger,
            first,
            fields,
        }
    }

    #[tactic(auto, unfolding(crate::specs::Node::frame_bytes))]
    fn write(self) -> [u8; 6] {
        [
            self.length,
            self.order,
            self.direction,
            self.trigger,
            self.first,
            self.fields,
        ]
    }
}

impl Cell<16> for Message {
    ghost of = { message_of };

    ghost bytes = { message_bytes };

    #[tactic(auto, unfolding(crate::specs::Node::message_of))]
    fn read(c: [u8; 16]) -> Message
        ensures { result ≡ message_of c }
    {
        let [
            width,
            sign,
            direction,
            agreement,
            filter,
            statusbit,
            first,
            fields,
            a0,
            a1,
            a2,
            a3,
            b0,
            b1,
            b2,
            b3,
        ] = c;
        Message {
            width,
            sign,
            direction,
            agreement,
            filter,
            statusbit,
            first,
            fields,
            x1: u32::from_le_bytes([a0, a1, a2, a3]),
            x2: u32::from_le_bytes([b0, b1, b2, b3]),
        }
    }

    #[tactic(auto, using(crate::proofs::Cells::word_bytes), unfolding(crate::specs::Node::message_bytes))]
    fn write(self) -> [u8; 16] {
        let [a0, a1, a2, a3] = self.x1.to_le_bytes();
        let [b0, b1, b2, b3] = self.x2.to_le_bytes();
        [
            self.width,
            self.sign,
            self.direction,
            self.agreement,
            self.filter,
            self.statusbit,
            self.first,
            self.fields,
            a0,
            a1,
            a2,
            a3,
            b0,
            b1,
            b2,
            b3,
        ]
    }
}

impl Cell<5> for record::Field {
    ghost of = { laid_of };

    ghost bytes = { laid_bytes };

    #[tactic(auto, unfolding(crate::specs::Node::laid_of))]
    fn read(c: [u8; 5]) -> record::Field
        ensures { result ≡ laid_of c }
    {
        let [message, frame, start, status, place] = c;
        record::Field {
            message,
            frame,
            start,
            status,
            place,
        }
    }

    #[tactic(auto, unfolding(crate::specs::Node::laid_bytes))]
    fn write(self) -> [u8; 5] {
        [
            self.message,
            self.frame,
            self.start,
            self.status,
            self.place,
        ]
    }
}

impl Cell<6> for MessageState {
    ghost of = { message_state_of };

    ghost bytes = { message_state_bytes };

    #[tactic(auto, unfolding(crate::specs::Node::message_state_of))]
    fn read(c: [u8; 6]) -> MessageState
        ensures { result ≡ message_state_of c }
    {
        let [valid, status, h0, h1, h2, h3] = c;
        MessageState {
            valid,
            status,
            held: u32::from_le_bytes([h0, h1, h2, h3]),
        }
    }

    #[tactic(auto, unfolding(crate::specs::Node::message_state_bytes))]
    fn write(self) -> [u8; 6] {
        let [h0, h1, h2, h3] = self.held.to_le_bytes();
        [self.valid, self.status, h0, h1, h2, h3]
    }
}

// The cell of N bytes that lies at a place.
fn read_cell<const N: usize, C: Cell<N>>(node: &Node, at: usize) -> C
    requires { at + N ≤ node_size }
    ensures { result ≡ C.of (part node.now at N) }
{
    let mut cell = [0; N];
    cell.copy_from_slice(&node[at..at + N]);
    C::read(cell)
}

fn write_cell<const N: usize, C: Cell<N>>(node: &mut Node, at: usize, x: C)
    requires { at + N ≤ node_size }
    ensures { node.new ≡ overwritten node.old at N (C.bytes x) }
{
    node[at..at + N].copy_from_slice(&x.write());
}

// A stage's cell is its one byte.
impl From<u8> for Stage {
    ghost from_gives = { λ k s. s ≡ stage_of k };

    fn from(k: u8) -> Stage {
        match k {
            0 => Stage::Waiting,
            1 => Stage::Loaded,
            _ => Stage::Gone(k),
        }
    }
}

impl From<Stage> for u8 {
    ghost from_gives = { λ s k. k ≡ code_of s };

    fn from(s: Stage) -> u8 {
        match s {
            Stage::Waiting => 0,
            Stage::Loaded => 1,
            Stage::Gone(k) => k,
        }
    }
}

// ---- where there is no message

// A function, as `no_state` is, since docs/PROMISES.md names both.
pub fn no_message() -> Message
    ensures { result ≡ no_message }
{
    Message::default()
}

pub fn no_state() -> MessageState
    ensures { result ≡ no_state }
{
    MessageState::default()
}

// ---- reading the layout

// A cell's number is a number with a `requires` and no type of its own: these functions ask no more than they asked (docs/PROMISES.md), and each call
// on any memory tests it.

// How many frames, messages and fields there are.
#[tactic(auto, unfolding(crate::specs::Node::layout_of))]
pub fn counts_of(node: &Node) -> Counts
    ensures { result ≡ counts_of (layout_of node.now) }
{
    Counts {
        frames: (node[0] as usize).min(32),
        messages: (node[1] as usize).min(32),
        fields: (node[2] as usize).min(128),
    }
}

// Whether the number is below a count of at most 32.
fn is_counted(number: u64, count: u8) -> bool
    ensures { result ≡ ltb number (min count 32) }
{
    (number < 32) & (number < count as u64)
}

// Whether there is a frame of that number.
#[tactic(auto, unfolding(crate::specs::Node::layout_of))]
pub fn has_frame(node: &Node, f: u64) -> bool
    ensures { result ≡ ltb f (frame_count (layout_of node.now)) }
{
    is_counted(f, node[0])
}

// Whether there is a message of that number.
#[tactic(auto, unfolding(crate::specs::Node::layout_of))]
pub fn has_message(node: &Node, m: u64) -> bool
    ensures { result ≡ ltb m (message_count (layout_of node.now)) }
{
    is_counted(m, node[1])
}

pub fn frame_at(node: &Node, f: usize) -> Frame
    requires { f < 32 }
    ensures { result ≡ frame_at (layout_of node.now) f }
{
    read_cell(node, FRAMES + f * 6)
}

pub fn message_at(node: &Node, m: usize) -> Message
    requires { m < 32 }
    ensures { result ≡ message_at (layout_of node.now) m }
{
    read_cell(node, MESSAGES + m * 16)
}

// What the layout says of a field.
pub fn laid_at(node: &Node, d: usize) -> record::Field
    requires { d < 128 }
    ensures { result ≡ laid_at (layout_of node.now) d }
{
    read_cell(node, FIELDS + d * 5)
}

// The number of the field at a place of the index.
pub fn listed_at(node: &Node, i: usize) -> u8
    requires { i < 128 }
    ensures { result ≡ listed_at (layout_of node.now) i }
{
    node[INDEX + i]
}

// ---- reading the state

// Whether a frame was delivered this round: any byte but 0. The byte and no truth value, since `same_memory` needs it back.
pub fn mark_at(node: &Node, f: usize) -> u8
    requires { f < 32 }
    ensures { result ≡ (delivery_at (state_of node.now) f).delivered }
{
    node[DELIVERIES + f * 33]
}

// How many of a frame's 32 bytes of room are data.
pub fn data_length(h: Frame) -> usize
    ensures { result ≡ min h.length 32 }
{
    (h.length as usize).min(32)
}

// The data of a frame, where they lie.
pub fn data_at(node: &Node, f: usize) -> &[u8]
    requires { f < 32 }
    ensures { result.now ≡ data_at (node_of node.now) f }
{
    let from = DELIVERIES + f * 33 + 1;
    let end = from + (node[FRAMES + f * 6] as usize).min(32);
    &node[from..end]
}

// The room that they lie in and the eight bytes behind it, so that eight bytes can be read from any byte of the data on.
pub fn room_at(node: &Node, f: usize) -> &[u8]
    requires { f < 32 }
    ensures { result.now ≡ room_of node.now f }
{
    let from = DELIVERIES + f * 33 + 1;
    let end = from + 40;
    &node[from..end]
}

pub fn state_at(node: &Node, m: usize) -> MessageState
    requires { m < 32 }
    ensures { result ≡ state_at (state_of node.now) m }
{
    read_cell(node, STATES + m * 6)
}

// A field with its stage.
pub fn field_at(node: &Node, d: usize) -> Field
    requires { d < 128 }
    ensures { result ≡ field_at (node_of node.now) d }
{
    Field {
        laid: laid_at(node, d),
        stage: node[STAGES + d].into(),
    }
}

// ---- writing the state

// Whether a frame was delivered this round: any byte, as `mark_at` answers it, and so `marked` takes it.
pub fn put_mark(node: &mut Node, f: usize, k: u8)
    requires { f < 32 }
    ensures { node_of node.new ≡ node_with (node_of node.old) (with_delivery (state_of node.old) f (marked k (delivery_at (state_of node.old) f))) }
{
    node[DELIVERIES + f * 33] = k;
}

// Not the library's `copy_from_slice`: where the length varies it calls memmove, and an archive needs no more of a C library than memset.
// And by number: of what a `zip` over `iter_mut` writes the library says nothing.
fn copy(to: &mut [u8], from: &[u8])
    requires { length from.now ≡ length to.old }
    ensures { to.new ≡ from.now }
{
    for (k, &byte) in from.iter().enumerate() {
        to[k] = byte;
    }
}

// A delivery's data over those of the frame.
pub fn put_data(node: &mut Node, f: usize, bytes: &[u8])
    requires { (f < 32) × (length bytes.now ≤ 32) }
    ensures { node_of node.new ≡ node_with (node_of node.old) (with_delivery (state_of node.old) f (filled (delivery_at (state_of node.old) f) bytes.now)) }
{
    let at = DELIVERIES + f * 33 + 1;
    let end = at + bytes.len();
    copy(&mut node[at..end], bytes);
}

// Not the library's `fill`: it writes the last byte apart, which takes each close twelve instructions more.
fn fill(c: &mut [u8], k: u8)
    ensures { c.new ≡ replicate (length c.old) k }
{
    for x in c {
        *x = k;
    }
}

// The first n frames' deliveries. Their data go too, so that of two nodes one cannot tell what an earlier round brought.
pub fn forget_deliveries(node: &mut Node, n: usize)
    requires { n ≤ 32 }
    ensures { node_of node.new ≡ node_with (node_of node.old) (with_deliveries (state_of node.old) (replicate n no_delivery ++ drop n (state_of node.old).deliveries)) }
{
    let end = DELIVERIES + n * 33;
    fill(&mut node[DELIVERIES..end], 0);
}

pub fn put_state(node: &mut Node, m: usize, s: MessageState)
    requires { m < 32 }
    ensures { node_of node.new ≡ node_with (node_of node.old) (with_state (state_of node.old) m s) }
{
    write_cell(node, STATES + m * 6, s);
}

pub fn put_stage(node: &mut Node, d: usize, s: Stage)
    requires { (d < 128) × (StoredStage s) }
    ensures { node_of node.new ≡ node_with (node_of node.old) (with_stage (state_of node.old) d s) }
{
    node[STAGES + d] = s.into();
}

// ---- writing the layout

// No frames, messages or fields, whatever the memory held.
pub fn clear(node: &mut Node)
    ensures { node_of node.new ≡ empty_node }
{
    fill(&mut node[..STAGES], 0);
    fill(&mut node[STAGES..], 2);
}

pub fn put_counts(node: &mut Node, frames: u8, messages: u8, fields: u8)
    ensures { node_of node.new ≡ record { layout = with_numbers (layout_of node.old) frames messages fields; state = state_of node.old } }
{
    node[0] = frames;
    node[1] = messages;
    node[2] = fields;
}

pub fn put_frame(node: &mut Node, f: usize, h: Frame)
    requires { f < 32 }
    ensures { node_of node.new ≡ record { layout = with_frame (layout_of node.old) f h; state = state_of node.old } }
{
    write_cell(node, FRAMES + f * 6, h);
}

pub fn put_message(node: &mut Node, m: usize, g: Message)
    requires { m < 32 }
    ensures { node_of node.new ≡ record { layout = with_message (layout_of node.old) m g; state = state_of node.old } }
{
    write_cell(node, MESSAGES + m * 16, g);
}

pub fn put_laid(node: &mut Node, d: usize, x: record::Field)
    requires { d < 128 }
    ensures { node_of node.new ≡ record { layout = with_laid (layout_of node.old) d x; state = state_of node.old } }
{
    write_cell(node, FIELDS + d * 5, x);
}

pub fn put_listed(node: &mut Node, i: usize, d: u8)
    requires { i < 128 }
    ensures { node_of node.new ≡ record { layout = with_listed (layout_of node.old) i d; state = state_of node.old } }
{
    node[INDEX + i] = d;
}
