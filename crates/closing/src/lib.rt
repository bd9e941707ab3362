// The closing of a round: each received message by itself, then the round's deliveries are forgotten.
#![tactic(auto)]

ghost use Rattle.std.specs.Prelude.{◌≡◌, [], ◌<◌};
ghost use Rattle.store.specs.Node.{state_of, node_of, state_at, with_state, node_with};
ghost use Rattle.closing.specs.Closing.{came, status_set, value_in, instances, none_came, closed_state, close_messages, close_of};

use arrayvec::ArrayVec;
use own::Owner;
use record::Field;
use store::{Message, Node};

// On any memory a field may name a frame that the memory has not: none came.
fn did_come(node: &Node, x: Field) -> bool
    ensures { result ≡ came (state_of node.now) x }
{
    x.frame < 32 && store::mark_at(node, x.frame as usize) != 0
}

fn is_status_set(node: &Node, x: Field) -> bool
    requires { x.frame < 32 }
    ensures { result ≡ status_set (node_of node.now) x }
{
    if x.status != 1 {
        return true;
    }
    let f = x.frame as usize;
    let h = store::frame_at(node, f);
    packing::unpack(store::data_at(node, f), h.is_big(), x.place, 1) == 1
}

fn value_in(node: &Node, g: Message, x: Field) -> i64
    requires { x.frame < 32 }
    ensures { result ≡ value_in (node_of node.now) g x }
{
    let f = x.frame as usize;
    let h = store::frame_at(node, f);
    let n = store::data_length(h);
    let pattern = packing::unpack_in(store::room_at(node, f), n, h.is_big(), x.start, g.width);
    packing::value_of(pattern, g.width, g.is_signed())
}

// The values of a message's counting instances are pushed, in frame order; a message has at most eight fields. Whether none of its frames came.
// The list is lent, so that it is not copied.
fn gather(node: &Node, message: u8, values: &mut ArrayVec<i64, 8>) -> bool
    requires { (message < 32) × (values.old.items ≡ []) }
    ensures { (values.new.items ≡ instances (node_of node.now) message) × (result ≡ none_came (node_of node.now) message) }
{
    let g = store::message_at(node, message as usize);
    let mut none = true;
    // By place and not by `fields`, which reads each stage too: a closing would take a fifth longer. And by no step over the places, as in node `move_fields`.
    let owner = Owner::Message(message);
    for i in own::places_of(node, owner) {
        let d = own::cell_at(node, owner, i);
        if own::owns(node, owner, d) {
            let x = store::laid_at(node, d);
            if did_come(node, x) {
                none = false;
                if is_status_set(node, x) {
                    values.push(value_in(node, g, x));
                }
            }
        }
    }
    none
}

// One message after the round. What the layout says of it and its state are read when the fields are through, so that they need not be kept meanwhile.
fn close_message(node: &mut Node, m: usize)
    requires { m < 32 }
    ensures { node_of node.new ≡ node_with (node_of node.old) (with_state (state_of node.old) m (closed_state (node_of node.old) m (state_at (state_of node.old) m))) }
{
    let mut values = ArrayVec::new();
    let none = gather(node, m as u8, &mut values);
    let g = store::message_at(node, m);
    let s = store::state_at(node, m);
    let t = message::settled_state(g, s, none, values.as_slice());
    store::put_state(node, m, t);
}

fn close_messages(node: &mut Node)
    ensures { node_of node.new ≡ node_with (node_of node.old) (close_messages (node_of node.old)) }
{
    let messages = store::counts_of(node).messages;
    // By number: each turn writes the node.
    for m in 0..messages {
        if !store::message_at(node, m).is_sent() {
            close_message(node, m);
        }
    }
}

pub fn close_round(node: &mut Node)
    ensures { node_of node.new ≡ node_with (node_of node.old) (close_of (node_of node.old)) }
{
    close_messages(node);
    let frames = store::counts_of(node).frames;
    store::forget_deliveries(node, frames);
}
