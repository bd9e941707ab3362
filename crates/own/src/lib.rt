// Whose fields are whose: where a message's and a frame's fields are found, and which cells there are theirs, on memory of any content.
#![tactic(auto)]

ghost use Rattle.std.specs.Prelude.{◌≡◌, ◌<◌, ◌≤◌};
ghost use Rattle.std.specs.Iterator.{YieldsFirst, item_count};
ghost use Rattle.store.specs.Node.{layout_of, node_of};
ghost use Rattle.own.specs.Own.{InMemory, places_of, range_of, cell_at, Given, owns, stored_of};

use std::ops::Range;
use store::Node;

// Whose fields: a message's or a frame's. An enum and no trait, so that one loop serves both.
#[derive(Clone, Copy)]
pub enum Owner {
    Message(u8),
    Frame(u8),
}

// The places where an owner's fields are found: from .. end. A type of its own, since a `Range` is not Copy.
#[derive(Clone, Copy)]
pub struct Places {
    pub from: usize,
    pub end: usize,
}

impl IntoIterator for Places {
    type Item = usize;

    type IntoIter = Range<usize>;

    ghost into_iter_gives = { λ places range. range ≡ range_of places };

    fn into_iter(self) -> Range<usize> {
        self.from..self.end
    }
}

pub fn places_of(node: &Node, owner: Owner) -> Places
    requires { InMemory owner }
    ensures { (result ≡ places_of (layout_of node.now) owner) × (result.end ≤ 128) }
{
    match owner {
        Owner::Message(m) => {
            let g = store::message_at(node, m as usize);
            let from = g.first as usize;
            Places {
                from,
                end: (from + (g.fields as usize).min(8)).min(128),
            }
        }
        Owner::Frame(f) => {
            let h = store::frame_at(node, f as usize);
            let from = h.first as usize;
            Places {
                from,
                end: (from + h.fields as usize).min(128),
            }
        }
    }
}

// The cell that a place gives.
pub fn cell_at(node: &Node, owner: Owner, i: usize) -> usize
    requires { i < 128 }
    ensures { (result ≡ cell_at (layout_of node.now) owner i) × (Given owner result) }
{
    match owner {
        Owner::Message(_) => i,
        Owner::Frame(_) => store::listed_at(node, i) as usize,
    }
}

// Whether a cell that a place gives is the owner's.
#[tactic(auto, unfolding(crate::specs::Own::owns))]
pub fn owns(node: &Node, owner: Owner, d: usize) -> bool
    requires { Given owner d }
    ensures { result ≡ owns (layout_of node.now) owner d }
{
    match owner {
        Owner::Message(m) => store::laid_at(node, d).message == m,
        Owner::Frame(f) => d < 128 && store::laid_at(node, d).frame == f,
    }
}

// An owner's fields, in the order of its places.
#[derive(Drop)]
pub struct Fields<'a> {
    node: &'a Node,
    owner: Owner,
    places: Range<usize>,
    ghost few: { places.end ≤ 128 },
}

// `fields_left` is named in each impl and not at the top: it names the struct, whose ghost field names what the top does.
impl Owner {
    ghost use Rattle.own.specs.Ahead.{fields_left};

    // All that are the owner's, on memory of any content.
    pub fn fields<'a>(self, node: &'a Node) -> Fields<'a>
        requires { InMemory self }
        ensures { fields_left result ≡ stored_of (node_of node.now) self }
    {
        Fields {
            node,
            owner: self,
            places: places_of(node, self).into_iter(),
        }
    }
}

impl<'a> Iterator for Fields<'a> {
    ghost use Rattle.own.specs.Ahead.{fields_left};

    type Item = store::Field;

    ghost next_gives = { YieldsFirst fields_left };

    ghost remaining = { item_count fields_left };

    fn next(&mut self) -> Option<store::Field> {
        while let Some(i) = self.places.next() {
            let d = cell_at(self.node, self.owner, i);
            if owns(self.node, self.owner, d) {
                return Some(store::field_at(self.node, d));
            }
        }
        None
    }
}
