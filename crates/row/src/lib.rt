// Rows of elements in strict order (sorted arrays without equal elements), over slices that are lent. The order is one whose laws the element type shows.
#![tactic(auto)]

ghost use Rattle.std.specs.Prelude.{◌≤◌, length};

mod lookup;
mod order;
mod placing;
mod reading;

pub use lookup::search;
pub use order::Ordered;

// Why an element was not placed.
#[derive(Clone, Copy, PartialEq, Eq, Debug)]
pub enum Unplaced {
    // One that equals it stands there.
    There(usize),
    // Every slot is taken.
    Full,
    // It is not above the last element.
    NotAbove,
}

// An ordered row: the first len slots of a lent slice, each below the next.
// That they are in order is the owner's to keep, since the type knows no order of T. The count stands beside the slice, since the slots are lent and take no memory here.
#[derive(Drop)]
pub struct Row<'a, T> {
    slots: &'a mut [T],
    len: usize,
    ghost within: { len ≤ length slots.now },
}

#[cfg(test)]
mod tests;
