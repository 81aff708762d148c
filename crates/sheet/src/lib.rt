// Sheets (tableaux): entries with labels, kept in a store that the caller lends. A sheet is in one of three states:
// `Sheet` takes entries, `Begun` has one entry begun that is to be filed or struck, `Finished` has its kind and root.
#![tactic(auto)]

use terms::entry::{Head, Kind};
use terms::line::Line;

mod entering;
mod finishing;
mod keeping;
mod not_taken;
mod reading;
mod slots;
mod unchanged;

pub use not_taken::NotTaken;
pub use unchanged::Unchanged;

// An entry (a node of the tableau) as it lies in the store: its label is `count` lines of the store from `start` on. (Numbers and no slice, since it lies in the store beside the lines, and any numbers may be taken over.)
#[derive(Clone, Copy, PartialEq, Eq, Debug, Default)]
pub struct EntrySlot {
    pub head: Head,
    pub start: usize,
    pub count: usize,
}

// A sheet that takes entries: `used` of them are filed, and line slots from `written` on are free.
// Its slots are slices that the caller lends, with counts beside them: sheets take no memory of their own, and any store may be taken over as it lies.
// In each state the two slices stand in the struct itself, which has no ghost field (what holds of the counts, `Sound` says): Rattle proves a function that is handed a sheet and only ends it, or that learns what a sheet leaves in its slots, in this form alone.
#[derive(Debug, Drop)]
pub struct Sheet<'a> {
    entries: &'a mut [EntrySlot],
    lines: &'a mut [Line],
    used: usize,
    written: usize,
}

// A sheet with an entry begun: its label is `count` lines from `from` on. It cannot be let go: file the entry or strike it.
#[derive(Debug)]
pub struct Begun<'a> {
    entries: &'a mut [EntrySlot],
    lines: &'a mut [Line],
    used: usize,
    head: Head,
    from: usize,
    count: usize,
}

// A sheet that is finished: it takes no entries until it is reopened. It may be any store taken over, whatever lies in it; its slots are lent, as a sheet's are.
#[derive(Debug, Drop)]
pub struct Finished<'a> {
    entries: &'a mut [EntrySlot],
    lines: &'a mut [Line],
    used: usize,
    kind: Kind,
    root: usize,
}
