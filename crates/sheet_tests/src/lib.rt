// What callers learn from the contracts of `sheet`, and tests of its calls.
// The functions here have no proof of their own: a caller that lends a store, or that is handed a sheet and only ends it, writes none.
#![tactic(auto)]

ghost use Rattle.std.specs.Prelude.{◌≡◌, ◌+◌, length, replicate};
ghost use Rattle.terms.specs.Lines.{zero_line};
ghost use Rattle.sheet.specs.Entries.{zero_slot};
ghost use Rattle.sheet.specs.Sheets.{filed, filed_beside, Sound, SoundBegun};

use sheet::{Begun, EntrySlot, NotTaken, Sheet};
use terms::entry::Kind;
use terms::line::Line;

// The owner of a store in which a blank sheet was begun finds every slot zero.
pub fn blank_store(entries: &mut [EntrySlot], lines: &mut [Line])
    ensures slots { entries.new ≡ replicate (length entries.old) zero_slot }
    ensures lines { lines.new ≡ replicate (length lines.old) zero_line }
{
    let _sheet = Sheet::blank(entries, lines);
}

// How many entries a sheet has once it is finished, or where it has none and is refused: as many as were filed.
pub fn finished_count(sheet: Sheet<'_>, kind: Kind) -> usize
    ensures { Sound sheet.entry → result ≡ length (filed sheet.entry) }
{
    match sheet.finish(kind, 0) {
        Ok(finished) => finished.used(),
        Err(_) => 0,
    }
}

// How many it has when it is reopened: as many again.
pub fn reopened_count(sheet: Sheet<'_>, kind: Kind) -> usize
    ensures { result ≡ length (filed sheet.entry) }
{
    match sheet.finish(kind, 0) {
        Ok(finished) => finished.reopen().used(),
        Err(_) => 0,
    }
}

// How many are filed when the entry begun is filed: one more.
pub fn filed_count(begun: Begun<'_>) -> usize
    ensures { SoundBegun begun.entry → result ≡ length (filed_beside begun.entry) + 1 }
{
    begun.file().used()
}

// How many are filed when it is struck: as many.
pub fn struck_count(begun: Begun<'_>) -> usize
    ensures { SoundBegun begun.entry → result ≡ length (filed_beside begun.entry) }
{
    begun.strike().used()
}

// The slots of a store that was not taken over.
pub fn slot_count(not_taken: NotTaken<'_>) -> usize
    ensures { result ≡ length not_taken.entry.entries.now }
{
    not_taken.entries.len()
}

#[cfg(test)]
mod tests;
