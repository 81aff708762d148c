// Finishing a sheet, reopening it, and taking over a store as a finished sheet.
ghost use Rattle.std.specs.Prelude.{◌≡◌};
ghost use Rattle.sheet.specs.Entries.{last_end};
ghost use Rattle.sheet.specs.Calls.{FinishAnswer, ReopenedFrom, TakeAnswer};

use crate::keeping::MOST_ENTRIES;
use crate::{EntrySlot, Finished, NotTaken, Sheet, Unchanged};
use terms::entry::Kind;
use terms::line::Line;
use terms::refusal::Refusal;

// Where the lines of the entries end, in a store of `room` line slots.
fn furthest_end(entries: &[EntrySlot], room: usize) -> usize
    ensures { result ≡ last_end room entries.now }
{
    entries
        .iter()
        .fold(0, |furthest, entry| entry.end_within(room).max(furthest))
}

impl<'a> Sheet<'a> {
    // Finishes the sheet: names its kind, and its root.
    pub fn finish(self, kind: Kind, root: usize) -> Result<Finished<'a>, Unchanged<Sheet<'a>>>
        ensures { FinishAnswer self.entry kind root result }
    {
        if root >= self.used() {
            return Err(Unchanged {
                value: self,
                refused: Refusal::BadRoot.into(),
            });
        }
        Ok(Finished {
            entries: self.entries,
            lines: self.lines,
            used: self.used,
            kind,
            root,
        })
    }
}

impl<'a> Finished<'a> {
    // Takes over a store as it lies, whatever is in it, as a finished sheet of so many entries.
    pub fn over(
        entries: &'a mut [EntrySlot],
        lines: &'a mut [Line],
        used: usize,
        kind: Kind,
        root: usize,
    ) -> Result<Finished<'a>, NotTaken<'a>>
        ensures { TakeAnswer (record { entries = entries.entry; lines = lines.entry; used = used; kind = kind; root = root }) result }
    {
        if used > MOST_ENTRIES {
            return Err(NotTaken {
                entries,
                lines,
                refused: Refusal::NoRoom.into(),
            });
        }
        Ok(Finished {
            entries,
            lines,
            used,
            kind,
            root,
        })
    }

    // Lets the sheet take entries again. Its slots stay as they lie. What was counted past the store is no entry.
    // Lines go where no entry has any: after the furthest end of the entries' lines; where one passes the store, there is no line slot left.
    pub fn reopen(self) -> Sheet<'a>
        ensures { ReopenedFrom self.entry result }
    {
        let used = self.entries().len();
        let written = furthest_end(self.entries(), self.lines.len());
        Sheet {
            entries: self.entries,
            lines: self.lines,
            used,
            written,
        }
    }
}
