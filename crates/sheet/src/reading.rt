// Reading a finished sheet, whatever lies in its store.
ghost use Rattle.std.specs.Prelude.{◌≡◌, take, Decides, slice_index_or};
ghost use Rattle.sheet.specs.Entries.{no_entry};
ghost use Rattle.sheet.specs.Sheets.{filed_finished, Lies};

use crate::{EntrySlot, Finished};
use terms::entry::Kind;
use terms::line::Line;

impl<'a> Finished<'a> {
    // The slots of the entries that lie in the store.
    pub fn entries(&self) -> &[EntrySlot]
        ensures { result.now ≡ take self.now.used self.now.entries.now }
    {
        let used = self.used.min(self.entries.len());
        &self.entries[..used]
    }

    // How many entries the sheet has, in the store or past it.
    pub fn used(&self) -> usize
        ensures { result ≡ self.now.used }
    {
        self.used
    }

    pub fn kind(&self) -> Kind
        ensures { result ≡ self.now.kind }
    {
        self.kind
    }

    pub fn root(&self) -> usize
        ensures { result ≡ self.now.root }
    {
        self.root
    }

    // The lines of an entry that lie in the store; none past the entries.
    pub fn label(&self, number: usize) -> &[Line]
        ensures { result.now ≡ (slice_index_or (filed_finished self.now) number no_entry).label }
    {
        self.entries()
            .get(number)
            .map_or(&[], |entry| entry.label_in(self.lines))
    }

    // Whether an entry and all its lines lie in the store.
    pub fn lies(&self, number: usize) -> bool
        ensures { Decides result (Lies self.now number) }
    {
        let room = self.lines.len();
        self.entries()
            .get(number)
            .is_some_and(|entry| entry.ends_within(room))
    }
}
