// Entering the lines of an entry that is begun, and filing or striking it.
ghost use Rattle.std.specs.Prelude.{◌≡◌, slice_set};
ghost use Rattle.sheet.specs.Calls.{LineAnswer, EntryFiled, EntryStruck, slot_of};

use crate::{Begun, EntrySlot, Sheet};
use terms::line::Line;
use terms::refusal::{Refusal, Refused};

// The highest number that a concept may have.
const LAST_CONCEPT: usize = 127;

// Puts an entry into a slot, if there is that slot.
fn put(entries: &mut [EntrySlot], number: usize, entry: EntrySlot)
    ensures { entries.new ≡ slice_set entries.old number entry }
{
    if number < entries.len() {
        entries[number] = entry;
    }
}

impl<'a> Begun<'a> {
    // The entry as it is to lie in the store.
    fn slot(&self) -> EntrySlot
        ensures { result ≡ slot_of self.now }
    {
        EntrySlot {
            head: self.head,
            start: self.from,
            count: self.count,
        }
    }

    // Enters a line behind the others of the label; returns its number there.
    pub fn line(&mut self, line: Line) -> Result<usize, Refused>
        ensures { LineAnswer self.old line result self.new }
    {
        if line.concept > LAST_CONCEPT {
            return Err(Refusal::Missing.into());
        }
        let slot = self.slot();
        let room = self.lines.len();
        if slot.end_within(room) >= room {
            return Err(Refusal::NoRoom.into());
        }
        let number = slot.enter_in(self.lines, line).ok_or(Refusal::OutOfOrder)?;
        self.count += 1;
        Ok(number)
    }

    // Files the entry with its lines.
    pub fn file(self) -> Sheet<'a>
        ensures { EntryFiled self.entry result }
    {
        let slot = self.slot();
        let Begun {
            entries,
            lines,
            used,
            head: _,
            from: _,
            count: _,
        } = self;
        put(entries, used, slot);
        let used = used.saturating_add(1).min(entries.len());
        let written = slot.end_within(lines.len());
        Sheet {
            entries,
            lines,
            used,
            written,
        }
    }

    // Strikes the entry, and makes the slots of its lines zero again.
    pub fn strike(self) -> Sheet<'a>
        ensures { EntryStruck self.entry result }
    {
        let slot = self.slot();
        let Begun {
            entries,
            lines,
            used,
            head: _,
            from,
            count: _,
        } = self;
        slot.wipe_in(lines);
        Sheet {
            entries,
            lines,
            used,
            written: from,
        }
    }
}
