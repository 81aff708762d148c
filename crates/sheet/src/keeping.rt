// Beginning a sheet blank, and beginning an entry.
ghost use Rattle.std.specs.Prelude.{◌≡◌, length, Decides};
ghost use Rattle.terms.specs.Answers.{Answered};
ghost use Rattle.sheet.specs.Sheets.{filed};
ghost use Rattle.sheet.specs.Grounds.{Ground, NumberAbove};
ghost use Rattle.sheet.specs.Calls.{Blank, beginning, BeginAnswer};

use crate::{Begun, EntrySlot, Sheet, Unchanged};
use terms::entry::Head;
use terms::line::Line;
use terms::refusal::Refusal;

// The most that a number of a head may be.
const MOST_NUMBER: usize = 2000;

// The most entries of a sheet.
pub(crate) const MOST_ENTRIES: usize = 1024;

// Whether a number of the head is above the most.
fn has_number_above(head: Head) -> bool
    ensures { Decides result (NumberAbove head) }
{
    let numbers = [
        head.place,
        head.first,
        head.second,
        head.inclusion,
        head.step,
    ];
    numbers.iter().any(|n| *n > MOST_NUMBER)
}

impl<'a> Sheet<'a> {
    // A sheet without entries, in a store whose slots are all made zero.
    pub fn blank(entries: &'a mut [EntrySlot], lines: &'a mut [Line]) -> Sheet<'a>
        ensures blank { Blank entries.old lines.old result }
        ensures lent { (result.entries.ghost_name ≡ entries.entry.ghost_name) × (result.lines.ghost_name ≡ lines.entry.ghost_name) }
    {
        entries.fill(EntrySlot::default());
        lines.fill(Line::default());
        Sheet {
            entries,
            lines,
            used: 0,
            written: 0,
        }
    }

    // How many entries are filed.
    pub fn used(&self) -> usize
        ensures { result ≡ length (filed self.now) }
    {
        self.used.min(self.entries.len())
    }

    fn may_begin(&self, head: Head) -> Result<(), Refusal>
        ensures { Answered (Ground (beginning self.now head)) result }
    {
        if has_number_above(head) {
            return Err(Refusal::Missing);
        }
        let n = self.used();
        if n >= MOST_ENTRIES || n >= self.entries.len() {
            return Err(Refusal::NoRoom);
        }
        Ok(())
    }

    // Begins an entry, which is then to be filed or struck.
    pub fn begin(self, head: Head) -> Result<Begun<'a>, Unchanged<Sheet<'a>>>
        ensures { BeginAnswer self.entry head result }
    {
        // (Without `?`, which would let the sheet go that a refusal gives back.)
        match self.may_begin(head) {
            Ok(()) => Ok(Begun {
                entries: self.entries,
                lines: self.lines,
                used: self.used,
                head,
                from: self.written,
                count: 0,
            }),
            Err(refusal) => Err(Unchanged {
                value: self,
                refused: refusal.into(),
            }),
        }
    }
}
