// The slots of a store: an entry's lines, and slots at zero.
ghost use Rattle.std.specs.Prelude.{◌≡◌, ◌+◌, ◌<◌, ◌≤◌, length, Decides};
ghost use Rattle.terms.specs.Lines.{zero_line};
ghost use Rattle.sheet.specs.Entries.{end_in, part, wiped};
ghost use Rattle.sheet.specs.Labels.{Appended, LineEnteredIn};

use crate::EntrySlot;
use row::{Row, Unplaced};
use terms::line::Line;

// Puts a line behind the row of the first slots, if it is above the last there.
// A function of its own: what a row leaves of a part of a slice is known only where that part is a parameter.
fn append_to_first(slots: &mut [Line], count: usize, line: Line) -> Result<usize, Unplaced>
    requires { count ≤ length slots.old }
    ensures { Appended line 0 count slots.old slots.new result }
{
    let mut row = Row::over(slots, count);
    row.append(line)
}

impl EntrySlot {
    // Where its lines end, in a store of `room` line slots.
    pub(crate) fn end_within(self, room: usize) -> usize
        ensures { result ≡ end_in room self }
    {
        self.start.saturating_add(self.count).min(room)
    }

    // Whether its lines end within so many slots.
    pub(crate) fn ends_within(self, room: usize) -> bool
        ensures { Decides result (self.start + self.count ≤ room) }
    {
        self.start
            .checked_add(self.count)
            .is_some_and(|end| end <= room)
    }

    // Its lines, as far as the store has them.
    pub(crate) fn label_in(self, lines: &[Line]) -> &[Line]
        ensures { result.now ≡ part self.start self.count lines.now }
    {
        let rest = lines.get(self.start..).unwrap_or(&[]);
        rest.get(..self.count).unwrap_or(rest)
    }

    // Puts a line behind its lines, if its bound is what it may be and it is above the last of them.
    pub(crate) fn enter_in(self, lines: &mut [Line], line: Line) -> Option<usize>
        requires { self.start + self.count < length lines.old }
        ensures { LineEnteredIn line self.start self.count lines.old lines.new result }
    {
        if line.is_out_of_range() {
            return None;
        }
        append_to_first(&mut lines[self.start..], self.count, line).ok()
    }

    // Makes the slots of its lines zero again, as far as the store has them.
    pub(crate) fn wipe_in(self, lines: &mut [Line])
        ensures { lines.new ≡ wiped zero_line lines.old self.start self.count }
    {
        let room = lines.len();
        let from = self.start.min(room);
        let end = self.end_within(room);
        lines[from..end].fill(Line::default());
    }
}
