// Lines that rise, among which a line is found by binary search.
ghost use Rattle.std.specs.Prelude.{◌≡◌, length, Decides, MatchOption};
ghost use Rattle.logic.specs.Lines.{HasLine};
ghost use Rattle.logic.specs.Entries.{Rises};
ghost use Rattle.labels.specs.Rising.{Rises-prop};
ghost use Rattle.labels.specs.Lookup.{LineOn, StrongestLine, Lower, Parted};

use row::search;
use terms::line::{Line, Side};

// Whether each line stands before the next.
fn rises(lines: &[Line]) -> bool
    ensures { Decides result (Rises lines.now) }
{
    lines.is_sorted_by(|l, m| l < m)
}

// Lines of which each stands before the next.
#[derive(Clone, Copy)]
pub(crate) struct Rising<'a> {
    lines: &'a [Line],
    ghost up: { Rises lines.now } by { Rises-prop lines.now },
}

// The line at the place, if there is one and it is on the concept and the side.
fn line_on(lines: &[Line], place: usize, concept: usize, side: Side) -> Option<Line>
    ensures { LineOn lines.now place concept side result }
{
    lines
        .get(place)
        .copied()
        .filter(|m| m.concept == concept && m.side == side)
}

impl<'a> Rising<'a> {
    // The lines, if they rise.
    pub(crate) fn new(lines: &'a [Line]) -> Option<Rising<'a>>
        ensures { MatchOption result (¬ Rises lines.now) (λ r. (r.lines.now ≡ lines.now) × Rises lines.now) }
    {
        if rises(lines) {
            Some(Rising { lines })
        } else {
            None
        }
    }

    pub(crate) fn lines(&self) -> &'a [Line]
        ensures { result.now ≡ self.now.lines.now }
    {
        self.lines
    }

    // Whether the line is one of them.
    pub(crate) fn has(&self, l: Line) -> bool
        ensures { Decides result (HasLine self.now.lines.now l) }
    {
        search(self.lines, &l).is_ok()
    }

    // How many lines stand before the concept's at-most lines.
    fn turn(&self, concept: usize) -> usize
        ensures { Parted (Lower concept) self.now.lines.now result }
    {
        self.lines
            .partition_point(|m| (m.concept, m.side) <= (concept, Side::AtLeast))
    }

    // The strongest line on a concept and a side: the last at-least line before the turn, the first at-most line from there on.
    pub(crate) fn strongest(&self, concept: usize, side: Side) -> Option<Line>
        ensures { StrongestLine self.now.lines.now (length self.now.lines.now) concept side result }
    {
        let turn = self.turn(concept);
        match side {
            Side::AtLeast => line_on(self.lines, turn.checked_sub(1)?, concept, side),
            Side::AtMost => line_on(self.lines, turn, concept, side),
        }
    }
}
