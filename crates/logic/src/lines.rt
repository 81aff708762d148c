// What can be told of one line or two: sides, order, range, clashes; and the lines of a question.
ghost use Rattle.std.specs.Prelude.{◌≡◌, ◌<◌, ◌≤◌, Some, None, Decides};
ghost use Rattle.logic.specs.Lines.{other, half_line, Covers};
ghost use Rattle.logic.specs.Clashes.{Beyond, Crosses};
ghost use Rattle.logic.specs.Entries.{Before, InRange};

use crate::claim::Claim;
use terms::line::{Line, Side};
use terms::question::QuestionLine;

// The greatest fineness that a book can have, and so the greatest degree that a question can ask for.
const GREATEST_FINENESS: u32 = 1000;

pub fn other(side: Side) -> Side
    ensures { result ≡ other side }
{
    match side {
        Side::AtLeast => Side::AtMost,
        Side::AtMost => Side::AtLeast,
    }
}

// The line of a question in half steps; none if its degree is above every fineness.
pub fn half_line(asked: QuestionLine) -> Option<Line>
    ensures { elim result [ Some l ↦ (asked.degree ≤ 1000) × (l ≡ half_line asked) | None ↦ 1000 < asked.degree ] }
{
    if asked.degree > GREATEST_FINENESS {
        return None;
    }
    Line::try_from(Claim::from(asked)).ok()
}

// Whether a label may have the line's bound: -1 to 4,000.
pub fn in_range(l: Line) -> bool
    ensures { Decides result (InRange l.bound) }
{
    !l.is_out_of_range()
}

// Whether the line l stands before m in a label.
pub fn before(l: Line, m: Line) -> bool
    ensures { Decides result (Before l m) }
{
    l < m
}

// Whether the line m is on the same concept and side as l, and at least as strong.
pub fn covers(m: Line, l: Line) -> bool
    ensures { Decides result (Covers m l) }
{
    m.concept == l.concept && m.side == l.side && Claim::from(l).is_met_by(m)
}

// Whether the line clashes by its range: no degree of a book of the fineness keeps it.
pub fn beyond(fineness: u32, l: Line) -> bool
    ensures { Decides result (Beyond fineness l.side l.bound) }
{
    match l.side {
        Side::AtLeast => 2 * (fineness as i64) < l.bound as i64,
        Side::AtMost => l.bound < 0,
    }
}

// Whether the lines l and m, at least and at most, leave no degree between them.
pub fn crosses(l: Line, m: Line) -> bool
    ensures { Decides result (Crosses l m) }
{
    l.concept == m.concept && l.side == Side::AtLeast && m.side == Side::AtMost && m.bound < l.bound
}
