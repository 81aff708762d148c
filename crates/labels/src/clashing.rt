// Clashes in a label.
ghost use Rattle.std.specs.Prelude.{Decides};
ghost use Rattle.logic.specs.Lines.{AnyLine};
ghost use Rattle.logic.specs.Clashes.{Broken, Crosses, Clashing, Clashes};
ghost use Rattle.labels.specs.Ruled.{ruled};
ghost use Rattle.labels.specs.Labelled.{labelled};

use crate::label::Label;
use crate::ruled::Ruled;
use logic::lines::beyond;
use terms::concept::Concept;
use terms::line::{Line, Side};

// Whether the line clashes with the degree of a constant.
fn broken(form: Concept, l: Line) -> bool
    ensures { Decides result (Broken form l.side l.bound) }
{
    match (form, l.side) {
        (Concept::Constant(k), Side::AtLeast) => 2 * (k as i64) < l.bound as i64,
        (Concept::Constant(k), Side::AtMost) => (l.bound as i64) < 2 * (k as i64),
        _ => false,
    }
}

impl<'a> Label<'a> {
    // Whether the line, an at-least line, clashes with an at-most line of the label.
    fn crosses(&self, l: Line) -> bool
        ensures { Decides result (AnyLine (Crosses l) (labelled self.now)) }
    {
        l.side == Side::AtLeast
            && self
                .strongest(l.concept, Side::AtMost)
                .is_some_and(|m| m.bound < l.bound)
    }
}

impl<'a> Ruled<'a> {
    // Whether the line clashes, by itself or with another of the label.
    fn clashing(&self, l: Line) -> bool
        ensures { Decides result (Clashing (ruled self.now.rules.now) (labelled self.now.label.now) l) }
    {
        beyond(self.rules.fineness(), l)
            || broken(self.rules.concept(l.concept), l)
            || self.label.crosses(l)
    }

    // Whether a line of the label clashes.
    pub fn clashes(&self) -> bool
        ensures { Decides result (Clashes (ruled self.now.rules.now) (labelled self.now.label.now)) }
    {
        self.label.lines().iter().any(|l| self.clashing(*l))
    }
}
