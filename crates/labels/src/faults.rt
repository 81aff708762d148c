// Faults of a label besides its order: bounds out of range, concepts that do not stand.
ghost use Rattle.std.specs.Prelude.{Decides};
ghost use Rattle.logic.specs.Books.{StandsIn};
ghost use Rattle.logic.specs.Lines.{EachLine};
ghost use Rattle.logic.specs.Entries.{InRange};
ghost use Rattle.labels.specs.Ruled.{ruled};
ghost use Rattle.labels.specs.Labelled.{labelled};

use crate::label::Label;
use crate::rules::Rules;
use logic::lines::in_range;
use terms::line::Line;

impl<'a> Label<'a> {
    // Whether every line's bound is -1 to 4,000.
    pub fn bounds_in_range(&self) -> bool
        ensures { Decides result (EachLine (λ l. InRange l.bound) (labelled self.now)) }
    {
        self.lines().iter().all(|l| in_range(*l))
    }
}

impl<'a> Rules<'a> {
    // Whether every line's concept stands in the book.
    pub fn concepts_stand(&self, lines: &[Line]) -> bool
        ensures { Decides result (EachLine (λ l. StandsIn (ruled self.now) l.concept) lines.now) }
    {
        lines.iter().all(|l| self.stands(l.concept))
    }
}
