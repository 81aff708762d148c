// M: by a line on 'the lesser of c and d'.
ghost use Rattle.std.specs.Prelude.{Decides};
ghost use Rattle.logic.specs.Books.{concept_at};
ghost use Rattle.logic.specs.Closing.{Splits, LesserAtMost, LesserRule};
ghost use Rattle.labels.specs.Ruled.{ruled};
ghost use Rattle.labels.specs.Labelled.{labelled};

use crate::entry::ClosingEntry;
use logic::claim::Claim;
use terms::concept::Concept;
use terms::line::{Line, Side};

impl<'a> ClosingEntry<'a> {
    // Of the line l on 'the lesser of c and d at most z', whether the first child adds 'c at most z' and the second 'd at most z'.
    fn splits(&self, l: Line) -> bool
        ensures { Decides result (Splits (concept_at (ruled self.now.ruled.rules.now) l.concept) l.bound (labelled self.now.ruled.label.now) self.now.first.now self.now.second.now) }
    {
        let bound = l.bound as i64;
        let label = self.ruled.label;
        match self.ruled.rules.concept(l.concept) {
            Concept::Lesser(c, d) => {
                label.adds(Claim::at_most(c, bound), self.first)
                    && label.adds(Claim::at_most(d, bound), self.second)
            }
            _ => false,
        }
    }

    // At most: whether two children divide the line at the place.
    pub fn lesser_at_most(&self) -> bool
        ensures { Decides result (LesserAtMost (ruled self.now.ruled.rules.now) self.now.number self.now.head (labelled self.now.ruled.label.now) self.now.first.now self.now.second.now) }
    {
        let Some(line) = self.line_at_place() else {
            return false;
        };
        self.two_children() && self.no_inclusion() && self.splits(line)
    }

    // M: whether one child adds both conclusions of an at-least line, or two children divide an at-most line.
    pub fn lesser_rule(&self) -> bool
        ensures { Decides result (LesserRule (ruled self.now.ruled.rules.now) self.now.number self.now.head (labelled self.now.ruled.label.now) self.now.first.now self.now.second.now) }
    {
        let Some(line) = self.line_at_place() else {
            return false;
        };
        match line.side {
            Side::AtLeast => self.lesser_at_least(),
            Side::AtMost => self.lesser_at_most(),
        }
    }
}
