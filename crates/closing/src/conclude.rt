// N, S and, at least, M: one child adds the conclusions of a line.
ghost use Rattle.std.specs.Prelude.{Decides};
ghost use Rattle.logic.specs.Closing.{Concludes, IsLesser, NotRule, LessRule};
ghost use Rattle.labels.specs.Ruled.{ruled};
ghost use Rattle.labels.specs.Labelled.{labelled};

use crate::entry::ClosingEntry;
use crate::forms::{is_less, is_lesser, is_not};

impl<'a> ClosingEntry<'a> {
    // Whether a line stands at the place, and the one child adds its conclusions, whatever the form of its concept.
    fn concludes(&self) -> bool
        ensures { Decides result (Concludes (λ _. Unit {0}) (ruled self.now.ruled.rules.now) self.now.number self.now.head (labelled self.now.ruled.label.now) self.now.first.now) }
    {
        let Some(line) = self.line_at_place() else {
            return false;
        };
        self.one_child() && self.no_inclusion() && self.ruled.adds_conclusions(line, self.first)
    }

    // N: whether the one child adds the conclusion of a line on 'not c'.
    pub fn not_rule(&self) -> bool
        ensures { Decides result (NotRule (ruled self.now.ruled.rules.now) self.now.number self.now.head (labelled self.now.ruled.label.now) self.now.first.now) }
    {
        self.form_at_place().is_some_and(is_not) && self.concludes()
    }

    // S: whether the one child adds the conclusion of a line on 'c less k'.
    pub fn less_rule(&self) -> bool
        ensures { Decides result (LessRule (ruled self.now.ruled.rules.now) self.now.number self.now.head (labelled self.now.ruled.label.now) self.now.first.now) }
    {
        self.form_at_place().is_some_and(is_less) && self.concludes()
    }

    // M, at least: whether the one child adds both conclusions of a line on 'the lesser of c and d'.
    pub fn lesser_at_least(&self) -> bool
        ensures { Decides result (Concludes IsLesser (ruled self.now.ruled.rules.now) self.now.number self.now.head (labelled self.now.ruled.label.now) self.now.first.now) }
    {
        self.form_at_place().is_some_and(is_lesser) && self.concludes()
    }
}
