// Inclusions in a label of a standing sheet.
ghost use Rattle.std.specs.Prelude.{◌≡◌, Decides};
ghost use Rattle.logic.specs.Books.{EachInclusion};
ghost use Rattle.logic.specs.Standing.{SmallestAtMost, GreatestAtLeast, LiesUnder, KeepsInclusion};
ghost use Rattle.labels.specs.Ruled.{ruled};
ghost use Rattle.labels.specs.Labelled.{labelled};

use crate::label::Label;
use crate::ruled::Ruled;
use terms::concept::Inclusion;
use terms::line::Side;

impl<'a> Label<'a> {
    // The greatest at-least bound on the concept, or 0.
    pub fn greatest_at_least(&self, c: usize) -> i64
        ensures { GreatestAtLeast (labelled self.now) c result }
    {
        self.strongest(c, Side::AtLeast)
            .map_or(0, |m| (m.bound as i64).max(0))
    }
}

impl<'a> Ruled<'a> {
    // The smallest at-most bound on the concept, or twice the fineness.
    pub fn smallest_at_most(&self, c: usize) -> i64
        ensures { SmallestAtMost (ruled self.now.rules.now).fineness (labelled self.now.label.now) c result }
    {
        let most = 2 * (self.rules.fineness() as i64);
        match self.label.strongest(c, Side::AtMost) {
            Some(m) if (m.bound as i64) < most => m.bound as i64,
            _ => most,
        }
    }

    fn lies_under(&self, i: Inclusion) -> bool
        ensures { Decides result (LiesUnder (ruled self.now.rules.now).fineness (labelled self.now.label.now) i) }
    {
        self.smallest_at_most(i.lower) <= self.label.greatest_at_least(i.upper)
    }

    // Whether the label keeps the inclusion, or that is struck.
    pub fn keeps_inclusion(&self, i: Inclusion) -> bool
        ensures { Decides result (KeepsInclusion (ruled self.now.rules.now).fineness (labelled self.now.label.now) i) }
    {
        i.struck || self.lies_under(i)
    }

    // Whether the label keeps each inclusion of the book that is not struck.
    pub fn keeps_inclusions(&self) -> bool
        ensures { Decides result (EachInclusion (KeepsInclusion (ruled self.now.rules.now).fineness (labelled self.now.label.now)) (ruled self.now.rules.now)) }
    {
        self.rules
            .inclusions()
            .iter()
            .all(|i| self.keeps_inclusion(*i))
    }
}
