// I: by an inclusion, at a step (a cut).
ghost use Rattle.std.specs.Prelude.{◌≡◌, ◌-◌, ◌^◌, ◌<◌, ◌≤◌, true, pos, Decides};
ghost use Rattle.terms.specs.declared.line.Side.TheVariants.{AtLeast, AtMost};
ghost use Rattle.logic.specs.Lines.{line};
ghost use Rattle.logic.specs.Closing.{Adds, InclusionRule};
ghost use Rattle.labels.specs.Ruled.{ruled};
ghost use Rattle.labels.specs.Labelled.{labelled};
ghost use Rattle.closing.specs.Cut.{Cuts};

use crate::entry::ClosingEntry;
use logic::claim::Claim;
use terms::concept::Inclusion;

impl<'a> ClosingEntry<'a> {
    // Whether the entry names an unstruck inclusion and a step of 1 to twice the fineness.
    fn cuts(&self) -> bool
        ensures cuts { Decides result (Cuts (ruled self.now.ruled.rules.now) self.now.head) }
        ensures small { result ≡ true → self.now.head.step < 2 ^ 40 }
    {
        let rules = self.ruled.rules;
        self.head.inclusion < rules.inclusions().len()
            && !rules.inclusion(self.head.inclusion).struck
            && 1 <= self.head.step
            && self.head.step <= 2 * (rules.fineness() as usize)
    }

    // Whether the first child adds that the lower concept is below the step, and the second that the upper one is not.
    fn divides(&self, i: Inclusion, step: usize) -> bool
        requires { (1 ≤ step) × (step < 2 ^ 40) }
        ensures { let label = labelled self.now.ruled.label.now in Decides result (Adds label (λ l. l ≡ line i.lower AtMost (pos (step - 1))) self.now.first.now × Adds label (λ l. l ≡ line i.upper AtLeast (pos step)) self.now.second.now) }
    {
        let below = Claim::at_most(i.lower, (step - 1) as i64);
        let from = Claim::at_least(i.upper, step as i64);
        let label = self.ruled.label;
        label.adds(below, self.first) && label.adds(from, self.second)
    }

    // I: whether an unstruck inclusion, at a step, divides the entry between its two children.
    pub fn inclusion_rule(&self) -> bool
        ensures { Decides result (InclusionRule (ruled self.now.ruled.rules.now) self.now.number self.now.head (labelled self.now.ruled.label.now) self.now.first.now self.now.second.now) }
    {
        self.cuts()
            && self.two_children()
            && self.head.place == 0
            && self.divides(
                self.ruled.rules.inclusion(self.head.inclusion),
                self.head.step,
            )
    }
}
