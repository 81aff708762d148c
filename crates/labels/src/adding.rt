// What the child of a closing entry adds to its label.
ghost use Rattle.std.specs.Prelude.{◌≡◌, Decides};
ghost use Rattle.logic.specs.Conclusions.{conclusions_of, Among};
ghost use Rattle.logic.specs.Closing.{Adds};
ghost use Rattle.labels.specs.Ruled.{ruled};
ghost use Rattle.labels.specs.Labelled.{labelled};

use crate::label::Label;
use crate::ruled::Ruled;
use logic::claim::Claim;
use terms::line::Line;

impl<'a> Label<'a> {
    // Whether each line of the child is one of the label's or the one claimed.
    pub fn adds(&self, w: Claim, child: &[Line]) -> bool
        ensures { Decides result (Adds (labelled self.now) (λ l. l ≡ w) child.now) }
    {
        child.iter().all(|l| self.has(*l) || w.is(*l))
    }
}

impl<'a> Ruled<'a> {
    // Whether each line of the child is one of the label's or a conclusion of the line `from`.
    pub fn adds_conclusions(&self, from: Line, child: &[Line]) -> bool
        ensures { Decides result (Adds (labelled self.now.label.now) (Among (conclusions_of (ruled self.now.rules.now) from)) child.now) }
    {
        child
            .iter()
            .all(|l| self.label.has(*l) || self.rules.concludes(from, *l))
    }
}
