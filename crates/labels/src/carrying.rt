// What a label carries.
ghost use Rattle.std.specs.Prelude.{Decides};
ghost use Rattle.logic.specs.Lines.{AnyLine, Covers, Carries};
ghost use Rattle.labels.specs.Ruled.{ruled};
ghost use Rattle.labels.specs.Labelled.{labelled};

use crate::label::Label;
use crate::ruled::Ruled;
use logic::claim::Claim;

impl<'a> Label<'a> {
    // Whether a line of the label covers what is claimed.
    fn covers(&self, w: Claim) -> bool
        ensures { Decides result (AnyLine (λ m. Covers m w) (labelled self.now)) }
    {
        self.strongest(w.concept, w.side)
            .is_some_and(|m| w.is_met_by(m))
    }
}

impl<'a> Ruled<'a> {
    // Whether the label carries what is claimed.
    pub fn carries(&self, w: Claim) -> bool
        ensures { Decides result (Carries (ruled self.now.rules.now).fineness (labelled self.now.label.now) w) }
    {
        w.is_idle(self.rules.fineness()) || self.label.covers(w)
    }
}
