// Whether a label can be that of the individual to which a line 'some r that is c at least z' leads.
ghost use Rattle.std.specs.Prelude.{Decides};
ghost use Rattle.terms.specs.declared.line.Side.TheVariants.{AtLeast};
ghost use Rattle.logic.specs.Lines.{line, EachLine, Carries};
ghost use Rattle.logic.specs.Standing.{Serves};
ghost use Rattle.labels.specs.Ruled.{ruled};
ghost use Rattle.labels.specs.Labelled.{labelled};
ghost use Rattle.labels.specs.Passing.{DenialBy, DenialOf};

use crate::passing::Reach;
use crate::ruled::Ruled;
use logic::claim::Claim;
use terms::concept::Concept;
use terms::line::Line;

impl<'a> Ruled<'a> {
    // Whether the label carries what the line m, on a concept of the form given, denies.
    fn carries_denied_by(&self, z: Reach, form: Concept, m: Line) -> bool
        ensures { Decides result (DenialBy (ruled self.now.rules.now).fineness z.role z.bound (labelled self.now.label.now) form m) }
    {
        match form {
            Concept::Exists(role, part) if role == z.role && z.is_above(m) => self.carries(
                Claim::at_most(part, m.bound as i64),
            ),
            _ => true,
        }
    }

    fn carries_denied(&self, z: Reach, m: Line) -> bool
        ensures { Decides result (DenialOf (ruled self.now.rules.now) z.role z.bound (labelled self.now.label.now) m) }
    {
        self.carries_denied_by(z, self.rules.concept(m.concept), m)
    }

    fn carries_all_denied(&self, from: &[Line], z: Reach) -> bool
        ensures { Decides result (EachLine (DenialOf (ruled self.now.rules.now) z.role z.bound (labelled self.now.label.now)) from.now) }
    {
        from.iter().all(|m| self.carries_denied(z, *m))
    }

    // Both parts of serving: what is reached, and what is denied there.
    fn serves_by_line(&self, from: &[Line], z: Reach) -> bool
        ensures { Decides result (Carries (ruled self.now.rules.now).fineness (labelled self.now.label.now) (line z.part AtLeast z.bound) × EachLine (DenialOf (ruled self.now.rules.now) z.role z.bound (labelled self.now.label.now)) from.now) }
    {
        self.carries(z.claim()) && self.carries_all_denied(from, z)
    }

    // Whether the label carries all that is passed on from the label `from`.
    pub fn serves(&self, from: &[Line], z: Reach) -> bool
        ensures { Decides result (Serves (ruled self.now.rules.now) from.now z.role z.part z.bound (labelled self.now.label.now)) }
    {
        self.serves_by_line(from, z)
    }
}
