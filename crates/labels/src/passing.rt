// What a line 'some r that is c at least z' passes on to another individual.
ghost use Rattle.std.specs.Prelude.{◌≡◌, Decides};
ghost use Rattle.terms.specs.declared.line.Side.TheVariants.{AtLeast};
ghost use Rattle.logic.specs.Lines.{line, AnyLine, EachLine};
ghost use Rattle.logic.specs.Conclusions.{Denies, Passes};
ghost use Rattle.labels.specs.Ruled.{ruled};
ghost use Rattle.labels.specs.Labelled.{labelled};
ghost use Rattle.labels.specs.Passing.{Under, Denier, SomeDenier, Reaching};

use crate::ruled::Ruled;
use crate::rules::Rules;
use logic::claim::Claim;
use terms::concept::Concept;
use terms::line::{Line, Side};

// 'Some role that is part at least bound'.
#[derive(Clone, Copy)]
pub struct Reach {
    pub role: usize,
    pub part: usize,
    pub bound: i32,
}

impl Reach {
    // What is reached: 'part at least bound'.
    pub fn claim(self) -> Claim
        ensures { result ≡ line self.part AtLeast self.bound }
    {
        Claim::at_least(self.part, self.bound as i64)
    }

    // Whether the line says at most less than the bound.
    pub(crate) fn is_above(self, m: Line) -> bool
        ensures { Decides result (Under self.bound m) }
    {
        m.side == Side::AtMost && m.bound < self.bound
    }
}

impl<'a> Rules<'a> {
    // What a line reaches, if it is 'some r that is c at least z' with z at least 1.
    pub fn reach(&self, l: Line) -> Option<Reach>
        ensures { Reaching (ruled self.now) l result }
    {
        match (self.concept(l.concept), l.side) {
            (Concept::Exists(role, part), Side::AtLeast) if 1 <= l.bound => Some(Reach {
                role,
                part,
                bound: l.bound,
            }),
            _ => None,
        }
    }
}

impl<'a> Ruled<'a> {
    // Whether the label has a line on the concept c that denies just what the line l says.
    fn denies(&self, z: Reach, c: usize, l: Line) -> bool
        ensures { Decides result (Denier (ruled self.now.rules.now) (labelled self.now.label.now) z.role l c) }
    {
        self.rules.concept(c) == Concept::Exists(z.role, l.concept)
            && self.label.has(Line::at_most(c, l.bound))
    }

    // Whether it has one on some concept.
    fn some_denies(&self, z: Reach, l: Line) -> bool
        ensures { Decides result (SomeDenier (ruled self.now.rules.now) (labelled self.now.label.now) z.role l) }
    {
        (0..self.rules.concepts().len()).any(|c| self.denies(z, c, l))
    }

    fn denied_by_concept(&self, z: Reach, l: Line) -> bool
        ensures { Decides result (Under z.bound l × SomeDenier (ruled self.now.rules.now) (labelled self.now.label.now) z.role l) }
    {
        z.is_above(l) && self.some_denies(z, l)
    }

    // Whether the line l is what a line of the label denies where the role leads to the bound.
    pub fn denied(&self, z: Reach, l: Line) -> bool
        ensures { Decides result (AnyLine (λ m. Denies (ruled self.now.rules.now) z.role z.bound m l) (labelled self.now.label.now)) }
    {
        self.denied_by_concept(z, l)
    }

    // Whether the line is passed on.
    pub fn passes(&self, z: Reach, l: Line) -> bool
        ensures { Decides result (Passes (ruled self.now.rules.now) (labelled self.now.label.now) z.role z.part z.bound l) }
    {
        z.claim().is(l) || self.denied(z, l)
    }

    // Whether each line of the child is passed on.
    pub fn passes_all(&self, z: Reach, child: &[Line]) -> bool
        ensures { Decides result (EachLine (Passes (ruled self.now.rules.now) (labelled self.now.label.now) z.role z.part z.bound) child.now) }
    {
        child.iter().all(|l| self.passes(z, *l))
    }
}
