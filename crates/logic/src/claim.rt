// Lines whose bounds may leave the range of a label's: conclusions, and the lines of a question.
ghost use Rattle.std.specs.Prelude.{◌≡◌, Decides, FitsSigned};
ghost use Rattle.std.specs.Int.{w32};
ghost use Rattle.std.specs.Result.{OkIff};
ghost use Rattle.terms.specs.declared.line.Side.TheVariants.{AtLeast, AtMost};
ghost use Rattle.logic.specs.Lines.{line, half_line, AsStrong, Idle};

use std::marker::Model;
use std::num::TryFromIntError;
use terms::line::{Line, Side};
use terms::question::{Comparison, QuestionLine};

// The degree of a concept, in half steps, is at least or at most a bound. Contracts see the line that is claimed.
// (A type beside `Line`, and not `Line<i64>`: a type argument of lines would stand in every definition of the theory.)
#[derive(Clone, Copy, PartialEq, Eq, Debug)]
pub struct Claim {
    pub concept: usize,
    pub side: Side,
    pub bound: i64,
}

impl Model for Claim {
    ghost use Rattle.terms.specs.declared.line.Line.{Line};

    ghost Value = { Line };

    ghost view = { λ w. record { concept = w.concept; side = w.side; bound = w.bound } };

    ghost inverse = { λ l. record { concept = l.concept; side = l.side; bound = l.bound } };
}

impl Claim {
    // The concept is at least the bound. (A maker for each side, and not one that is told the side: that is the literal.)
    pub fn at_least(concept: usize, bound: i64) -> Claim
        ensures { result ≡ line concept AtLeast bound }
    {
        Claim {
            concept,
            side: Side::AtLeast,
            bound,
        }
    }

    // The concept is at most the bound.
    pub fn at_most(concept: usize, bound: i64) -> Claim
        ensures { result ≡ line concept AtMost bound }
    {
        Claim {
            concept,
            side: Side::AtMost,
            bound,
        }
    }

    // Whether that is what the line says.
    pub fn is(self, l: Line) -> bool
        ensures { Decides result (l ≡ self) }
    {
        Claim::from(l) == self
    }

    // Whether the line's bound asks at least as much as what is claimed.
    pub fn is_met_by(self, m: Line) -> bool
        ensures { Decides result (AsStrong self.side m.bound self.bound) }
    {
        match self.side {
            Side::AtLeast => self.bound <= m.bound as i64,
            Side::AtMost => m.bound as i64 <= self.bound,
        }
    }

    // Whether every degree of a book of the fineness keeps what is claimed.
    pub fn is_idle(self, fineness: u32) -> bool
        ensures { Decides result (Idle fineness self.side self.bound) }
    {
        match self.side {
            Side::AtLeast => self.bound <= 0,
            Side::AtMost => 2 * (fineness as i64) <= self.bound,
        }
    }
}

// What a line says.
impl From<Line> for Claim {
    ghost from_gives = { λ l w. w ≡ l };

    fn from(l: Line) -> Claim {
        Claim {
            concept: l.concept,
            side: l.side,
            bound: l.bound as i64,
        }
    }
}

// The line of a question in half steps.
impl From<QuestionLine> for Claim {
    ghost from_gives = { λ asked w. w ≡ half_line asked };

    fn from(asked: QuestionLine) -> Claim {
        let twice = 2 * (asked.degree as i64);
        match asked.comparison {
            Comparison::NotBelow => Claim::at_least(asked.concept, twice),
            Comparison::Above => Claim::at_least(asked.concept, twice + 1),
            Comparison::NotAbove => Claim::at_most(asked.concept, twice),
            Comparison::Under => Claim::at_most(asked.concept, twice - 1),
        }
    }
}

// What is claimed as a line of a label, if its bound fits one.
impl TryFrom<Claim> for Line {
    type Error = TryFromIntError;

    ghost try_from_gives = { λ w r. OkIff r (FitsSigned w32 w.bound) w };

    fn try_from(claim: Claim) -> Result<Line, TryFromIntError> {
        Ok(Line {
            concept: claim.concept,
            side: claim.side,
            bound: i32::try_from(claim.bound)?,
        })
    }
}
