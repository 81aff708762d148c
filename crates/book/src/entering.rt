// Entering concepts and inclusions, and striking an inclusion.
ghost use Rattle.std.specs.Prelude.{◌≡◌, ℕ};
ghost use Rattle.terms.specs.Answers.{Answered};
ghost use Rattle.book.specs.States.{enter, a_concept, an_inclusion, strike};
ghost use Rattle.book.specs.Grounds.{Ground};
ghost use Rattle.book.specs.Steps.{Step, alone, numberless};
ghost use Rattle.book.specs.Models.{model};

use crate::checks::cites_above;
use crate::table::MOST_INCLUSIONS;
use crate::{Book, MOST_CONCEPTS};
use terms::concept::{Concept, Inclusion};
use terms::refusal::{Refusal, Refused};

impl Book {
    fn may_enter_concept(&self, concept: Concept) -> Result<(), Refusal>
        ensures { Answered (Ground (alone (model self.now)) (enter (a_concept concept))) result }
    {
        if self.concepts.len() >= MOST_CONCEPTS {
            return Err(Refusal::Full);
        }
        if self.cites_missing(concept) {
            return Err(Refusal::Missing);
        }
        if cites_above(self.fineness(), concept) {
            return Err(Refusal::TooHigh);
        }
        if self.has_concept(concept) {
            return Err(Refusal::Already);
        }
        Ok(())
    }

    // Enters a concept; returns its number.
    pub fn enter_concept(&mut self, concept: Concept) -> Result<usize, Refused>
        ensures { Step (alone (model self.old)) (enter (a_concept concept)) result (alone (model self.new)) }
    {
        self.may_enter_concept(concept)?;
        let number = self.concepts.len();
        self.concepts.push_reserved(concept);
        Ok(number)
    }

    fn may_enter_inclusion(&self, lower: usize, upper: usize) -> Result<(), Refusal>
        ensures { Answered (Ground (alone (model self.now)) (enter (an_inclusion lower upper))) result }
    {
        let count = self.concepts.len();
        if self.inclusions().len() >= MOST_INCLUSIONS {
            return Err(Refusal::Full);
        }
        if lower >= count || upper >= count {
            return Err(Refusal::Missing);
        }
        Ok(())
    }

    // Enters the inclusion of one concept in another; returns its number.
    pub fn enter_inclusion(&mut self, lower: usize, upper: usize) -> Result<usize, Refused>
        ensures { Step (alone (model self.old)) (enter (an_inclusion lower upper)) result (alone (model self.new)) }
    {
        self.may_enter_inclusion(lower, upper)?;
        let number = self.inclusions().len();
        self.inclusions.add(Inclusion {
            lower,
            upper,
            struck: false,
        });
        Ok(number)
    }

    fn may_strike(&self, number: usize) -> Result<(), Refusal>
        ensures { Answered (Ground (alone (model self.now)) (strike number)) result }
    {
        let inclusion = self.inclusions().get(number).ok_or(Refusal::Missing)?;
        if inclusion.struck {
            return Err(Refusal::Already);
        }
        Ok(())
    }

    // Strikes the inclusion of a number.
    pub fn strike_inclusion(&mut self, number: usize) -> Result<(), Refused>
        ensures { Step (alone (model self.old)) (strike number) (numberless result) (alone (model self.new)) }
    {
        self.may_strike(number)?;
        self.inclusions.strike(number);
        Ok(())
    }
}
