// Testing a question's lines again, against the book as it is now.
ghost use Rattle.std.specs.Prelude.{◌≡◌, ℕ, ◌<◌, Bool, Decides, MatchResult, length, slice_index_or};
ghost use Rattle.std.specs.Fn.{FnReturnsAt};
ghost use Rattle.book.specs.Models.{model};
ghost use Rattle.question.specs.Blanks.{blank_line};
ghost use Rattle.question.specs.Asked.{asked};
ghost use Rattle.question.specs.Retests.{LineGround, FirstLine, SomeLine, Retested};

use crate::Question;
use book::Book;
use terms::question::QuestionLine;
use terms::refusal::{Refusal, Refused};

impl Question {
    // Refused with the ground at the first line that the test finds to have it.
    fn pass<F: Fn(&QuestionLine) -> bool>(
        &self,
        book: &Book,
        ground: Refusal,
        has: F,
    ) -> Result<(), Refused>
        requires callable { F.IsAlwaysCallable has }
        requires tells { (k : ℕ) (b : Bool) → k < length (asked self.now) → FnReturnsAt F.Fn has (slice_index_or (asked self.now) k blank_line) b → Decides b (LineGround (model book.now) ground (slice_index_or (asked self.now) k blank_line)) }
        ensures { MatchResult result (λ _. ¬ SomeLine (model book.now) (asked self.now) ground) (λ x. (x.refusal ≡ ground) × FirstLine (model book.now) (asked self.now) ground x.place) }
    {
        match self.lines().iter().position(|line| has(line)) {
            Some(place) => Err(Refused {
                refusal: ground,
                place,
            }),
            None => Ok(()),
        }
    }

    // Tests each line again: whether its concept stands in the book, and whether its degree is at most the fineness.
    pub fn retest(&self, book: &Book) -> Result<(), Refused>
        ensures { Retested (model book.now) (asked self.now) result }
    {
        self.pass(book, Refusal::Missing, |line| {
            line.concept >= book.concepts().len()
        })?;
        self.pass(book, Refusal::TooHigh, |line| line.degree > book.fineness())
    }
}
