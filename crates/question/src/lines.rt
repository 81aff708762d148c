// Entering lines in a question, and clearing it.
ghost use Rattle.std.specs.Prelude.{◌≡◌, [], length, Decides};
ghost use Rattle.terms.specs.Answers.{Answered};
ghost use Rattle.terms.specs.Among.{Among};
ghost use Rattle.book.specs.States.{enter, a_line};
ghost use Rattle.book.specs.Grounds.{Ground};
ghost use Rattle.book.specs.Steps.{Step};
ghost use Rattle.book.specs.Models.{model};
ghost use Rattle.question.specs.Asked.{asked, beside};

use crate::Question;
use arrayvec::ArrayVec;
use book::Book;
use terms::question::QuestionLine;
use terms::refusal::{Refusal, Refused};

impl Question {
    // A question without lines.
    pub fn new() -> Question
        ensures { asked result ≡ [] }
    {
        Question {
            lines: ArrayVec::new(),
        }
    }

    pub fn len(&self) -> usize
        ensures { result ≡ length (asked self.now) }
    {
        self.lines.len()
    }

    // The lines, by number.
    pub fn lines(&self) -> &[QuestionLine]
        ensures { result.now ≡ asked self.now }
    {
        self.lines.as_slice()
    }

    pub(crate) fn has(&self, line: QuestionLine) -> bool
        ensures { Decides result (Among (asked self.now) line) }
    {
        self.lines().contains(&line)
    }

    pub(crate) fn may_enter(&self, book: &Book, line: QuestionLine) -> Result<(), Refusal>
        ensures { Answered (Ground (beside (model book.now) (asked self.now)) (enter (a_line line))) result }
    {
        if self.lines.is_full() {
            return Err(Refusal::Full);
        }
        if line.concept >= book.concepts().len() {
            return Err(Refusal::Missing);
        }
        if line.degree > book.fineness() {
            return Err(Refusal::TooHigh);
        }
        if self.has(line) {
            return Err(Refusal::Already);
        }
        Ok(())
    }

    // Enters a line about concepts of the book; returns its number.
    pub fn enter(&mut self, book: &Book, line: QuestionLine) -> Result<usize, Refused>
        ensures { Step (beside (model book.now) (asked self.old)) (enter (a_line line)) result (beside (model book.now) (asked self.new)) }
    {
        self.may_enter(book, line)?;
        let number = self.len();
        self.lines.push(line);
        Ok(number)
    }

    // Takes every line off.
    pub fn clear(&mut self)
        ensures { asked self.new ≡ [] }
    {
        self.lines.clear();
    }
}
