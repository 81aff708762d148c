// Making calls from a list.
ghost use Rattle.std.specs.Prelude.{◌≡◌, length, IfOk, Ok, MatchResult};
ghost use Rattle.terms.specs.declared.refusal.Refusal.TheVariants.{NoMemory};
ghost use Rattle.terms.specs.Refusals.{unplaced};
ghost use Rattle.book.specs.Steps.{Step};
ghost use Rattle.book.specs.Models.{model};
ghost use Rattle.question.specs.Asked.{asked, beside};
ghost use Rattle.runs.specs.Calls.{meant, events};
ghost use Rattle.runs.specs.Laws.{Lawful, RepliesAreExact, BookByPlaces, BookNeverAnew, QuestionByPlaces, QuestionNeverAnew};

use crate::calls::Call;
use book::Book;
use question::Question;
use question::trial::{Judgement, with_trial};
use std::alloc::Global;
use terms::refusal::Refused;

// A judgement that finds nothing wanting: it shows only whether a line can be laid.
struct Unjudged;

impl Judgement for Unjudged {
    type Answer = usize;

    ghost judged = { λ _ b qs r. r ≡ Ok 0 };

    fn judge(&self, _book: &Book, _question: &Question) -> Result<usize, Refused> {
        Ok(0)
    }
}

// Makes one call.
pub fn perform(book: &mut Book, question: &mut Question, call: Call<'_>) -> Result<usize, Refused>
    ensures { Step (beside (model book.old) (asked question.old)) (meant call.entry) result (beside (model book.new) (asked question.new)) }
{
    match call {
        Call::Begin(fineness) => book.begin(fineness).map(|()| 0),
        Call::EnterHeading(name) => book.enter_heading(name),
        Call::EnterRole(name) => book.enter_role(name),
        Call::EnterConcept(concept) => book.enter_concept(concept),
        Call::EnterInclusion { lower, upper } => book.enter_inclusion(lower, upper),
        Call::StrikeInclusion(number) => book.strike_inclusion(number).map(|()| 0),
        Call::EnterLine(line) => question.enter(book, line),
        Call::ClearQuestion => {
            question.clear();
            Ok(0)
        }
        Call::TryLine(line) => with_trial(book, question, line, &Unjudged),
    }
}

// Makes the calls one after another, and returns their replies. Where there is no memory for the replies, no call is made.
pub fn replay(
    heap: Global,
    book: &mut Book,
    question: &mut Question,
    calls: &[Call<'_>],
) -> Result<Vec<Result<usize, Refused>>, Refused>
    ensures lawful { MatchResult result (λ replies. Lawful (beside (model book.old) (asked question.old)) (events calls.now replies.items) (beside (model book.new) (asked question.new))) (λ x. (x ≡ unplaced NoMemory) × (book.new ≡ book.old) × (question.new ≡ question.old)) }
    ensures answered { IfOk result (λ replies. length replies.items ≡ length calls.now) }
{
    let mut replies = Vec::with_capacity(heap, calls.len())?;
    for call in calls {
        let reply = perform(book, question, *call);
        replies.push_reserved(reply);
    }
    Ok(replies)
}

// What the law over runs says of accepting and refusing, and of its own words.
pub fn words_stand()
    ensures exact { RepliesAreExact }
    ensures book { BookByPlaces }
    ensures same_book { BookNeverAnew }
    ensures question { QuestionByPlaces }
    ensures same_question { QuestionNeverAnew }
{}
