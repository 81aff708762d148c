// Judging a finished sheet against a book and a question.
ghost use Rattle.std.specs.Prelude.{◌≡◌, is_ok, Decides};
ghost use Rattle.book.specs.Models.{model};
ghost use Rattle.question.specs.Asked.{asked};
ghost use Rattle.judge.specs.Verdicts.{Judged, Obeyed};

use crate::case::Case;
use crate::verdict::Verdict;
use book::Book;
use question::Question;
use sheet::Finished;
use terms::refusal::Refused;

// The verdict on a sheet that is lent. A judgement on trial needs it so: it is asked behind a `&`, which hands nothing over.
pub fn judge_lent(
    book: &Book,
    question: &Question,
    sheet: &Finished<'_>,
) -> Result<Verdict, Refused>
    ensures judged { Judged (model book.now) (asked question.now) sheet.now result }
    ensures exact { Decides (is_ok result) (Obeyed (model book.now) (asked question.now) sheet.now) }
{
    question.retest(book)?;
    Case::new(book, question, sheet).weigh()
}

// The same on a sheet that is handed over, and comes back as it was: the form of the call that the other calls on sheets have.
pub fn judge<'a>(
    book: &Book,
    question: &Question,
    sheet: Finished<'a>,
) -> (Finished<'a>, Result<Verdict, Refused>)
    ensures back { result.0 ≡ sheet.entry }
    ensures judged { Judged (model book.now) (asked question.now) sheet.entry result.1 }
    ensures exact { Decides (is_ok result.1) (Obeyed (model book.now) (asked question.now) sheet.entry) }
{
    let answer = judge_lent(book, question, &sheet);
    (sheet, answer)
}
