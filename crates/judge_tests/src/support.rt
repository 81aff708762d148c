// What the tests share: books, questions, and sheets taken over from slots.
use book::Book;
use judge::judging::judge;
use judge::verdict::Verdict;
use question::Question;
use sheet::{EntrySlot, Finished};
use std::alloc::Global;
use std::test::Fail;
use terms::concept::Concept;
use terms::entry::{Head, Kind};
use terms::line::Line;
use terms::question::{Comparison, QuestionLine};
use terms::refusal::{Refusal, Refused};

// A slot of an entry, with `count` lines from `start` on.
pub fn slot(head: Head, start: usize, count: usize) -> EntrySlot {
    EntrySlot { head, start, count }
}

pub fn asks(concept: usize, comparison: Comparison, degree: u32) -> QuestionLine {
    QuestionLine {
        concept,
        comparison,
        degree,
    }
}

pub fn broken(place: usize) -> Result<Verdict, Refused> {
    Err(Refused {
        refusal: Refusal::BrokenRule,
        place,
    })
}

pub fn refused(refusal: Refusal) -> Result<Verdict, Refused> {
    Err(refusal.into())
}

// A book and a question.
#[derive(Drop)]
pub struct Desk {
    pub book: Book,
    pub question: Question,
}

// Two headings, the first in the second; the first is asked above 3, the second not above 3.
pub fn tithe(heap: Global) -> Result<Desk, Refused> {
    let mut book = Book::new(heap, 10)?;
    let _ = book.enter_heading("tithe")?;
    let _ = book.enter_heading("church")?;
    let _ = book.enter_concept(Concept::Heading(0))?;
    let _ = book.enter_concept(Concept::Heading(1))?;
    let _ = book.enter_inclusion(0, 1)?;
    let mut question = Question::new();
    let _ = question.enter(&book, asks(0, Comparison::Above, 3))?;
    let _ = question.enter(&book, asks(1, Comparison::NotAbove, 3))?;
    Ok(Desk { book, question })
}

// The answer on a store taken over as a finished sheet.
pub fn answer(
    desk: &Desk,
    entries: &mut [EntrySlot],
    lines: &mut [Line],
    kind: Kind,
    root: usize,
) -> Result<Result<Verdict, Refused>, Fail> {
    let used = entries.len();
    let sheet = Finished::over(entries, lines, used, kind, root)?;
    let (_, answer) = judge(&desk.book, &desk.question, sheet);
    Ok(answer)
}
