// What the tests share: tables of calls with the replies expected, and what book and question hold after them.
use book::Book;
use names::NameList;
use question::Question;
use runs::{Call, perform};
use std::alloc::Global;
use std::process::Abort;
use std::test::Fail;
use terms::concept::{Concept, Inclusion};
use terms::question::{Comparison, QuestionLine};
use terms::refusal::{Refusal, Refused};

// The refusals of calls that speak of no place.
pub const FINENESS: Refused = Refused {
    refusal: Refusal::Fineness,
    place: 0,
};

pub const FULL: Refused = Refused {
    refusal: Refusal::Full,
    place: 0,
};

pub const MISSING: Refused = Refused {
    refusal: Refusal::Missing,
    place: 0,
};

pub const TOO_HIGH: Refused = Refused {
    refusal: Refusal::TooHigh,
    place: 0,
};

pub const BAD_NAME: Refused = Refused {
    refusal: Refusal::BadName,
    place: 0,
};

pub const ALREADY: Refused = Refused {
    refusal: Refusal::Already,
    place: 0,
};

// A call, and the reply expected.
pub type Case = (Call<'static>, Result<usize, Refused>);

// All that can be read of a book and a question.
#[derive(Clone, Copy)]
pub struct Held {
    pub fineness: u32,
    pub headings: &'static [&'static str],
    pub roles: &'static [&'static str],
    pub concepts: &'static [Concept],
    pub inclusions: &'static [Inclusion],
    pub lines: &'static [QuestionLine],
}

// A book of fineness 10, and a question, that hold nothing.
pub const EMPTY: Held = Held {
    fineness: 10,
    headings: &[],
    roles: &[],
    concepts: &[],
    inclusions: &[],
    lines: &[],
};

// A book and a question.
#[derive(Drop)]
pub struct Desk {
    pub book: Book,
    pub question: Question,
}

pub fn line(concept: usize, degree: u32) -> QuestionLine {
    QuestionLine {
        concept,
        comparison: Comparison::NotBelow,
        degree,
    }
}

pub fn new_desk(heap: Global, fineness: u32) -> Result<Desk, Refused> {
    Ok(Desk {
        book: Book::new(heap, fineness)?,
        question: Question::new(),
    })
}

fn check_names<const MOST: usize>(rt: &impl Abort, list: &NameList<MOST>, names: &[&str]) {
    assert_eq!(rt; list.len(), names.len());
    for (number, name) in names.iter().enumerate() {
        assert_eq!(rt; list.name(number), Some(*name));
    }
}

pub fn check_held(rt: &impl Abort, desk: &Desk, held: &Held) {
    assert_eq!(rt; desk.book.fineness(), held.fineness);
    check_names(rt, desk.book.headings(), held.headings);
    check_names(rt, desk.book.roles(), held.roles);
    assert_eq!(rt; desk.book.concepts(), held.concepts);
    assert_eq!(rt; desk.book.inclusions(), held.inclusions);
    assert_eq!(rt; desk.question.lines(), held.lines);
}

// Makes each call, and holds its reply to the one expected.
pub fn play(rt: &impl Abort, desk: &mut Desk, cases: &[Case]) {
    for (number, (call, reply)) in cases.iter().enumerate() {
        assert_eq!(rt;
            perform(&mut desk.book, &mut desk.question, *call),
            *reply,
            "call {number}"
        );
    }
}

// Plays the cases on a new desk. What it holds after them shows that no refused call has left a trace.
pub fn check_cases(
    rt: &impl Abort,
    heap: Global,
    fineness: u32,
    cases: &[Case],
    held: &Held,
) -> Result<(), Fail> {
    let mut desk = new_desk(heap, fineness)?;
    play(rt, &mut desk, cases);
    check_held(rt, &desk, held);
    Ok(())
}
