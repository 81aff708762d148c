// A call on a book and its question.
use terms::concept::Concept;
use terms::question::QuestionLine;

// One call, with what it is told. It is an enum and no closure, since the law over runs speaks of lists of calls as data.
#[derive(Clone, Copy)]
pub enum Call<'a> {
    // Begin the book anew with a fineness.
    Begin(u32),
    EnterHeading(&'a str),
    EnterRole(&'a str),
    EnterConcept(Concept),
    EnterInclusion { lower: usize, upper: usize },
    StrikeInclusion(usize),
    EnterLine(QuestionLine),
    ClearQuestion,
    // Lay a line on the question and take it off again: it tells whether the line could be laid for a judgement.
    TryLine(QuestionLine),
}
