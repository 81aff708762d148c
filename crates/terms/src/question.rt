// The lines of a question.

#[derive(Clone, Copy, PartialEq, Eq, Default, Debug)]
pub enum Comparison {
    // >=
    #[default]
    NotBelow,
    // >
    Above,
    // <=
    NotAbove,
    // <
    Under,
}

// A line of a question (an assertion about the piece that is asked for): how the degree of a concept compares with a degree of the book.
#[derive(Clone, Copy, PartialEq, Eq, Default, Debug)]
pub struct QuestionLine {
    pub concept: usize,
    pub comparison: Comparison,
    pub degree: u32,
}
