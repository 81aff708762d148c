// What an entry of a sheet says besides its label.

// The rule by which an entry is closed, or L in a standing sheet.
#[derive(Clone, Copy, PartialEq, Eq, Default, Debug)]
pub enum Letter {
    // The label clashes.
    #[default]
    Z,
    // By a line on 'not c'.
    N,
    // By a line on 'c less k'.
    S,
    // By a line on 'the lesser of c and d'.
    M,
    // By an inclusion, at a step.
    I,
    // By a line on 'some r that is c'.
    E,
    // An entry of a standing sheet.
    L,
}

// The letter, the place of a line in the label, the children, the inclusion and the step. What a letter does not use is 0.
#[derive(Clone, Copy, PartialEq, Eq, Default, Debug)]
pub struct Head {
    pub letter: Letter,
    pub place: usize,
    pub first: usize,
    pub second: usize,
    pub inclusion: usize,
    pub step: usize,
}

// What a sheet shows: that nothing meets book and question (a closed tableau), or that something does (a complete one without a clash).
#[derive(Clone, Copy, PartialEq, Eq, Debug)]
pub enum Kind {
    Closing,
    Standing,
}
