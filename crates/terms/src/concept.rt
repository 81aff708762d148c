// Concepts and inclusions, as a book holds them.

// A concept: what can be true of a piece to a degree. Its parts are concepts of lower numbers.
#[derive(Clone, Copy, PartialEq, Eq, Debug)]
pub enum Concept {
    // A p: the heading p (an atomic concept).
    Heading(usize),
    // K k: the degree k, of every piece.
    Constant(u32),
    // N c: not c.
    Not(usize),
    // S c k: c less k, and never below 0.
    Less(usize, u32),
    // M c d: the lesser of c and d.
    Lesser(usize, usize),
    // E r c: some r that is c (an existential restriction).
    Exists(usize, usize),
}

// C in D (a graded concept inclusion): the degree of `lower` never exceeds that of `upper`, unless it is struck.
#[derive(Clone, Copy, PartialEq, Eq, Default, Debug)]
pub struct Inclusion {
    pub lower: usize,
    pub upper: usize,
    pub struck: bool,
}
