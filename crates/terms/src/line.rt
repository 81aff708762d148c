// Lines: what an entry of a sheet says of a concept's degree.
ghost use Rattle.std.specs.Prelude.{◌≡◌, Decides};
ghost use Rattle.terms.specs.Lines.{BoundOutside, at_least, at_most};

#[derive(Clone, Copy, PartialEq, Eq, PartialOrd, Ord, Default, Debug)]
pub enum Side {
    // The degree is at least the bound.
    #[default]
    AtLeast,
    // The degree is at most the bound.
    AtMost,
}

// A line (a graded assertion): the degree of a concept, in half steps, is at least or at most a bound.
// In a label lines stand by concept, at least before at most, then by bound: the order in which the fields stand here.
#[derive(Clone, Copy, PartialEq, Eq, PartialOrd, Ord, Default, Debug)]
pub struct Line {
    pub concept: usize,
    pub side: Side,
    pub bound: i32,
}

impl Line {
    // Whether the bound is outside what a line of a label may have: -1 to 4,000.
    pub fn is_out_of_range(self) -> bool
        ensures { Decides result (BoundOutside self) }
    {
        !(-1..=4000).contains(&self.bound)
    }

    // (A maker for each side, and not one that is told the side: that is the literal.)
    pub const fn at_least(concept: usize, bound: i32) -> Line
        ensures { result ≡ at_least concept bound }
    {
        Line {
            concept,
            side: Side::AtLeast,
            bound,
        }
    }

    pub const fn at_most(concept: usize, bound: i32) -> Line
        ensures { result ≡ at_most concept bound }
    {
        Line {
            concept,
            side: Side::AtMost,
            bound,
        }
    }
}
