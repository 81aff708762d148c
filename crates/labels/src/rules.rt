// A book as the tests read it.
ghost use Rattle.std.specs.Prelude.{◌≡◌, Decides};
ghost use Rattle.logic.specs.Books.{StandsIn, concept_at, inclusion_at};
ghost use Rattle.labels.specs.Ruled.{ruled};

use terms::concept::{Concept, Inclusion};

// The fineness, concepts and inclusions of a book.
#[derive(Clone, Copy)]
pub struct Rules<'a> {
    pub fineness: u32,
    pub concepts: &'a [Concept],
    pub inclusions: &'a [Inclusion],
}

impl<'a> Rules<'a> {
    pub fn new(fineness: u32, concepts: &'a [Concept], inclusions: &'a [Inclusion]) -> Rules<'a>
        ensures { ruled result ≡ record { fineness = fineness; concepts = concepts.now; inclusions = inclusions.now } }
    {
        Rules {
            fineness,
            concepts,
            inclusions,
        }
    }

    pub fn fineness(&self) -> u32
        ensures { result ≡ (ruled self.now).fineness }
    {
        self.fineness
    }

    pub fn concepts(&self) -> &'a [Concept]
        ensures { result.now ≡ (ruled self.now).concepts }
    {
        self.concepts
    }

    pub fn inclusions(&self) -> &'a [Inclusion]
        ensures { result.now ≡ (ruled self.now).inclusions }
    {
        self.inclusions
    }

    // The concept of a number; past the last, the degree 0.
    pub fn concept(&self, c: usize) -> Concept
        ensures { result ≡ concept_at (ruled self.now) c }
    {
        let found = self.concepts.get(c);
        found.copied().unwrap_or(Concept::Constant(0))
    }

    // The inclusion of a number.
    pub fn inclusion(&self, i: usize) -> Inclusion
        ensures { result ≡ inclusion_at (ruled self.now) i }
    {
        let found = self.inclusions.get(i);
        found.copied().unwrap_or_default()
    }

    // Whether the number is that of a concept.
    pub fn stands(&self, c: usize) -> bool
        ensures { Decides result (StandsIn (ruled self.now) c) }
    {
        c < self.concepts().len()
    }
}
