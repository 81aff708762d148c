// What a concept cites.
ghost use Rattle.std.specs.Prelude.{length, Decides};
ghost use Rattle.names.specs.Texts.{texts};
ghost use Rattle.terms.specs.Among.{Among};
ghost use Rattle.book.specs.Citing.{CitesMissing, CitesAbove};

use crate::Book;
use terms::concept::Concept;

// Whether a concept cites a degree above the fineness.
pub fn cites_above(fineness: u32, concept: Concept) -> bool
    ensures { Decides result (CitesAbove fineness concept) }
{
    match concept {
        Concept::Constant(degree) | Concept::Less(_, degree) => degree > fineness,
        _ => false,
    }
}

impl Book {
    // Whether a concept cites a heading, a role or a concept that does not stand.
    pub(crate) fn cites_missing(&self, concept: Concept) -> bool
        ensures { Decides result (CitesMissing (length (texts self.now.headings)) (length (texts self.now.roles)) (length self.now.concepts.items) concept) }
    {
        match concept {
            Concept::Heading(p) => p >= self.headings.len(),
            Concept::Constant(_) => false,
            Concept::Not(c) => c >= self.concepts.len(),
            Concept::Less(c, _) => c >= self.concepts.len(),
            Concept::Lesser(c, d) => c >= self.concepts.len() || d >= self.concepts.len(),
            Concept::Exists(r, c) => r >= self.roles.len() || c >= self.concepts.len(),
        }
    }

    pub(crate) fn has_concept(&self, concept: Concept) -> bool
        ensures { Decides result (Among self.now.concepts.items concept) }
    {
        self.concepts.contains(&concept)
    }
}
