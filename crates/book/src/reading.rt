// What a book holds.
ghost use Rattle.std.specs.Prelude.{◌≡◌};
ghost use Rattle.names.specs.Texts.{texts};
ghost use Rattle.book.specs.Models.{model};

use crate::{Book, MOST_HEADINGS, MOST_ROLES};
use names::NameList;
use terms::concept::{Concept, Inclusion};

impl Book {
    pub fn fineness(&self) -> u32
        ensures { result ≡ (model self.now).fineness }
    {
        self.fineness.steps()
    }

    pub fn headings(&self) -> &NameList<MOST_HEADINGS>
        ensures { texts result.now ≡ (model self.now).headings }
    {
        &self.headings
    }

    pub fn roles(&self) -> &NameList<MOST_ROLES>
        ensures { texts result.now ≡ (model self.now).roles }
    {
        &self.roles
    }

    // The concepts, by number.
    pub fn concepts(&self) -> &[Concept]
        ensures { result.now ≡ (model self.now).concepts }
    {
        self.concepts.as_slice()
    }

    // The inclusions, by number, with their struck marks.
    pub fn inclusions(&self) -> &[Inclusion]
        ensures { result.now ≡ (model self.now).inclusions }
    {
        self.inclusions.records()
    }
}
