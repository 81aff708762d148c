// Making a book, and beginning one anew.
ghost use Rattle.book.specs.States.{begin};
ghost use Rattle.book.specs.Steps.{Step, alone, numberless};
ghost use Rattle.book.specs.Models.{model};
ghost use Rattle.book.specs.Made.{Made};

use crate::fineness::Fineness;
use crate::table::InclusionTable;
use crate::{Book, MOST_CONCEPTS};
use names::NameList;
use std::alloc::Global;
use terms::refusal::Refused;

impl Book {
    // Makes a book that has only its fineness, with all its room reserved.
    pub fn new(heap: Global, fineness: u32) -> Result<Book, Refused>
        ensures { Made fineness result }
    {
        let fineness = Fineness::try_from(fineness)?;
        let headings = NameList::new(heap)?;
        let roles = NameList::new(heap)?;
        let concepts = Vec::with_capacity(heap, MOST_CONCEPTS)?;
        let inclusions = InclusionTable::new(heap)?;
        Ok(Book {
            fineness,
            headings,
            roles,
            concepts,
            inclusions,
        })
    }

    // Begins the book anew, with another fineness or the same.
    pub fn begin(&mut self, fineness: u32) -> Result<(), Refused>
        ensures { Step (alone (model self.old)) (begin fineness) (numberless result) (alone (model self.new)) }
    {
        self.fineness = Fineness::try_from(fineness)?;
        self.headings.clear();
        self.roles.clear();
        self.concepts.clear();
        self.inclusions.clear();
        Ok(())
    }
}
