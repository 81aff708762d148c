// The table of inclusions.
ghost use Rattle.std.specs.Prelude.{◌≡◌, ◌<◌, ◌≤◌, [], ◌∷◌, ◌++◌, length, vec_capacity, IfOk};
ghost use Rattle.book.specs.States.{strike_one};

use std::alloc::{AllocError, Global};
use terms::concept::Inclusion;

pub(crate) const MOST_INCLUSIONS: usize = 64;

// The inclusions of a book by number, with their struck marks. All room is reserved when it is made.
#[derive(Drop)]
pub(crate) struct InclusionTable {
    records: Vec<Inclusion>,
    ghost few: { length records.items ≤ 64 },
    ghost room: { 64 ≤ vec_capacity records },
}

impl InclusionTable {
    pub(crate) fn new(heap: Global) -> Result<InclusionTable, AllocError>
        ensures { IfOk result (λ t. t.records.items ≡ []) }
    {
        let records = Vec::with_capacity(heap, MOST_INCLUSIONS)?;
        Ok(InclusionTable { records })
    }

    pub(crate) fn records(&self) -> &[Inclusion]
        ensures { result.now ≡ self.now.records.items }
    {
        self.records.as_slice()
    }

    pub(crate) fn add(&mut self, inclusion: Inclusion)
        requires { length self.old.records.items < 64 }
        ensures { self.new.records.items ≡ self.old.records.items ++ inclusion ∷ [] }
    {
        self.records.push_reserved(inclusion);
    }

    // Strikes the inclusion of a number.
    pub(crate) fn strike(&mut self, number: usize)
        requires { number < length self.old.records.items }
        ensures { self.new.records.items ≡ strike_one self.old.records.items number }
    {
        self.records[number].struck = true;
    }

    pub(crate) fn clear(&mut self)
        ensures { self.new.records.items ≡ [] }
    {
        self.records.clear();
    }
}
