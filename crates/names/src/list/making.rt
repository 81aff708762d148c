// Making a list of names, and clearing one.
ghost use Rattle.std.specs.Prelude.{◌≡◌, [], length, map, IfOk};
ghost use Rattle.names.specs.Letters.{letters};
ghost use Rattle.names.specs.Texts.{texts};

use crate::list::NameList;
use crate::name::{Name, NameRecord};
use std::alloc::{AllocError, Global};

impl<const MOST: usize> NameList<MOST> {
    // The list without names, with room for all that there may be.
    pub fn new(heap: Global) -> Result<NameList<MOST>, AllocError>
        ensures { IfOk result (λ l. texts l ≡ []) }
    {
        let names = Vec::with_capacity(heap, MOST)?;
        let filler = NameRecord {
            name: Name::filler(),
            number: 0,
        };
        let records = vec![in heap; filler; MOST]?;
        Ok(NameList { names, records })
    }

    // Takes every name out again; the room stays.
    pub fn clear(&mut self)
        ensures { texts self.new ≡ [] }
    {
        self.names.clear();
    }

    // The names, by number.
    pub fn names(&self) -> &[Name]
        ensures { map letters result.now ≡ texts self.now }
    {
        self.names.as_slice()
    }

    pub fn len(&self) -> usize
        ensures { result ≡ length (texts self.now) }
    {
        self.names.len()
    }
}
