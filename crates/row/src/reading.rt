// Making a row, and reading it.
ghost use Rattle.std.specs.Prelude.{◌≡◌, min, length};
ghost use Rattle.std.specs.List.{slice_get};
ghost use Rattle.row.specs.Order.{Ascending};
ghost use Rattle.row.specs.Search.{SearchOutcome, SearchSorted};
ghost use Rattle.row.specs.Rows.{items};

use crate::Row;
use crate::order::Ordered;

impl<'a, T: Ordered> Row<'a, T> {
    // The row of the first len slots, or of them all where there are fewer.
    pub fn over(slots: &'a mut [T], len: usize) -> Row<'a, T>
        ensures len { result.len ≡ min len (length slots.old) }
        ensures slots { result.slots.now ≡ slots.old }
        ensures lender { result.slots.ghost_name ≡ slots.entry.ghost_name }
    {
        let most = slots.len();
        Row {
            slots,
            len: len.min(most),
        }
    }

    pub fn len(&self) -> usize
        ensures { (result ≡ self.now.len) × (result ≡ length (items self.now)) }
    {
        self.len
    }

    pub fn as_slice(&self) -> &[T]
        ensures { result.now ≡ items self.now }
    {
        &self.slots[0..self.len]
    }

    // The element at i, or None past the row.
    pub fn get(&self, i: usize) -> Option<T>
        ensures { result ≡ slice_get (items self.now) i }
    {
        self.as_slice().get(i).copied()
    }

    // Where an element that equals x stands, or else where x would go.
    pub fn search(&self, x: &T) -> Result<usize, usize>
        ensures outcome { SearchOutcome T.Ordered.cmp x.now (items self.now) result }
        ensures sorted { Ascending T.Ordered.cmp (items self.now) → SearchSorted T.Ordered.cmp x.now (items self.now) result }
    {
        crate::search(self.as_slice(), x)
    }
}
