// Placing an element in a row.
ghost use Rattle.std.specs.Prelude.{◌≡◌, ◌<◌, ◌≤◌, true, is_ok, MatchBool};
ghost use Rattle.std.specs.List.{insert};
ghost use Rattle.row.specs.Order.{Ascending, LastBelow, LastNotBelow};
ghost use Rattle.row.specs.Rows.{items, room, Kept};
ghost use Rattle.row.specs.Placing.{InsertOutcome, InsertSorted, AppendOutcome};

use crate::order::Ordered;
use crate::{Row, Unplaced};

// Whether x is above the last element, if there is one.
fn above_last<T: Ordered>(items: &[T], x: &T) -> bool
    ensures { MatchBool result (LastBelow T.Ordered.cmp x.now items.now) (LastNotBelow T.Ordered.cmp x.now items.now) }
{
    items.last().is_none_or(|last| last.compare(x).is_lt())
}

impl<'a, T: Ordered> Row<'a, T> {
    // Puts x at i and moves what stood from there on one place on.
    fn put_at(&mut self, i: usize, x: T)
        requires room { self.old.len < room self.old }
        requires place { i ≤ self.old.len }
        ensures items { items self.new ≡ insert (items self.old) i x }
        ensures kept { Kept self.old self.new true }
        ensures lender { self.new.slots.ghost_name ≡ self.old.slots.ghost_name }
    {
        let n = self.len;
        self.slots.copy_within(i..n, i + 1);
        self.slots[i] = x;
        self.len = n + 1;
    }

    // Puts x in its place, unless an equal one is there or there is no room.
    pub fn insert(&mut self, x: T) -> Result<usize, Unplaced>
        ensures outcome { InsertOutcome T.Ordered.cmp x (items self.old) (room self.old) (items self.new) result }
        ensures sorted { Ascending T.Ordered.cmp (items self.old) → InsertSorted T.Ordered.cmp x (items self.old) (items self.new) result }
        ensures ascending { Ascending T.Ordered.cmp (items self.old) → Ascending T.Ordered.cmp (items self.new) }
        ensures kept { Kept self.old self.new (is_ok result) }
        ensures lender { self.new.slots.ghost_name ≡ self.old.slots.ghost_name }
    {
        let i = match self.search(&x) {
            Ok(i) => return Err(Unplaced::There(i)),
            Err(i) => i,
        };
        if self.len == self.slots.len() {
            return Err(Unplaced::Full);
        }
        self.put_at(i, x);
        Ok(i)
    }

    // Puts x after the last element, unless there is no room or it is not above that one.
    pub fn append(&mut self, x: T) -> Result<usize, Unplaced>
        ensures outcome { AppendOutcome T.Ordered.cmp x (items self.old) (room self.old) (items self.new) result }
        ensures ascending { Ascending T.Ordered.cmp (items self.old) → Ascending T.Ordered.cmp (items self.new) }
        ensures kept { Kept self.old self.new (is_ok result) }
        ensures lender { self.new.slots.ghost_name ≡ self.old.slots.ghost_name }
    {
        let n = self.len;
        if n == self.slots.len() {
            return Err(Unplaced::Full);
        }
        if !above_last(self.as_slice(), &x) {
            return Err(Unplaced::NotAbove);
        }
        self.slots[n] = x;
        self.len = n + 1;
        Ok(n)
    }
}
