// Names by number, and the same names in order.
ghost use Rattle.std.specs.Prelude.{◌≡◌, ℕ, ◌≤◌, length, take, vec_capacity};
ghost use Rattle.std.specs.List.Sorted.{IsStrictlySortedBy-prop};
ghost use Rattle.row.specs.Order.{Climbing};
ghost use Rattle.names.specs.Order.{record_order};
ghost use Rattle.names.specs.Numbered.{Numbered, Listed};

use crate::name::{Name, NameRecord};

mod entering;
mod making;

// Names that differ, at most MOST, numbered from 0 as entered. `records` begins with a row of them in order, by which one is found.
// It has all MOST slots from the first, and lends them to a `Row` for each call: a row is a struct over a lent slice, and entering a name allocates nothing.
#[derive(Drop)]
pub struct NameList<const MOST: usize> {
    names: Vec<Name>,
    records: Vec<NameRecord>,
    ghost whole: { length records.items ≡ MOST },
    ghost few: { length names.items ≤ MOST },
    ghost room: { MOST ≤ vec_capacity names },
    ghost up: { Climbing record_order (take (length names.items) records.items) } by { IsStrictlySortedBy-prop record_order (take (length names.items) records.items) },
    ghost numbered: { Numbered names.items (take (length names.items) records.items) },
    ghost listed: { Listed names.items (take (length names.items) records.items) },
}
