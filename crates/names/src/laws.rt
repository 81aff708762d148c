// The order of names, and its laws.
ghost use Rattle.std.specs.Prelude.{◌≡◌};
ghost use Rattle.names.specs.declared.name.NameRecord.{NameRecord};
ghost use Rattle.names.specs.Order.{record_order, NamesInOrder};

use crate::name::NameRecord;

// It does nothing: its contract says that the derived order of records is that of names, and what its laws are.
pub fn names_are_in_order()
    ensures derived { (x y : NameRecord) → ⟦<NameRecord as Ord>⟧.cmp x y ≡ record_order x y }
    ensures laws { NamesInOrder }
{}
