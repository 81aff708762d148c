// A name, and records of names.
ghost use Rattle.names.specs.Spelling.{NoName};

use arrayvec::ArrayString;

mod order;
mod spelling;

// The most letters of a name.
const LONGEST: usize = 12;

// A name: 1 to 12 ASCII letters, digits or hyphens. Names stand byte by byte, a shorter one before what continues it.
#[derive(Clone, Copy, PartialEq, Eq, PartialOrd, Ord, Debug)]
pub struct Name {
    text: ArrayString<LONGEST>,
    ghost proper: { NoName text.bytes → ⊥ },
}

// A name with the number that it was entered under. Records stand as their names do.
#[derive(Clone, Copy)]
#[derive_where(PartialEq, Eq, PartialOrd, Ord)]
pub struct NameRecord {
    pub name: Name,
    #[derive_where(skip(EqHashOrd))]
    pub number: usize,
}
