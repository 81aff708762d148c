// The rule book, kept by calls that refuse whatever would spoil it. What always holds of a book stands in its type.
#![tactic(auto)]

ghost use Rattle.std.specs.Prelude.{ℕ, ◌≤◌, length, vec_capacity};
ghost use Rattle.names.specs.Texts.{texts};
ghost use Rattle.book.specs.Citing.{Founded, Graded, Apart, Joined};

use crate::fineness::Fineness;
use crate::table::InclusionTable;
use names::NameList;
use terms::concept::Concept;

mod checks;
mod entering;
mod fineness;
mod laws;
mod making;
mod naming;
mod reading;
mod table;

pub use laws::every_book_is_sound;

pub const MOST_HEADINGS: usize = 64;

pub const MOST_ROLES: usize = 16;

const MOST_CONCEPTS: usize = 128;

// A rule book (a TBox): its fineness, and headings, roles, concepts and inclusions, each numbered from 0 as entered. All room is reserved when it is made.
#[derive(Drop)]
pub struct Book {
    fineness: Fineness,
    headings: NameList<MOST_HEADINGS>,
    roles: NameList<MOST_ROLES>,
    concepts: Vec<Concept>,
    inclusions: InclusionTable,
    ghost few: { length concepts.items ≤ 128 },
    ghost room: { 128 ≤ vec_capacity concepts },
    ghost founded: { Founded (length (texts headings)) (length (texts roles)) concepts.items },
    ghost graded: { Graded fineness.steps concepts.items },
    ghost apart: { Apart concepts.items },
    ghost joined: { Joined (length concepts.items) inclusions.records.items },
}
