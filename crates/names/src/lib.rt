// Names: what one may be, their order, and lists of names that differ.
#![tactic(auto)]

mod laws;
mod list;
mod name;

pub use laws::names_are_in_order;
pub use list::NameList;
pub use name::{Name, NameRecord};
