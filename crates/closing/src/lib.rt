// Entries of a sheet as they are read, and the rules of a closing sheet's letters, each for one entry with the labels of the children that it names.
// Each function answers exactly as the relation of `logic` that its contract cites, on every label, rising or not, and whatever the entry says.
#![tactic(auto)]

pub mod clash;
pub mod conclude;
pub mod cut;
pub mod entry;
pub mod exists;
pub mod forms;
pub mod lesser;
pub mod root;
pub mod rule;
