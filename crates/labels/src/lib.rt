// Tests on the labels of a sheet's entries: faults, look-ups, clashes, conclusions, what is passed on, inclusions.
// Each answers exactly as the relation of `logic` that its contract cites, on every label, rising or not.
#![tactic(auto)]

pub mod adding;
pub mod carrying;
pub mod clashing;
pub mod conclusions;
pub mod faults;
pub mod inclusions;
pub mod label;
pub mod passing;
mod rising;
pub mod ruled;
pub mod rules;
mod scanning;
pub mod serving;
