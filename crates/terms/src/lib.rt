// The vocabulary that every other crate shares: concepts, inclusions, question lines, the lines and entries of sheets, refusals.
#![tactic(auto)]

pub mod concept;
pub mod entry;
pub mod laws;
pub mod line;
pub mod order;
pub mod question;
pub mod refusal;
pub mod showing;
pub mod words;
