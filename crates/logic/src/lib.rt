// The logic of graded books: what a book and a question mean, and by which sheets it is shown that they can be met or cannot.
// specs/ has the definitions and the theorems, proofs/ their proofs, and src/ the theorems as contracts and a few functions on lines.
#![tactic(auto)]

pub mod claim;
pub mod lines;
pub mod theorems;
