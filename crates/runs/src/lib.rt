// Lists of calls on a book and its question, and the law of what they come to.
#![tactic(auto)]

mod calls;
mod performing;

pub use calls::Call;
pub use performing::{perform, replay, words_stand};
