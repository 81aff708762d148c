// The question beside a rule book.
#![tactic(auto)]

ghost use Rattle.std.specs.Prelude.{◌≤◌};
ghost use Rattle.arrayvec.specs.ArrayVec.{array_vec_len};

use arrayvec::ArrayVec;
use terms::question::QuestionLine;

mod lines;
mod retest;
pub mod trial;

const MOST_LINES: usize = 32;

// A question: at most 32 lines, numbered from 0 as entered.
#[derive(Drop)]
pub struct Question {
    lines: ArrayVec<QuestionLine, MOST_LINES>,
    ghost few: { array_vec_len lines ≤ 32 },
}
