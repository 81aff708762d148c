// A label under the rules of a book, by which its lines are tested.
use crate::label::Label;
use crate::rules::Rules;

#[derive(Clone, Copy)]
pub struct Ruled<'a> {
    pub rules: &'a Rules<'a>,
    pub label: &'a Label<'a>,
}
