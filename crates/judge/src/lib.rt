// Judging finished sheets: whether a sheet shows that nothing meets book and question, or that something does.
#![tactic(auto)]

pub mod case;
pub mod closing_rules;
pub mod entries;
pub mod judging;
pub mod laws;
pub mod roots;
pub mod standing;
pub mod trial;
pub mod verdict;
