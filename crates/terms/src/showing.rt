// Concepts, inclusions and question lines as they are shown to a person.
ghost use Rattle.std.specs.Prelude.{Some};
ghost use Rattle.terms.specs.Showing.{concept_text, inclusion_text, comparison_text, question_line_text};

use crate::concept::{Concept, Inclusion};
use crate::question::{Comparison, QuestionLine};
use std::fmt;

impl fmt::Display for Concept {
    ghost output = { λ c. Some (concept_text c) };

    fn fmt<W: fmt::Write>(&self, f: &mut fmt::Formatter<W>) -> fmt::Result {
        match self {
            Concept::Heading(p) => write!(f, "heading {p}"),
            Concept::Constant(k) => write!(f, "the degree {k}"),
            Concept::Not(c) => write!(f, "not {c}"),
            Concept::Less(c, k) => write!(f, "{c} less {k}"),
            Concept::Lesser(c, d) => write!(f, "the lesser of {c} and {d}"),
            Concept::Exists(r, c) => write!(f, "some {r} that is {c}"),
        }
    }
}

impl fmt::Display for Inclusion {
    ghost output = { λ i. Some (inclusion_text i) };

    fn fmt<W: fmt::Write>(&self, f: &mut fmt::Formatter<W>) -> fmt::Result {
        let mark = if self.struck { ", struck" } else { "" };
        write!(f, "concept {} in concept {}{mark}", self.lower, self.upper)
    }
}

impl fmt::Display for Comparison {
    ghost output = { λ c. Some (comparison_text c) };

    fn fmt<W: fmt::Write>(&self, f: &mut fmt::Formatter<W>) -> fmt::Result {
        f.write_str(match self {
            Comparison::NotBelow => ">=",
            Comparison::Above => ">",
            Comparison::NotAbove => "<=",
            Comparison::Under => "<",
        })
    }
}

impl fmt::Display for QuestionLine {
    ghost output = { λ q. Some (question_line_text q) };

    fn fmt<W: fmt::Write>(&self, f: &mut fmt::Formatter<W>) -> fmt::Result {
        write!(
            f,
            "concept {} {} {}",
            self.concept, self.comparison, self.degree
        )
    }
}
