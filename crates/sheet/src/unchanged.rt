// Refusals that give back what was handed in.
ghost use Rattle.std.specs.Prelude.{◌≡◌, Some};
ghost use Rattle.terms.specs.Showing.{refused_text};

use std::error::Error;
use std::fmt;
use terms::refusal::Refused;

// A refusal, and what was handed in, as it was: a sheet, or what a caller's own call gives back so.
#[derive(Debug, Drop)]
pub struct Unchanged<T> {
    pub value: T,
    pub refused: Refused,
}

impl<T: Drop> From<Unchanged<T>> for Refused {
    ghost from_gives = { λ u r. r ≡ u.refused };

    fn from(unchanged: Unchanged<T>) -> Refused {
        unchanged.refused
    }
}

impl<T> fmt::Display for Unchanged<T> {
    ghost output = { λ u. Some (refused_text u.refused) };

    fn fmt<W: fmt::Write>(&self, f: &mut fmt::Formatter<W>) -> fmt::Result {
        self.refused.fmt(f)
    }
}

impl<T: fmt::Debug + Drop> Error for Unchanged<T> {}
