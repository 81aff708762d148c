// Refusals that give back the store.
ghost use Rattle.std.specs.Prelude.{◌≡◌, Some};
ghost use Rattle.terms.specs.Showing.{refused_text};

use crate::EntrySlot;
use std::error::Error;
use std::fmt;
use terms::line::Line;
use terms::refusal::Refused;

// A refusal, and the store (backing arrays) as it was. The slices stand in it themselves, as in a sheet, and for the same reason.
#[derive(Debug, Drop)]
pub struct NotTaken<'a> {
    pub entries: &'a mut [EntrySlot],
    pub lines: &'a mut [Line],
    pub refused: Refused,
}

impl<'a> From<NotTaken<'a>> for Refused {
    ghost from_gives = { λ n r. r ≡ n.refused };

    fn from(not_taken: NotTaken<'a>) -> Refused {
        not_taken.refused
    }
}

impl<'a> fmt::Display for NotTaken<'a> {
    ghost output = { λ n. Some (refused_text n.refused) };

    fn fmt<W: fmt::Write>(&self, f: &mut fmt::Formatter<W>) -> fmt::Result {
        self.refused.fmt(f)
    }
}

impl<'a> Error for NotTaken<'a> {}
