// Refusals by number and in words, and without a place.
ghost use Rattle.std.specs.Prelude.{◌≡◌, Some};
ghost use Rattle.terms.specs.declared.refusal.Refusal.TheVariants.{NoMemory};
ghost use Rattle.terms.specs.Refusals.{number, unplaced};
ghost use Rattle.terms.specs.Showing.{refused_text};
ghost use Rattle.terms.specs.Words.{words};

use crate::refusal::{Refusal, Refused};
use std::alloc::AllocError;
use std::error::Error;
use std::fmt;

impl Refusal {
    // The refusal's number, or 0 for want of memory.
    pub fn number(self) -> u8
        ensures { result ≡ number self }
    {
        self as u8
    }

    // What is wrong, and what to mend.
    pub fn words(self) -> &'static str
        ensures { result.now ≡ words self }
    {
        match self {
            Refusal::Fineness => "the fineness is outside 1 to 1000: choose one within",
            Refusal::Full =>
                "there are as many as there may be: do without it, or begin another book or question",
            Refusal::Missing =>
                "a number cites nothing that stands: enter that first, or cite another",
            Refusal::TooHigh => "a degree is above the fineness or the top: lower it",
            Refusal::BadName => "that is no name: use 1 to 12 letters, digits or hyphens",
            Refusal::Already => "it is there already, or struck already: leave it, or change it",
            Refusal::NoLines => "the question has no lines: enter one",
            Refusal::NoRoom =>
                "the store is too short, or the sheet has 1,024 entries: lend more room, or draw up a shorter one",
            Refusal::OutOfOrder =>
                "the line is not above the entry's last, or its bound is outside -1 to 4,000: sort the lines, or mend the bound",
            Refusal::BrokenRule => "an entry breaks a rule of its kind: mend that entry",
            Refusal::BadRoot =>
                "the root is no entry, or does not fit the question: name another, or mend its lines",
            Refusal::Unfit =>
                "the holding is not fit for the book, or a standing sheet has over 64 entries: take another scale or size",
            Refusal::BadText => "the text is not as it would be written here: mend that line",
            Refusal::NoMemory => "no memory was to be had: nothing has changed, so try again",
        }
    }
}

// A refusal by itself speaks of no place.
impl From<Refusal> for Refused {
    ghost from_gives = { λ e r. r ≡ unplaced e };

    fn from(refusal: Refusal) -> Refused {
        Refused { refusal, place: 0 }
    }
}

impl From<AllocError> for Refused {
    ghost from_gives = { λ _ r. r ≡ unplaced NoMemory };

    fn from(_: AllocError) -> Refused {
        Refusal::NoMemory.into()
    }
}

impl fmt::Display for Refusal {
    ghost output = { λ e. Some (words e) };

    fn fmt<W: fmt::Write>(&self, f: &mut fmt::Formatter<W>) -> fmt::Result {
        f.write_str(self.words())
    }
}

impl fmt::Display for Refused {
    ghost output = { λ x. Some (refused_text x) };

    fn fmt<W: fmt::Write>(&self, f: &mut fmt::Formatter<W>) -> fmt::Result {
        let number = self.refusal.number();
        write!(
            f,
            "refused with {number} at {}: {}",
            self.place, self.refusal
        )
    }
}

impl Error for Refusal {}

impl Error for Refused {}
