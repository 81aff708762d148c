// What a judgement of a sheet comes to.
ghost use Rattle.std.specs.Prelude.{◌≡◌, Some};
ghost use Rattle.judge.specs.Verdicts.{verdict_of, verdict_text};

use std::fmt;
use terms::entry::Kind;

// The sheet shows that nothing meets book and question, or that something does; with its root.
#[derive(Clone, Copy, PartialEq, Eq, Debug)]
pub enum Verdict {
    Closed(usize),
    Stands(usize),
}

impl Verdict {
    // The verdict on an accepted sheet of the kind with the root.
    pub fn of(kind: Kind, root: usize) -> Verdict
        ensures { result ≡ verdict_of kind root }
    {
        match kind {
            Kind::Closing => Verdict::Closed(root),
            Kind::Standing => Verdict::Stands(root),
        }
    }
}

impl fmt::Display for Verdict {
    ghost output = { λ v. Some (verdict_text v) };

    fn fmt<W: fmt::Write>(&self, f: &mut fmt::Formatter<W>) -> fmt::Result {
        match self {
            Verdict::Closed(root) => write!(f, "closed at entry {root}: no such piece can exist"),
            Verdict::Stands(root) => write!(f, "stands at entry {root}: such a piece can exist"),
        }
    }
}
