// What follows from a line of a label at the same individual.
ghost use Rattle.std.specs.Prelude.{◌≡◌, ◌*◌, pos, ◌+ℤ◌, ◌-ℤ◌, Decides, IfSome};
ghost use Rattle.std.specs.List.{AllByRecursion};
ghost use Rattle.logic.specs.Lines.{line, other, EachLine, Carries};
ghost use Rattle.logic.specs.Conclusions.{conclusions, conclusions_of, Among};
ghost use Rattle.logic.specs.Standing.{Chooses, CarriesConclusions};
ghost use Rattle.labels.specs.Ruled.{ruled};
ghost use Rattle.labels.specs.Labelled.{labelled};
ghost use Rattle.labels.specs.Following.{followed};

use crate::ruled::Ruled;
use crate::rules::Rules;
use logic::claim::Claim;
use logic::lines::other;
use terms::concept::Concept;
use terms::line::{Line, Side};

// The conclusions of a line: none, one or two.
type Follows = [Option<Claim>; 2];

// By 'not c': twice the fineness less the bound, on the other side.
fn contrary(fineness: u32, c: usize, l: Line) -> Claim
    ensures { result ≡ line c (other l.side) (pos (2 * fineness) -ℤ l.bound) }
{
    Claim {
        concept: c,
        side: other(l.side),
        bound: 2 * (fineness as i64) - l.bound as i64,
    }
}

// By 'c less k': the bound and 2k, on the same side.
fn raised(c: usize, k: u32, l: Line) -> Claim
    ensures { result ≡ line c l.side (l.bound +ℤ pos (2 * k)) }
{
    Claim {
        concept: c,
        side: l.side,
        bound: l.bound as i64 + 2 * (k as i64),
    }
}

// The line, said of the concept c.
fn same_of(c: usize, l: Line) -> Claim
    ensures { result ≡ line c l.side l.bound }
{
    Claim {
        concept: c,
        side: l.side,
        bound: l.bound as i64,
    }
}

// What follows from a line on a concept of the form given.
fn follows_by(fineness: u32, form: Concept, l: Line) -> Follows
    ensures { followed result ≡ conclusions fineness form l.side l.bound }
{
    match (form, l.side) {
        (Concept::Not(c), _) => [Some(contrary(fineness, c, l)), None],
        (Concept::Less(_, _), Side::AtLeast) if l.bound < 1 => [None, None],
        (Concept::Less(c, k), _) => [Some(raised(c, k, l)), None],
        (Concept::Lesser(c, d), Side::AtLeast) => [Some(same_of(c, l)), Some(same_of(d, l))],
        _ => [None, None],
    }
}

// Whether the line is one of those.
fn is_among(all: Follows, l: Line) -> bool
    ensures { Decides result (Among (followed all) l) }
{
    all.contains(&Some(Claim::from(l)))
}

impl<'a> Rules<'a> {
    // The conclusions of a line.
    fn conclusions(&self, l: Line) -> Follows
        ensures { followed result ≡ conclusions_of (ruled self.now) l }
    {
        follows_by(self.fineness(), self.concept(l.concept), l)
    }

    // Whether the line l is a conclusion of the line `from`.
    pub fn concludes(&self, from: Line, l: Line) -> bool
        ensures { Decides result (Among (conclusions_of (ruled self.now) from) l) }
    {
        is_among(self.conclusions(from), l)
    }
}

impl<'a> Ruled<'a> {
    // Whether the label carries what is claimed, if anything is.
    fn carries_if(&self, w: Option<Claim>) -> bool
        ensures { Decides result (IfSome w (Carries (ruled self.now.rules.now).fineness (labelled self.now.label.now))) }
    {
        // (By `is_none_or` the proof does not close by itself.)
        match w {
            Some(w) => self.carries(w),
            None => true,
        }
    }

    // Whether the label carries all of them.
    fn carries_all(&self, all: Follows) -> bool
        ensures { Decides result (AllByRecursion (Carries (ruled self.now.rules.now).fineness (labelled self.now.label.now)) (followed all)) }
    {
        all.iter().all(|w| self.carries_if(*w))
    }

    // Of 'the lesser of c and d at most z', whether the label carries 'c at most z' or 'd at most z'.
    fn chooses(&self, form: Concept, l: Line) -> bool
        ensures { Decides result (Chooses (ruled self.now.rules.now).fineness (labelled self.now.label.now) form l.side l.bound) }
    {
        match (form, l.side) {
            (Concept::Lesser(c, d), Side::AtMost) => {
                self.carries(same_of(c, l)) || self.carries(same_of(d, l))
            }
            _ => true,
        }
    }

    // Whether the label carries what its line l concludes.
    pub fn carries_conclusions(&self, l: Line) -> bool
        ensures { Decides result (CarriesConclusions (ruled self.now.rules.now) (labelled self.now.label.now) l) }
    {
        self.carries_all(self.rules.conclusions(l))
            && self.chooses(self.rules.concept(l.concept), l)
    }

    // Whether the label carries what each of its lines concludes.
    pub fn carries_all_conclusions(&self) -> bool
        ensures { Decides result (EachLine (CarriesConclusions (ruled self.now.rules.now) (labelled self.now.label.now)) (labelled self.now.label.now)) }
    {
        self.label
            .lines()
            .iter()
            .all(|l| self.carries_conclusions(*l))
    }
}
