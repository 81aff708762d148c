// The rules of standing sheets.
ghost use Rattle.std.specs.Prelude.{Decides};
ghost use Rattle.logic.specs.Books.{EachInclusion};
ghost use Rattle.logic.specs.Lines.{EachLine};
ghost use Rattle.logic.specs.Entries.{label_at, AnyEntry};
ghost use Rattle.logic.specs.Clashes.{Clashes};
ghost use Rattle.logic.specs.Standing.{CarriesConclusions, KeepsInclusion, Serves, Served, Settled, Stands};
ghost use Rattle.labels.specs.Ruled.{ruled};
ghost use Rattle.labels.specs.Labelled.{labelled};

use crate::case::Case;
use closing::entry::bare;
use labels::label::Label;
use labels::passing::Reach;
use labels::ruled::Ruled;
use terms::entry::Letter;
use terms::line::Line;

// Whether a label keeps what one of a standing sheet does, whatever the other entries.
fn settled_alone(tested: &Ruled<'_>) -> bool
    ensures { let b = ruled tested.now.rules.now in let label = labelled tested.now.label.now in Decides result (¬ Clashes b label × EachLine (CarriesConclusions b label) label × EachInclusion (KeepsInclusion b.fineness label) b) }
{
    !tested.clashes() && tested.carries_all_conclusions() && tested.keeps_inclusions()
}

impl<'c, 's> Case<'c, 's> {
    // Whether the entry k carries all that is passed on from the label `from`.
    fn serves(&self, k: usize, from: &[Line], z: Reach) -> bool
        ensures { Decides result (Serves (ruled self.now.rules) from.now z.role z.part z.bound (label_at self.now.entries k)) }
    {
        let label = self.entries.label(k);
        let ruled = Ruled {
            rules: &self.rules,
            label: &label,
        };
        ruled.serves(from, z)
    }

    // Whether some entry does.
    fn some_serves(&self, from: &[Line], z: Reach) -> bool
        ensures { Decides result (AnyEntry (λ e. Serves (ruled self.now.rules) from.now z.role z.part z.bound e.label) self.now.entries) }
    {
        (0..self.entries.count()).any(|k| self.serves(k, from, z))
    }

    // Whether some entry serves the line, if it leads to one.
    pub fn served(&self, label: &[Line], l: Line) -> bool
        ensures { Decides result (Served (ruled self.now.rules) self.now.entries label.now l) }
    {
        match self.rules.reach(l) {
            Some(z) => self.some_serves(label, z),
            None => true,
        }
    }

    fn all_served(&self, label: &[Line]) -> bool
        ensures { Decides result (EachLine (Served (ruled self.now.rules) self.now.entries label.now) label.now) }
    {
        label.iter().all(|l| self.served(label, *l))
    }

    // Whether a label keeps what one of a standing sheet does.
    pub fn settled(&self, label: &Label<'_>) -> bool
        ensures { Decides result (Settled (ruled self.now.rules) self.now.entries (labelled label.now)) }
    {
        let ruled = Ruled {
            rules: &self.rules,
            label,
        };
        settled_alone(&ruled) && self.all_served(label.lines())
    }

    // Whether the entry k is without fault, has the letter L and no field, and a settled label.
    pub fn stands(&self, k: usize) -> bool
        ensures { Decides result (Stands (ruled self.now.rules) self.now.entries k) }
    {
        let entry = self.entries.entry(k);
        entry.faultless(&self.rules)
            && entry.head.letter == Letter::L
            && bare(entry.head)
            && self.settled(&entry.label)
    }
}
