// Entries as they are read.
ghost use Rattle.std.specs.Prelude.{◌≡◌, ◌<◌, ◌≤◌, length, Decides, MatchOption};
ghost use Rattle.logic.specs.Entries.{Faultless, Bare};
ghost use Rattle.logic.specs.Closing.{placed, placed_form, OneChild, TwoChildren, NoInclusion};
ghost use Rattle.labels.specs.Ruled.{ruled};
ghost use Rattle.labels.specs.Labelled.{labelled};
ghost use Rattle.closing.specs.Entered.{entry_read};

use labels::label::Label;
use labels::ruled::Ruled;
use labels::rules::Rules;
use terms::concept::Concept;
use terms::entry::Head;
use terms::line::Line;

// Whether all five fields beside the letter are 0.
pub fn bare(head: Head) -> bool
    ensures { Decides result (Bare head) }
{
    head.place == 0 && head.first == 0 && head.second == 0 && head.inclusion == 0 && head.step == 0
}

// An entry of a sheet of either kind: what it says besides its label, whether it and all its lines lie in the store, and the lines of its label that do.
#[derive(Clone, Copy)]
pub struct EntryRead<'a> {
    pub head: Head,
    pub lies: bool,
    pub label: Label<'a>,
}

impl<'a> EntryRead<'a> {
    // Whether the entry is without fault: it lies in the store, its lines rise, its bounds keep their range, and its concepts stand in the book.
    pub fn faultless(&self, rules: &Rules<'_>) -> bool
        ensures { Decides result (Faultless (ruled rules.now) (entry_read self.now)) }
    {
        self.lies
            && self.label.rises()
            && self.label.bounds_in_range()
            && rules.concepts_stand(self.label.lines())
    }
}

// An entry of a closing sheet: its number, what it says besides its label, its label under the rules of a book, and the labels of the children that it names.
#[derive(Clone, Copy)]
pub struct ClosingEntry<'a> {
    pub number: usize,
    pub head: Head,
    pub ruled: Ruled<'a>,
    pub first: &'a [Line],
    pub second: &'a [Line],
}

impl<'a> ClosingEntry<'a> {
    // The line at the entry's place, if there is one.
    pub fn line_at_place(&self) -> Option<Line>
        ensures { let label = labelled self.now.ruled.label.now in MatchOption result (length label ≤ self.now.head.place) (λ l. (self.now.head.place < length label) × (l ≡ placed self.now.head label)) }
    {
        self.ruled.label.lines().get(self.head.place).copied()
    }

    // The concept of that line.
    pub fn form_at_place(&self) -> Option<Concept>
        ensures { let label = labelled self.now.ruled.label.now in MatchOption result (length label ≤ self.now.head.place) (λ form. (self.now.head.place < length label) × (form ≡ placed_form (ruled self.now.ruled.rules.now) self.now.head label)) }
    {
        let line = self.line_at_place()?;
        Some(self.ruled.rules.concept(line.concept))
    }

    // Whether a line of the label stands at the entry's place.
    pub fn has_place(&self) -> bool
        ensures { Decides result (self.now.head.place < length (labelled self.now.ruled.label.now)) }
    {
        self.head.place < self.ruled.label.lines().len()
    }

    // The line at the entry's place; past the last, 'concept 0 at least 0'.
    pub fn placed(&self) -> Line
        ensures { result ≡ placed self.now.head (labelled self.now.ruled.label.now) }
    {
        self.line_at_place().unwrap_or_default()
    }

    // The concept of that line.
    pub fn placed_form(&self) -> Concept
        ensures { result ≡ placed_form (ruled self.now.ruled.rules.now) self.now.head (labelled self.now.ruled.label.now) }
    {
        self.ruled.rules.concept(self.placed().concept)
    }

    // Whether the entry names one child, of a lower number.
    pub fn one_child(&self) -> bool
        ensures { Decides result (OneChild self.now.number self.now.head) }
    {
        self.head.first < self.number && self.head.second == 0
    }

    // Whether the entry names two children, of lower numbers.
    pub fn two_children(&self) -> bool
        ensures { Decides result (TwoChildren self.now.number self.now.head) }
    {
        self.head.first < self.number && self.head.second < self.number
    }

    // Whether the entry names no inclusion and no step.
    pub fn no_inclusion(&self) -> bool
        ensures { Decides result (NoInclusion self.now.head) }
    {
        self.head.inclusion == 0 && self.head.step == 0
    }
}
