// The entries of a finished sheet, as the tests read them.
ghost use Rattle.std.specs.Prelude.{◌≡◌, length, slice_index_or};
ghost use Rattle.logic.specs.Entries.{entry_at, label_at};
ghost use Rattle.labels.specs.Labelled.{labelled};
ghost use Rattle.closing.specs.Entered.{entry_read};
ghost use Rattle.sheet.specs.Entries.{zero_slot};
ghost use Rattle.judge.specs.Views.{sheet_of};

use closing::entry::EntryRead;
use labels::label::Label;
use sheet::{EntrySlot, Finished};
use std::marker::Model;
use terms::entry::Head;
use terms::line::Line;

// The slot of an entry; past the last, one of zeros.
fn slot(slots: &[EntrySlot], k: usize) -> EntrySlot
    ensures { result ≡ slice_index_or slots.now k zero_slot }
{
    slots.get(k).copied().unwrap_or_default()
}

// The entries of a finished sheet, with those that are counted past its store. Contracts see the theory's sheet.
#[derive(Drop)]
pub struct Entries<'s, 'a> {
    sheet: &'s Finished<'a>,
}

impl<'s, 'a> Model for Entries<'s, 'a> {
    ghost use Rattle.std.specs.Prelude.{List};
    ghost use Rattle.logic.specs.Entries.{Entry};

    ghost Value = { List Entry };

    ghost use Rattle.judge.specs.Views.{sheet_of};

    ghost view = { λ e. sheet_of e.sheet.now };
}

impl<'s, 'a> Entries<'s, 'a> {
    pub fn new(sheet: &'s Finished<'a>) -> Entries<'s, 'a>
        ensures { result ≡ sheet_of sheet.now }
    {
        Entries { sheet }
    }

    // How many entries the sheet has.
    #[tactic(auto, using(crate::proofs::Seeing::counted))]
    pub fn count(&self) -> usize
        ensures { result ≡ length self.now }
    {
        self.sheet.used()
    }

    // What an entry says besides its label.
    #[tactic(auto, using(crate::proofs::Seeing::head_is))]
    pub fn head(&self, k: usize) -> Head
        ensures { result ≡ (entry_at self.now k).head }
    {
        slot(self.sheet.entries(), k).head
    }

    // Whether an entry and its lines lie in the store; of what is no entry it is true.
    #[tactic(auto, using(crate::proofs::Seeing::lies_past, crate::proofs::Seeing::counted))]
    pub fn lies(&self, k: usize) -> bool
        ensures { result ≡ (entry_at self.now k).lies }
    {
        k >= self.count() || self.sheet.lies(k)
    }

    // The lines of an entry that lie in the store.
    #[tactic(auto, using(crate::proofs::Seeing::label_is))]
    pub fn lines(&self, k: usize) -> &'s [Line]
        ensures { result.now ≡ label_at self.now k }
    {
        self.sheet.label(k)
    }

    // The label of an entry.
    pub fn label(&self, k: usize) -> Label<'s>
        ensures { labelled result ≡ label_at self.now k }
    {
        Label::new(self.lines(k))
    }

    pub fn entry(&self, k: usize) -> EntryRead<'s>
        ensures { entry_read result ≡ entry_at self.now k }
    {
        EntryRead {
            head: self.head(k),
            lies: self.lies(k),
            label: self.label(k),
        }
    }
}
