// Entering a name in a list, and looking names up.
ghost use Rattle.std.specs.Prelude.{◌≡◌, ℕ, ◌+◌, ◌<◌, ◌≤◌, [], ◌∷◌, ◌++◌, length, take, is_ok, IfOk, if◌then◌else◌, MatchOption, slice_index_or};
ghost use Rattle.row.specs.Order.{Ascending};
ghost use Rattle.terms.specs.Answers.{Answered};
ghost use Rattle.names.specs.Order.{record_order};
ghost use Rattle.names.specs.Texts.{texts};
ghost use Rattle.names.specs.Entering.{NameGround, Placed, numbered};

use crate::list::NameList;
use crate::name::{Name, NameRecord};
use row::{Row, Unplaced};
use terms::refusal::Refusal;

// Puts a record of the name, under the number `len`, into its place in the row of the first `len` slots.
fn place(slots: &mut [NameRecord], len: usize, name: &Name) -> Result<usize, Unplaced>
    requires within { len ≤ length slots.old }
    requires up { Ascending record_order (take len slots.old) }
    ensures { Placed (numbered name.now len) len slots.old slots.new result }
{
    let mut row = Row::over(slots, len);
    row.insert(NameRecord {
        name: *name,
        number: len,
    })
}

// The same in a list that owns its records. (With `as_mut_slice` in `enter` itself, each answer there would carry what the slice leaves of the list.)
fn place_owned(records: &mut Vec<NameRecord>, len: usize, name: &Name) -> Result<usize, Unplaced>
    requires within { len ≤ length records.old.items }
    requires up { Ascending record_order (take len records.old.items) }
    ensures { Placed (numbered name.now len) len records.old.items records.new.items result }
{
    place(records.as_mut_slice(), len, name)
}

impl<const MOST: usize> NameList<MOST> {
    // The name of a number.
    pub fn name(&self, number: usize) -> Option<&str>
        ensures { MatchOption result (length (texts self.now) ≤ number) (λ t. (number < length (texts self.now)) × (t.now ≡ slice_index_or (texts self.now) number [])) }
    {
        self.names.get(number).map(Name::as_str)
    }

    // Enters a name; returns its number.
    pub fn enter(&mut self, text: &str) -> Result<usize, Refusal>
        ensures answer { Answered (NameGround MOST (texts self.old) text.now) result }
        ensures number { IfOk result (λ k. k ≡ length (texts self.old)) }
        ensures after { texts self.new ≡ (if is_ok result then texts self.old ++ text.now ∷ [] else texts self.old) }
    {
        let number = self.len();
        if number >= MOST {
            return Err(Refusal::Full);
        }
        let name = text.parse::<Name>()?;
        // A match and no `map_err`: what the row answered stays in sight of the proof.
        match place_owned(&mut self.records, number, &name) {
            Ok(_) => {
                self.names.push_reserved(name);
                Ok(number)
            }
            Err(_) => Err(Refusal::Already),
        }
    }
}
