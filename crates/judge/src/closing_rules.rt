// The rules of closing sheets.
ghost use Rattle.std.specs.Prelude.{Decides};
ghost use Rattle.logic.specs.Closing.{Closes};
ghost use Rattle.labels.specs.Ruled.{ruled};

use crate::case::Case;
use closing::entry::ClosingEntry;
use labels::ruled::Ruled;

impl<'c, 's> Case<'c, 's> {
    // Whether the entry k is without fault, and keeps the rule of its letter.
    pub fn closes(&self, k: usize) -> bool
        ensures { Decides result (Closes (ruled self.now.rules) self.now.entries k) }
    {
        let entry = self.entries.entry(k);
        let closing = ClosingEntry {
            number: k,
            head: entry.head,
            ruled: Ruled {
                rules: &self.rules,
                label: &entry.label,
            },
            first: self.entries.lines(entry.head.first),
            second: self.entries.lines(entry.head.second),
        };
        entry.faultless(&self.rules) && closing.keeps_rule()
    }
}
