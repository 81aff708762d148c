// E: by a line 'some r that is c at least z'.
ghost use Rattle.std.specs.Prelude.{Decides};
ghost use Rattle.logic.specs.Closing.{ExistsRule};
ghost use Rattle.labels.specs.Ruled.{ruled};
ghost use Rattle.labels.specs.Labelled.{labelled};

use crate::entry::ClosingEntry;

impl<'a> ClosingEntry<'a> {
    // E: whether the one child has only lines that the line at the place passes on.
    pub fn exists_rule(&self) -> bool
        ensures { Decides result (ExistsRule (ruled self.now.ruled.rules.now) self.now.number self.now.head (labelled self.now.ruled.label.now) self.now.first.now) }
    {
        let Some(line) = self.line_at_place() else {
            return false;
        };
        // (By `is_some_and` the proof does not close by itself.)
        match self.ruled.rules.reach(line) {
            Some(reach) => {
                self.one_child() && self.no_inclusion() && self.ruled.passes_all(reach, self.first)
            }
            None => false,
        }
    }
}
