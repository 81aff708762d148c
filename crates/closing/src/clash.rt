// Z: the label clashes.
ghost use Rattle.std.specs.Prelude.{Decides};
ghost use Rattle.logic.specs.Closing.{ClashRule};
ghost use Rattle.labels.specs.Ruled.{ruled};
ghost use Rattle.labels.specs.Labelled.{labelled};

use crate::entry::{ClosingEntry, bare};

impl<'a> ClosingEntry<'a> {
    // Whether the label clashes, and the entry uses no field.
    pub fn clash_rule(&self) -> bool
        ensures { Decides result (ClashRule (ruled self.now.ruled.rules.now) self.now.head (labelled self.now.ruled.label.now)) }
    {
        self.ruled.clashes() && bare(self.head)
    }
}
