// The rule of an entry's letter.
ghost use Rattle.std.specs.Prelude.{Decides};
ghost use Rattle.logic.specs.Closing.{Rule};
ghost use Rattle.labels.specs.Ruled.{ruled};
ghost use Rattle.labels.specs.Labelled.{labelled};

use crate::entry::ClosingEntry;
use terms::entry::Letter;

impl<'a> ClosingEntry<'a> {
    // Whether the entry keeps the rule of its letter. L has none in a closing sheet.
    pub fn keeps_rule(&self) -> bool
        ensures { Decides result (Rule self.now.head.letter (ruled self.now.ruled.rules.now) self.now.number self.now.head (labelled self.now.ruled.label.now) self.now.first.now self.now.second.now) }
    {
        match self.head.letter {
            Letter::Z => self.clash_rule(),
            Letter::N => self.not_rule(),
            Letter::S => self.less_rule(),
            Letter::M => self.lesser_rule(),
            Letter::I => self.inclusion_rule(),
            Letter::E => self.exists_rule(),
            Letter::L => false,
        }
    }
}
