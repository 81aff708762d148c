// Entering headings and roles.
ghost use Rattle.book.specs.States.{enter, a_heading, a_role};
ghost use Rattle.book.specs.Steps.{Step, alone};
ghost use Rattle.book.specs.Models.{model};

use crate::Book;
use terms::refusal::Refused;

impl Book {
    // Enters a heading; returns its number.
    pub fn enter_heading(&mut self, name: &str) -> Result<usize, Refused>
        ensures { Step (alone (model self.old)) (enter (a_heading name.now)) result (alone (model self.new)) }
    {
        Ok(self.headings.enter(name)?)
    }

    // Enters a role; returns its number. (A call beside the other: each has a list of its own type, and a ground of its own.)
    pub fn enter_role(&mut self, name: &str) -> Result<usize, Refused>
        ensures { Step (alone (model self.old)) (enter (a_role name.now)) result (alone (model self.new)) }
    {
        Ok(self.roles.enter(name)?)
    }
}
