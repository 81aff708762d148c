// Whether the root of a sheet fits the question.
ghost use Rattle.std.specs.Prelude.{◌≡◌, Decides};
ghost use Rattle.logic.specs.Meeting.{EachAsked, AnyAsked};
ghost use Rattle.logic.specs.Lines.{EachLine, Carries, half_line};
ghost use Rattle.logic.specs.Entries.{label_at};
ghost use Rattle.logic.specs.Closing.{ClosingFits};
ghost use Rattle.logic.specs.Standing.{StandingFits};
ghost use Rattle.labels.specs.Ruled.{ruled};
ghost use Rattle.labels.specs.Labelled.{labelled};

use crate::case::Case;
use closing::root::root_asks;
use labels::ruled::Ruled;
use logic::claim::Claim;
use terms::question::QuestionLine;

// Whether a label under the rules of a book carries each line of the question.
fn carries_all_asked(tested: &Ruled<'_>, question: &[QuestionLine]) -> bool
    ensures { Decides result (EachAsked (λ q. Carries (ruled tested.now.rules.now).fineness (labelled tested.now.label.now) (half_line q)) question.now) }
{
    question
        .iter()
        .all(|asked| tested.carries(Claim::from(*asked)))
}

impl<'c, 's> Case<'c, 's> {
    // Whether each line of the root equals a question line.
    fn root_is_asked(&self) -> bool
        ensures { Decides result (EachLine (λ l. AnyAsked (λ q. half_line q ≡ l) self.now.question.now) (label_at self.now.entries self.now.root)) }
    {
        root_asks(self.entries.lines(self.root), self.question)
    }

    // Whether the root of a closing sheet is an entry, and each of its lines equals a question line.
    pub fn closing_fits(&self) -> bool
        ensures { Decides result (ClosingFits self.now.question.now self.now.entries self.now.root) }
    {
        self.root < self.entries.count() && self.root_is_asked()
    }

    // Whether the root of a standing sheet is an entry, and carries each question line.
    pub fn standing_fits(&self) -> bool
        ensures { Decides result (StandingFits (ruled self.now.rules) self.now.question.now self.now.entries self.now.root) }
    {
        let label = self.entries.label(self.root);
        let ruled = Ruled {
            rules: &self.rules,
            label: &label,
        };
        self.root < self.entries.count() && carries_all_asked(&ruled, self.question)
    }
}
