// A sheet that is judged against a book and a question.
ghost use Rattle.std.specs.Prelude.{◌≡◌, Decides, MatchOption};
ghost use Rattle.labels.specs.Ruled.{ruled};
ghost use Rattle.book.specs.Models.{model};
ghost use Rattle.question.specs.Asked.{asked};
ghost use Rattle.judge.specs.Views.{rules_of, sheet_of};
ghost use Rattle.judge.specs.Verdicts.{Obeys, AllObey, FirstBreaks, RootFits, TooMany};
ghost use Rattle.judge.specs.Weighing.{Weighed};

use crate::entries::Entries;
use crate::verdict::Verdict;
use book::Book;
use labels::rules::Rules;
use question::Question;
use sheet::Finished;
use terms::entry::Kind;
use terms::question::QuestionLine;
use terms::refusal::{Refusal, Refused};

// The most entries that a standing sheet may have.
const MOST_STANDING: usize = 64;

// The fineness, concepts and inclusions of a book.
pub fn rules_of(book: &Book) -> Rules<'_>
    ensures { ruled result ≡ rules_of (model book.now) }
{
    Rules::new(book.fineness(), book.concepts(), book.inclusions())
}

// The rules of a book, the lines of a question, and the entries of a sheet of a kind, with a root.
#[derive(Drop)]
pub struct Case<'c, 's> {
    pub rules: Rules<'c>,
    pub question: &'c [QuestionLine],
    pub kind: Kind,
    pub root: usize,
    pub entries: Entries<'c, 's>,
}

impl<'c, 's> Case<'c, 's> {
    // A finished sheet against a book and a question.
    pub fn new(book: &'c Book, question: &'c Question, sheet: &'c Finished<'s>) -> Case<'c, 's>
        ensures rules { ruled result.rules ≡ rules_of (model book.now) }
        ensures question { result.question.now ≡ asked question.now }
        ensures kind { result.kind ≡ sheet.now.kind }
        ensures root { result.root ≡ sheet.now.root }
        ensures entries { result.entries ≡ sheet_of sheet.now }
    {
        Case {
            rules: rules_of(book),
            question: question.lines(),
            kind: sheet.kind(),
            root: sheet.root(),
            entries: Entries::new(sheet),
        }
    }

    // Whether the entry k obeys the rules of a sheet of the kind.
    pub fn obeys(&self, k: usize) -> bool
        ensures { Decides result (Obeys self.now.kind (ruled self.now.rules) self.now.entries k) }
    {
        match self.kind {
            Kind::Closing => self.closes(k),
            Kind::Standing => self.stands(k),
        }
    }

    // The lowest entry that breaks a rule.
    pub fn first_breaking(&self) -> Option<usize>
        ensures { MatchOption result (AllObey self.now.kind (ruled self.now.rules) self.now.entries) (FirstBreaks self.now.kind (ruled self.now.rules) self.now.entries) }
    {
        (0..self.entries.count()).find(|k| !self.obeys(*k))
    }

    // Whether the root is an entry and fits the question.
    pub fn root_fits(&self) -> bool
        ensures { Decides result (RootFits self.now.kind (ruled self.now.rules) self.now.question.now self.now.entries self.now.root) }
    {
        match self.kind {
            Kind::Closing => self.closing_fits(),
            Kind::Standing => self.standing_fits(),
        }
    }

    // Whether a standing sheet has more entries than it may.
    fn too_many(&self) -> bool
        ensures { Decides result (TooMany self.now.kind self.now.entries) }
    {
        self.kind == Kind::Standing && self.entries.count() > MOST_STANDING
    }

    // The verdict, but for the retest of the question.
    pub(crate) fn weigh(&self) -> Result<Verdict, Refused>
        ensures { Weighed (ruled self.now.rules) self.now.question.now self.now.kind self.now.entries self.now.root result }
    {
        if self.question.is_empty() {
            return Err(Refusal::NoLines.into());
        }
        if let Some(place) = self.first_breaking() {
            return Err(Refused {
                refusal: Refusal::BrokenRule,
                place,
            });
        }
        if !self.root_fits() {
            return Err(Refusal::BadRoot.into());
        }
        if self.too_many() {
            return Err(Refusal::Unfit.into());
        }
        Ok(Verdict::of(self.kind, self.root))
    }
}
