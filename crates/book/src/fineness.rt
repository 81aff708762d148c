// The fineness of a book.
ghost use Rattle.std.specs.Prelude.{◌≡◌, ◌<◌, ◌≤◌, ◌⊎◌, MatchResult};
ghost use Rattle.terms.specs.declared.refusal.Refusal.TheVariants.{Fineness as BadFineness};

use terms::refusal::Refusal;

// The most steps that there may be.
const FINEST: u32 = 1000;

// How many steps there are from 0 to the whole: 1 to 1000.
#[derive(Clone, Copy)]
pub(crate) struct Fineness {
    steps: u32,
    ghost some: { 1 ≤ steps },
    ghost fine: { steps ≤ 1000 },
}

impl Fineness {
    pub(crate) fn steps(self) -> u32
        ensures { result ≡ self.steps }
    {
        self.steps
    }
}

impl TryFrom<u32> for Fineness {
    type Error = Refusal;

    ghost try_from_gives = { λ steps r. MatchResult r (λ f. f.steps ≡ steps) (λ e. (e ≡ BadFineness) × ((steps < 1) ⊎ (1000 < steps))) };

    fn try_from(steps: u32) -> Result<Fineness, Refusal> {
        if !(1..=FINEST).contains(&steps) {
            return Err(Refusal::Fineness);
        }
        Ok(Fineness { steps })
    }
}
