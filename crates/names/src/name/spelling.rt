// What bytes make a name.
ghost use Rattle.std.specs.Prelude.{◌≡◌, Some, Decides, MatchResult};
ghost use Rattle.terms.specs.declared.refusal.Refusal.TheVariants.{BadName};
ghost use Rattle.names.specs.Spelling.{Odd, HasOdd, NoName};
ghost use Rattle.names.specs.Letters.{letters};

use crate::name::{LONGEST, Name};
use arrayvec::ArrayString;
use std::fmt;
use std::str::FromStr;
use terms::refusal::Refusal;

// Whether a byte is no letter, digit or hyphen.
fn is_odd(b: u8) -> bool
    ensures { Decides result (Odd b) }
{
    !matches!(b, b'A'..=b'Z' | b'a'..=b'z' | b'0'..=b'9' | b'-')
}

// Whether one of the bytes can stand in no name.
#[tactic(auto, unfolding(crate::specs::Spelling::HasOdd))]
fn has_odd(text: &str) -> bool
    ensures { Decides result (HasOdd text.now) }
{
    text.bytes().any(is_odd)
}

// Whether bytes make no name.
fn is_unfit(text: &str) -> bool
    ensures { Decides result (NoName text.now) }
{
    text.is_empty() || text.len() > LONGEST || has_odd(text)
}

// The name that is so spelled, if there is one.
impl FromStr for Name {
    type Err = Refusal;

    ghost from_str_gives = { λ bytes r. MatchResult r (λ n. (letters n ≡ bytes) × (NoName bytes → ⊥)) (λ e. (e ≡ BadName) × NoName bytes) };

    fn from_str(text: &str) -> Result<Name, Refusal> {
        if is_unfit(text) {
            return Err(Refusal::BadName);
        }
        let text = ArrayString::from(text).map_err(|_| Refusal::BadName)?;
        Ok(Name { text })
    }
}

impl Name {
    // Some name, to fill a place that is not in use.
    pub(crate) fn filler() -> Name {
        let mut text = ArrayString::new();
        text.push('-');
        Name { text }
    }

    pub fn as_str(&self) -> &str
        ensures { result.now ≡ letters self.now }
    {
        self.text.as_str()
    }
}

impl fmt::Display for Name {
    ghost output = { λ n. Some (letters n) };

    fn fmt<W: fmt::Write>(&self, f: &mut fmt::Formatter<W>) -> fmt::Result {
        f.write_str(self.as_str())
    }
}
