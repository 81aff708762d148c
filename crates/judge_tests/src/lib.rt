// Tests of judging: small sheets, accepted and broken, and stores that hold anything.
#![tactic(auto)]

#[cfg(test)]
mod closing_sheets;
#[cfg(test)]
mod letters;
#[cfg(test)]
mod standing;
#[cfg(test)]
mod support;
#[cfg(test)]
mod trials;
