// Tests of the rule book, its question and lists of calls on both: each refusal at its edge, and what stands after it.
#![tactic(auto)]

#[cfg(test)]
mod concepts;
#[cfg(test)]
mod inclusions;
#[cfg(test)]
mod limits;
#[cfg(test)]
mod lines;
#[cfg(test)]
mod making;
#[cfg(test)]
mod naming;
#[cfg(test)]
mod replays;
#[cfg(test)]
mod retests;
#[cfg(test)]
mod support;
#[cfg(test)]
mod trials;
