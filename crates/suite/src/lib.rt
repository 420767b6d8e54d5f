// Tests of the entry and of the reader. What they expect is worked out by hand from docs/format.md.
#![tactic(auto)]

#[cfg(test)]
mod called;
#[cfg(test)]
mod desk;
#[cfg(test)]
mod edges;
#[cfg(test)]
mod keeping;
#[cfg(test)]
mod laid;
#[cfg(test)]
mod refused;
#[cfg(test)]
mod room;
pub mod sample;
#[cfg(test)]
mod worked;
