//! Examples of a store, opened by the call that carries the law of runs.
#![tactic(auto)]

#[cfg(test)]
mod act;
#[cfg(test)]
mod asked;
#[cfg(test)]
mod bench;
#[cfg(test)]
mod directories;
#[cfg(test)]
mod families;
#[cfg(test)]
mod given;
#[cfg(test)]
mod lookups;
#[cfg(test)]
mod performing;
#[cfg(test)]
mod presented;
#[cfg(test)]
mod refusals;
#[cfg(test)]
mod requests;
#[cfg(test)]
mod room;
#[cfg(test)]
mod serving;
#[cfg(test)]
mod sizes;
#[cfg(test)]
mod unsoundness;
