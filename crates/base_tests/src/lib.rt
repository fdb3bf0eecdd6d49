//! Examples of the crates below the store, through what these show to others.
#![tactic(auto)]

#[cfg(test)]
mod admissions;
#[cfg(test)]
mod capabilities;
#[cfg(test)]
mod errors;
#[cfg(test)]
mod families;
#[cfg(test)]
mod parts;
#[cfg(test)]
mod rows_and_paths;
#[cfg(test)]
mod secrets;
#[cfg(test)]
mod soundness;
#[cfg(test)]
mod tables;
