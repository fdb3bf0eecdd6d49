//! Examples of lines, texts and tickets, through what these crates show to others.
#![tactic(auto)]

#[cfg(test)]
mod readings;
#[cfg(test)]
mod texts;
#[cfg(test)]
mod tickets;
