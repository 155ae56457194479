//! Tests of `ig_parts` by its public calls. They stand apart, since a crate is proved once more with its tests.
#![tactic(auto)]

#[cfg(test)]
mod message_tests;
#[cfg(test)]
mod tests;
