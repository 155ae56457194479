//! Tests of `ig_encode` by its public calls. They stand apart, since a crate is proved once more with its tests.
#![tactic(auto)]

#[cfg(test)]
mod object_tests;
#[cfg(test)]
mod tests;
