//! Tests of `ig_shards` by its public calls. They stand apart, since a crate is proved once more with its tests.
#![tactic(auto)]

#[cfg(test)]
mod tests;
