//! Tests of `ig_client` by its public calls. They stand apart, since a crate is proved once more with its tests.
#![tactic(auto)]

#[cfg(test)]
mod channel_tests;
#[cfg(test)]
mod fault_tests;
#[cfg(test)]
mod handshake_tests;
#[cfg(test)]
mod links;
#[cfg(test)]
mod turn_tests;
