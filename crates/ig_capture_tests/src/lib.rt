//! Captures cut at every byte, and with every malformed end.
#![tactic(auto)]

#[cfg(test)]
mod tests;
