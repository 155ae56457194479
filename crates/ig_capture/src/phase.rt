//! How far a session has come.

use ig_wire::Version;

/// How far a session has come.
///
/// ```text
///   Fresh --hello--> Asked --acceptance--> Talking
///                      \------refusal----> Closed
/// ```
#[derive(Clone, Copy, Debug, PartialEq, Eq)]
pub(crate) enum Phase {
    /// Nothing was said.
    Fresh,
    /// The hello asked for this version.
    Asked(Version),
    /// The hello was accepted at this version.
    Talking(Version),
    /// The hello was refused.
    Closed,
}
