//! One of two.

/// One of two formats, or what fields of one of two formats hold.
#[derive(Debug, Drop)]
pub enum Either<F, G> {
    First(F),
    Second(G),
}
