//! What comes between a code and the items.

/// The number of items, an Int32.
#[derive(Drop)]
pub(crate) struct Count {
    pub(crate) items: usize,
}

/// The number of items, an Int32, and the kind of their list.
#[derive(Drop)]
pub(crate) struct Kinded {
    pub(crate) items: usize,
    pub(crate) kind: i8,
}
