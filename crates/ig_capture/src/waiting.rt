//! The requests of one identifier that have no reply yet.

ghost use Rattle.std.specs.Prelude.{◌≡◌, ◌++◌, ◌∷◌, [], OnOk};

use ig_base::NoMemory;
use ig_wire::Operation;
use std::alloc::Global;
use std::collections::VecDeque;
use std::marker::Model;

/// The operations of the requests of one identifier, in the order in which they came: the first, and
/// those after it. Few identifiers have more than one, so the first takes no memory of its own.
#[derive(Drop)]
pub(crate) struct Waiting {
    first: Option<Operation>,
    later: VecDeque<Option<Operation>>,
}

impl Model for Waiting {
    ghost use Rattle.std.specs.Prelude.{◌∷◌};
    ghost use Rattle.ig_capture.specs.Operations.{Operations, coded_operations};

    ghost Value = { Operations };

    ghost coded = { coded_operations };

    ghost view = { λ w. w.first ∷ w.later.items };
}

impl Waiting {
    ghost use Rattle.ig_capture.specs.Operations.{SplitsFirst};

    /// One request. Takes no memory.
    pub(crate) fn new(alloc: Global, operation: Option<Operation>) -> Waiting
        ensures { result ≡ operation ∷ [] }
    {
        Waiting {
            first: operation,
            later: VecDeque::new(alloc),
        }
    }

    /// Adds a request after the others.
    pub(crate) fn add(&mut self, operation: Option<Operation>) -> Result<(), NoMemory>
        ensures { OnOk result (self.new ≡ self.old ++ operation ∷ []) }
    {
        self.later.push_back(operation)?;
        Ok(())
    }

    /// The first request, and the others if there are any.
    pub(crate) fn split(self) -> (Option<Operation>, Option<Waiting>)
        ensures { SplitsFirst self result.0 result.1 }
    {
        let Waiting { first, mut later } = self;
        match later.pop_front() {
            Some(next) => (first, Some(Waiting { first: next, later })),
            None => (first, None),
        }
    }
}
