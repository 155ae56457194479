//! The requests of a session that have no reply yet.

ghost use Rattle.std.specs.Prelude.{◌≡◌, OnOk, IfOk};
ghost use Rattle.std.specs.FinMap as map;
ghost use Rattle.ig_capture.specs.Requests.{with_request, TakesFirst};

use crate::waiting::Waiting;
use ig_base::NoMemory;
use ig_wire::Operation;
use std::alloc::Global;
use std::collections::BTreeMap;
use std::marker::Model;

/// The operations of the requests without a reply, by identifier. A reply finds its request without a
/// look at the others.
#[derive(Drop)]
pub(crate) struct Unanswered {
    alloc: Global,
    requests: BTreeMap<i64, Waiting>,
}

impl Model for Unanswered {
    ghost use Rattle.std.specs.FinMap as map;
    ghost use Rattle.ig_capture.specs.Requests.{Unanswered, coded_unanswered};

    ghost Value = { Unanswered };

    ghost coded = { coded_unanswered };

    ghost view = { λ u. map.from_entries u.requests.entries };
}

impl Unanswered {
    /// No requests. Takes no memory.
    pub(crate) fn new(alloc: Global) -> Unanswered
        ensures { result ≡ map.empty }
    {
        Unanswered {
            alloc,
            requests: BTreeMap::new(alloc),
        }
    }

    /// Adds a request after those with the same identifier. Out of memory, those may be lost.
    pub(crate) fn add(&mut self, id: i64, operation: Option<Operation>) -> Result<(), NoMemory>
        ensures { OnOk result (self.new ≡ with_request id operation self.old) }
    {
        let only = Waiting::new(self.alloc, operation);
        let Some(mut waiting) = self.requests.insert(id, only)? else {
            return Ok(());
        };
        waiting.add(operation)?;
        self.requests.insert(id, waiting)?;
        Ok(())
    }

    /// Takes the first request with the identifier away, if there is one. Out of memory, the others with
    /// this identifier may be lost.
    pub(crate) fn take(&mut self, id: i64) -> Result<Option<Option<Operation>>, NoMemory>
        ensures { IfOk result (TakesFirst id self.old self.new) }
    {
        let Some(waiting) = self.requests.remove(&id) else {
            return Ok(None);
        };
        let (first, later) = waiting.split();
        match later {
            Some(later) => {
                self.requests.insert(id, later)?;
                Ok(Some(first))
            }
            None => Ok(Some(first)),
        }
    }
}
