//! A door in memory that follows a script.

use crate::door::{Door, Opened};
use crate::mem_link::MemLink;
use std::marker::Model;
use std::vec::IntoIter;

/// A step of a [`MemDoor`].
#[derive(Drop)]
pub enum DoorStep {
    /// This link is opened.
    Link(MemLink),
    /// One accept fails.
    Fault,
}

/// A door in memory that follows a script: its steps are used in order, one by each accept. After the
/// last step it ends. It tells the links still to come.
#[derive(Drop)]
pub struct MemDoor {
    steps: IntoIter<DoorStep>,
    faults: u64,
    opened: u64,
    ended: bool,
}

impl Model for MemDoor {
    ghost use Rattle.ig_link.specs.DoorScript.{DoorScript};

    ghost Value = { DoorScript };

    ghost use Rattle.ig_link.specs.MemDoor.{door_script, IsReady};

    ghost view = { door_script };

    ghost invariant = { IsReady };
}

impl MemDoor {
    ghost use Rattle.std.specs.Prelude.{◌≡◌};
    ghost use Rattle.ig_link.specs.DoorScript.{AreUnused, initial_door};

    /// A door that follows these steps. Each link is as it was made.
    pub fn new(steps: Vec<DoorStep>) -> MemDoor
        requires { AreUnused steps.items }
        ensures { result ≡ initial_door steps.items }
    {
        MemDoor {
            steps: steps.into_iter(),
            faults: 0,
            opened: 0,
            ended: false,
        }
    }

    /// How often an accept has failed. The count saturates at `u64::MAX`.
    pub fn faults(&self) -> u64
        ensures { result ≡ self.now.faults }
    {
        self.faults
    }

    /// How many links were opened. The count saturates at `u64::MAX`.
    pub fn opened(&self) -> u64
        ensures { result ≡ self.now.opened }
    {
        self.opened
    }
}

impl MemDoor {
    ghost use Rattle.ig_link.specs.DoorScript.{ScriptAccepts};

    /// The next accept, as the script has it.
    fn follow_accept(&mut self) -> Opened<MemLink>
        ensures { ScriptAccepts result self.old self.new }
    {
        match self.steps.next() {
            None => {
                self.ended = true;
                Opened::End
            }
            Some(DoorStep::Link(link)) => {
                self.opened = self.opened.saturating_add(1);
                Opened::Link(link)
            }
            Some(DoorStep::Fault) => {
                self.faults = self.faults.saturating_add(1);
                Opened::Failed
            }
        }
    }
}

impl Door for MemDoor {
    ghost use Rattle.ig_link.specs.Script.{script_source, script_sink};
    ghost use Rattle.ig_link.specs.AcceptsAs.{AcceptsAs};
    ghost use Rattle.ig_link.specs.DoorScript.{script_door, ScriptAccepts};

    type Line = MemLink;

    ghost door = { script_door };

    fn accept(&mut self) -> Opened<MemLink>
        ensures answer { AcceptsAs script_source script_sink result
            (script_door self.old) (script_door self.new) }
        // The answer is the script's.
        ensures step { ScriptAccepts result self.old self.new }
    {
        self.follow_accept()
    }
}
