//! Scripts for one loop: commands, and the actions of callbacks.
ghost use Rattle.std.specs.Prelude.{◌≡◌};

use std::marker::Model;

/// What a callback does at one place of its list.
#[derive(Clone, Copy, Debug, PartialEq, Eq)]
pub enum ActKind {
    Schedule(u32),
    Idle(u32),
    Delete(u32),
    Cancel(u32),
    /// Ask for a nested poll, and go on behind it.
    Nest,
}

/// An action of the callback of a handle.
#[derive(Clone, Copy, Debug, PartialEq, Eq)]
pub struct Act {
    pub bh: u32,
    pub what: ActKind,
}

/// A command of a loop script.
#[derive(Clone, Copy, Debug, PartialEq, Eq)]
pub enum Command {
    Schedule(u32),
    Idle(u32),
    Delete(u32),
    Cancel(u32),
    /// A one-shot with this tag.
    Once(u32),
    /// One poll, with nested ones as its callbacks ask.
    Poll,
    /// A commit that watches all events, and then an accept.
    Commit,
    /// Set this event.
    Set(u32),
    /// Clear this event.
    Clear(u32),
}

/// The actions of all callbacks, in the order of their lines. Contracts see the list.
#[derive(Debug, Drop)]
pub struct Acts {
    items: Vec<Act>,
}

impl Model for Acts {
    ghost use Rattle.std.specs.Prelude.{List};
    ghost use Rattle.aio_model.specs.declared.scripts.loop_scripts.Act.{Act};

    ghost Value = { List Act };

    ghost view = { λ a. a.items.items };
}

impl Acts {
    /// The actions of a vector. Takes no memory.
    pub fn of(items: Vec<Act>) -> Acts
        ensures { result ≡ items.items }
    {
        Acts { items }
    }

    pub fn as_slice(&self) -> &[Act]
        ensures { result.now ≡ self.now }
    {
        self.items.as_slice()
    }
}

/// The commands of a loop script, in order. Contracts see the list.
#[derive(Debug, Drop)]
pub struct Commands {
    items: Vec<Command>,
}

impl Model for Commands {
    ghost use Rattle.std.specs.Prelude.{List};
    ghost use Rattle.aio_model.specs.declared.scripts.loop_scripts.Command.{Command};

    ghost Value = { List Command };

    ghost view = { λ c. c.items.items };
}

impl Commands {
    /// The commands of a vector. Takes no memory.
    pub fn of(items: Vec<Command>) -> Commands
        ensures { result ≡ items.items }
    {
        Commands { items }
    }

    pub fn as_slice(&self) -> &[Command]
        ensures { result.now ≡ self.now }
    {
        self.items.as_slice()
    }
}

/// A loop script: so many handles, lots and events, what the callbacks do, and the commands.
#[derive(Debug, Drop)]
pub struct LoopScript {
    pub handles: u32,
    pub lots: u32,
    pub events: u32,
    pub acts: Acts,
    pub commands: Commands,
}
