//! A set of event handlers, and the walk over those whose events were found.
ghost use Rattle.std.specs.Prelude.{◌≡◌, ◌<◌, ℕ, ◌∷◌, [], List, IfOk, OnErr, IfSome, IfNone, IsTrue, IsFalse, is_some};
ghost use Rattle.aio_model.specs.declared.handlers.calls.HandlerCall.{HandlerCall};
ghost use Rattle.aio_model.specs.declared.handlers.calls.HandlerCall.TheVariants.{Add, Remove, WalkBegin, Give, WalkEnd};
ghost use Rattle.aio_model.specs.Handlers.Calls.{has_event, on_event};
ghost use Rattle.aio_handlers.specs.Answers.{add_answer, remove_answer, first_ready};
ghost use Rattle.aio_handlers.specs.StandsFor.{StandsFor};

use crate::answers::{AddRefusal, HandlerId, Ready, Removed};
use crate::keys::{clear, event_named, fill, take_out};
use crate::places::{Places, Slot};
use crate::watch::{with_event, without_event};
use aio_chain::Links;
use aio_model::NoMemory;
use std::alloc::{AllocError, Global};
use std::marker::Model;

/// Handlers of up to 64 events, one an event, after the AioHandler lists of QEMU's util/aio-posix.c. All is done by
/// one thread. A walk may remove and add handlers as it goes.
#[derive(Debug, Drop)]
pub struct Handlers {
    places: Places,
    /// The events that have a handler, in order of adding.
    live: Links,
    /// The bits of those events.
    watched: u64,
    /// Those that the walk has yet to give.
    waiting: Links,
    room: u32,
    /// How many are live or marked.
    used: u32,
    added: u32,
    marked: u32,
    walking: bool,
}

impl Model for Handlers {
    ghost use Rattle.aio_handlers.specs.StandsFor.{HandlerList};

    ghost Value = { HandlerList };

    ghost use Rattle.aio_handlers.specs.Kept.{handlers_of, AreKept};

    ghost view = { handlers_of };

    ghost invariant = { AreKept };
}

impl Handlers {
    /// Memory for so many handlers. No later call takes any.
    pub fn build(alloc: Global, room: u32) -> Result<Handlers, NoMemory>
        ensures stands { IfOk result (λ handlers. StandsFor handlers []) }
        ensures room { IfOk result (λ handlers. handlers.room ≡ room) }
    {
        let live = Links::build(alloc, 64)?;
        let waiting = Links::build(alloc, 64)?;
        match Places::build(alloc) {
            Ok(places) => Ok(Handlers {
                places,
                live,
                watched: 0,
                waiting,
                room,
                used: 0,
                added: 0,
                marked: 0,
                walking: false,
            }),
            Err(AllocError) => Err(NoMemory),
        }
    }

    /// Adds a handler of an event.
    pub fn add(&mut self, event: u32, tag: u64) -> Result<HandlerId, AddRefusal>
        requires { event < 64 }
        ensures answer { result ≡ add_answer self.old event }
        ensures room { self.new.room ≡ self.old.room }
        ensures walking { self.new.walking ≡ self.old.walking }
        ensures unchanged { OnErr result (self.new ≡ self.old) }
        ensures stands { IfOk result (λ id. (calls : List HandlerCall) → StandsFor self.old calls → StandsFor self.new (Add id.number event tag ∷ calls)) }
    {
        if self.live.has(event) {
            return Err(AddRefusal::Taken(HandlerId {
                number: self.places.at(event).id,
            }));
        }
        if self.used >= self.room {
            return Err(AddRefusal::Full);
        }
        if self.added == u32::MAX {
            return Err(AddRefusal::Worn);
        }
        let number = self.added;
        self.places.put(event, Slot { id: number, tag });
        self.live.push_back(event);
        self.watched = with_event(self.watched, event);
        self.added += 1;
        self.used += 1;
        Ok(HandlerId { number })
    }

    /// Removes a handler. In a walk it keeps its place till the walk's end.
    pub fn remove(&mut self, id: HandlerId) -> Removed
        ensures answer { result ≡ remove_answer self.old id.number }
        ensures room { self.new.room ≡ self.old.room }
        ensures walking { self.new.walking ≡ self.old.walking }
        ensures stands { (calls : List HandlerCall) → StandsFor self.old calls → StandsFor self.new (Remove id.number ∷ calls) }
    {
        let Some(event) = event_named(&self.places, &self.live, id.number) else {
            return Removed::Gone;
        };
        let tag = self.places.take(event).tag;
        self.live.unlink(event);
        self.watched = without_event(self.watched, event);
        if self.walking {
            take_out(&mut self.waiting, event);
            self.marked += 1;
            return Removed::Marked(tag);
        }
        self.used -= 1;
        Removed::Freed(tag)
    }

    /// The bits of the events that have a live handler.
    pub fn watch(&self) -> u64
        ensures { (event : ℕ) → event < 64 → has_event result event ≡ is_some (on_event event self.now.live) }
    {
        self.watched
    }

    /// Begins a walk over the handlers of these events, one bit an event.
    pub fn walk_begin(&mut self, found: u64)
        requires { IsFalse self.old.walking }
        ensures walking { IsTrue self.new.walking }
        ensures room { self.new.room ≡ self.old.room }
        ensures stands { (calls : List HandlerCall) → StandsFor self.old calls → StandsFor self.new (WalkBegin found ∷ calls) }
    {
        fill(&mut self.waiting, &self.live, found);
        self.walking = true;
    }

    /// The next handler of the walk; `None` where the walk has given all.
    pub fn next_ready(&mut self) -> Option<Ready>
        requires { IsTrue self.old.walking }
        ensures walking { IsTrue self.new.walking }
        ensures room { self.new.room ≡ self.old.room }
        ensures next { result ≡ first_ready self.old.waiting }
        ensures stands { IfSome result (λ ready. (calls : List HandlerCall) → StandsFor self.old calls → StandsFor self.new (Give ready.id.number ∷ calls)) }
        ensures unchanged { IfNone result (self.new ≡ self.old) }
    {
        let event = self.waiting.first()?;
        self.waiting.unlink(event);
        let slot = self.places.at(event);
        Some(Ready {
            id: HandlerId { number: slot.id },
            event,
            tag: slot.tag,
        })
    }

    /// Ends the walk. How many handlers were removed in it, which are freed now.
    pub fn walk_end(&mut self) -> u32
        requires { IsTrue self.old.walking }
        ensures walking { IsFalse self.new.walking }
        ensures room { self.new.room ≡ self.old.room }
        ensures freed { result ≡ self.old.marked }
        ensures stands { (calls : List HandlerCall) → StandsFor self.old calls → StandsFor self.new (WalkEnd ∷ calls) }
    {
        clear(&mut self.waiting);
        let freed = self.marked;
        self.used -= freed;
        self.marked = 0;
        self.walking = false;
        freed
    }
}
