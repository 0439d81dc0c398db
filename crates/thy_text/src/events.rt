//! The events of a run, in order.
ghost use Rattle.std.specs.Prelude.{◌≡◌, ◌++◌, ◌∷◌, [], ◌<◌, ◌-◌, ◌^◌, length, take, OnOk, OnErr, slice_get, Some};
ghost use Rattle.thy_text.specs.Seen.{event_of};

use crate::Event;
use std::alloc::{AllocError, Global};
use std::marker::Model;

/// A list of events. Contracts see them with the plain machine's states.
#[derive(Debug, Drop)]
pub struct Events {
    items: Vec<Event>,
}

impl Model for Events {
    ghost use Rattle.std.specs.Prelude.{List, map};
    ghost use Rattle.thy_text.specs.Event.{Event as EventValue};
    ghost use Rattle.thy_text.specs.Seen.{event_of};

    ghost Value = { List EventValue };

    ghost view = { λ e. map event_of e.items.items };
}

impl Events {
    /// An empty list. Allocates nothing.
    pub fn new(alloc: Global) -> Events
        ensures { result ≡ [] }
    {
        Events {
            items: Vec::new(alloc),
        }
    }

    /// Adds an event at the end. Fails if memory runs out; then the list is as before.
    pub fn push(&mut self, event: Event) -> Result<(), AllocError>
        ensures ok { OnOk result (self.new ≡ self.old ++ event_of event ∷ []) }
        ensures err { OnErr result (self.new ≡ self.old) }
    {
        self.items.push(event)?;
        Ok(())
    }

    /// Moves the events of another list to the end of this one; the other is empty then. Fails if memory runs out; then both lists are as
    /// before.
    pub fn append(&mut self, more: &mut Events) -> Result<(), AllocError>
        ensures ok { OnOk result ((self.new ≡ self.old ++ more.old) × (more.new ≡ [])) }
        ensures err { OnErr result ((self.new ≡ self.old) × (more.new ≡ more.old)) }
    {
        self.items.append(&mut more.items)
    }

    /// Removes the last event, if there is one.
    pub fn pop(&mut self)
        ensures { self.new ≡ take (length self.old - 1) self.old }
    {
        let _last = self.items.pop();
    }

    /// How many events there are.
    pub fn len(&self) -> usize
        ensures { result ≡ length self.now }
    {
        self.items.len()
    }

    /// How many events there are, below `2^63`: the sum of two such numbers does not wrap.
    pub(crate) fn short_len(&self) -> usize
        ensures length { result ≡ length self.now }
        ensures short { result < 2 ^ 63 }
    {
        self.items.len()
    }

    /// The event at index `i`, from 0 and below the length.
    pub fn get(&self, i: usize) -> &Event
        requires { i < length self.now }
        ensures { slice_get self.now i ≡ Some (event_of result.now) }
    {
        &self.items[i]
    }
}
