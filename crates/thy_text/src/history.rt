//! The events of a call, in two lists.
ghost use Rattle.std.specs.Prelude.{◌≡◌, ◌<◌, length, slice_get, Some};
ghost use Rattle.thy_text.specs.History.{all_of, of_run};
ghost use Rattle.thy_text.specs.Seen.{event_of};

use crate::{Event, Events};
use std::alloc::Global;
use std::marker::Model;

/// The events of a call, in order, in two lists: the last one has the events of the run that was begun last. They are
/// not joined, because memory may run out in that.
#[derive(Debug, Drop)]
pub struct History {
    earlier: Events,
    last: Events,
}

impl Model for History {
    ghost use Rattle.thy_text.specs.History.{Recorded};

    ghost Value = { Recorded };

    ghost view = { λ h. record { earlier = h.earlier; last = h.last } };
}

impl History {
    /// A history: the events of earlier runs, and the events of the run that was begun last.
    pub fn new(earlier: Events, last: Events) -> History
        ensures { result ≡ record { earlier = earlier; last = last } }
    {
        History { earlier, last }
    }

    /// The events of one run, or none: all are in the last list. Allocates nothing.
    pub fn of(alloc: Global, events: Events) -> History
        ensures { result ≡ of_run events }
    {
        History {
            earlier: Events::new(alloc),
            last: events,
        }
    }

    /// The events of the run that was begun last. If the call made one run, these are all. In a comparison the event that names the run's
    /// scheme is left out, and the list is empty if a run after that was to begin and did not.
    pub fn last(&self) -> &Events
        ensures { result.now ≡ self.now.last }
    {
        &self.last
    }

    /// How many events both lists have.
    pub fn len(&self) -> usize
        ensures { result ≡ length (all_of self.now) }
    {
        self.earlier.short_len() + self.last.short_len()
    }

    /// The event at index `i`, from 0, of both lists in a row.
    pub fn get(&self, i: usize) -> &Event
        requires { i < length (all_of self.now) }
        ensures { slice_get (all_of self.now) i ≡ Some (event_of result.now) }
    {
        let earlier = self.earlier.len();
        if i < earlier {
            self.earlier.get(i)
        } else {
            self.last.get(i - earlier)
        }
    }
}
