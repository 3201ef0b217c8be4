ghost use Rattle.std.specs.Prelude.{◌≡◌, ◌≤◌, ◌++◌, ◌∷◌, [], length, slice_get, true, OnOk, OnErr};
ghost use Rattle.std.specs.Option.{option_copied};
ghost use Rattle.s38_queues.specs.MessageQueue.{longest_key, message_at};
ghost use Rattle.s38_queues.specs.Places.{found_by_key, is_short, without_at};

use crate::key::Key;
use crate::message::Message;
use crate::messages::Messages;
use crate::place::{Place, first_place};
use s38_base::{NoMemory, Relation};
use std::alloc::Global;
use std::collections::{BTreeMap, BTreeSet};
use std::marker::Model;

/// Messages with keys: by their arrivals, and their places in the order of keys. Contracts see them as the list of the
/// messages in the order of their arrival.
#[derive(Drop)]
pub struct KeyedMessages {
    next: u64,
    messages: BTreeMap<u64, Message>,
    places: BTreeSet<Place>,
}

impl Model for KeyedMessages {
    ghost use Rattle.std.specs.Prelude.{List};
    ghost use Rattle.std.specs.BTreeMap.{values};
    ghost use Rattle.s38_queues.specs.declared.message.Message.{Message};
    ghost use Rattle.s38_queues.specs.Places.{ArePlaced};

    ghost Value = { List Message };

    ghost view = { λ k. values k.messages };

    ghost invariant = { λ k. ArePlaced k.next k.messages k.places };
}

impl KeyedMessages {
    /// No messages; they take no memory until there are some.
    pub fn new(alloc: Global) -> KeyedMessages
        ensures { result ≡ [] }
    {
        KeyedMessages {
            next: 0,
            messages: BTreeMap::new(alloc),
            places: BTreeSet::new(alloc),
        }
    }

    /// How many messages there are.
    pub fn len(&self) -> usize
        ensures { result ≡ length self.now }
    {
        self.messages.len()
    }

    /// The message at a place in the order of arrival, from 0 on, in time linear in the place; None exactly past the
    /// last.
    pub fn get(&self, at: usize) -> Option<&Message>
        ensures { option_copied result ≡ slice_get self.now at }
    {
        self.messages.values().nth(at)
    }

    /// The messages in the order of their arrival.
    pub fn messages(&self) -> Messages<'_>
        ensures { result ≡ self.now }
    {
        Messages::of_keyed(self.messages.values())
    }

    /// Puts a message after the others, in logarithmic time; an error leaves them as they were.
    pub fn push(&mut self, message: Message) -> Result<(), NoMemory>
        requires { length message.key ≤ longest_key }
        ensures ok { OnOk result (self.new ≡ self.old ++ message ∷ []) }
        ensures err { OnErr result (self.new ≡ self.old) }
    {
        let arrival = self.next;
        let Some(next) = arrival.checked_add(1) else {
            return Err(NoMemory);
        };
        let key = Key::new(message.key.as_slice());
        let place = Place { key, arrival };
        if self.places.insert(place).is_err() {
            return Err(NoMemory);
        }
        match self.messages.insert(arrival, message) {
            Ok(_) => {
                self.next = next;
                Ok(())
            }
            Err(_) => {
                self.places.remove(&place);
                Err(NoMemory)
            }
        }
    }

    /// The first message in the order of keys whose key is in a relation to a key, and of equal keys the oldest, in
    /// logarithmic time. None exactly where there is none.
    pub fn find(&self, relation: Relation, key: &[u8]) -> Option<&Message>
        requires { is_short relation key.now ≡ true }
        ensures { option_copied result ≡ message_at self.now (found_by_key relation key.now self.now) }
    {
        let place = first_place(&self.places, self.next, relation, key)?;
        self.messages.get(&place.arrival)
    }

    /// Takes the message that `find` finds out, in logarithmic time and without memory.
    pub fn take(&mut self, relation: Relation, key: &[u8]) -> Option<Message>
        requires { is_short relation key.now ≡ true }
        ensures message { result ≡ message_at self.old (found_by_key relation key.now self.old) }
        ensures rest { self.new ≡ without_at self.old (found_by_key relation key.now self.old) }
    {
        let place = first_place(&self.places, self.next, relation, key)?;
        self.places.remove(&place);
        self.messages.remove(&place.arrival)
    }
}
