ghost use Rattle.std.specs.Prelude.{◌≡◌, ◌≢◌, ◌+◌, ◌<◌, ◌≤◌, ◌↔◌, [], length, slice_get, true, IfOk, IsErrOf, OnOk, OnErr};
ghost use Rattle.std.specs.Option.{option_copied};
ghost use Rattle.s38_queues.specs.MessageQueue.{found_message, longest_key, message, message_is_sought, message_size, queue_image_size, with_message, without_found};

use crate::kept::Kept;
use crate::message::{Message, Order};
use crate::messages::Messages;
use s38_base::{Bytes, NoMemory, Relation};
use std::alloc::Global;
use std::marker::Model;
use thiserror::Error;

/// The longest image of a queue, in bytes.
const LARGEST: u32 = 16_777_216;

/// The messages of a queue, in the order of their arrival.
#[derive(Drop)]
pub struct Queue {
    alloc: Global,
    key_len: u8,
    longest: u16,
    size: u32,
    kept: Kept,
}

impl Model for Queue {
    ghost use Rattle.std.specs.Prelude.{◌≡◌, ◌≤◌};
    ghost use Rattle.s38_queues.specs.Kept.{messages_of, order_of};
    ghost use Rattle.s38_queues.specs.MessageQueue.{MessageQueue, longest_key, queue_image_size};

    ghost Value = { MessageQueue };

    ghost view = { λ q. record { order = order_of q.kept; key_len = q.key_len; longest = q.longest; messages = messages_of q.kept } };

    ghost invariant = { λ q. (q.key_len ≤ longest_key) × (q.size ≡ queue_image_size (messages_of q.kept)) × (q.size ≤ 16777216) };
}

/// A message of its own memory.
fn message_of(alloc: Global, key: &[u8], text: &[u8]) -> Result<Message, NoMemory>
    ensures { IfOk result (λ made. made ≡ message key.now text.now) }
{
    let key = if key.is_empty() {
        Bytes::new(alloc)
    } else {
        Bytes::from_slice(alloc, key)?
    };
    let text = Bytes::from_slice(alloc, text)?;
    Ok(Message { key, text })
}

/// Why a message was not put.
#[derive(Clone, Copy, PartialEq, Eq, Debug, Error)]
pub enum QueueFault {
    #[error("the key has not the length of the queue's keys")]
    BadKey,
    #[error("the message is longer than the queue's longest")]
    TooLong,
    #[error("the queue's image would be too large")]
    Full,
    #[error("no memory")]
    NoMemory,
}

impl Queue {
    /// A queue without a message; it takes no memory until it grows.
    pub fn new(alloc: Global, order: Order, key_len: u8, longest: u16) -> Queue
        requires { key_len ≤ longest_key }
        ensures { result ≡ record { order = order; key_len = key_len; longest = longest; messages = [] } }
    {
        Queue {
            alloc,
            key_len,
            longest,
            size: 8,
            kept: Kept::new(alloc, order),
        }
    }

    /// Which message is taken.
    pub fn order(&self) -> Order
        ensures { result ≡ self.now.order }
    {
        self.kept.order()
    }

    /// How many bytes a key has, 0 without keys.
    pub fn key_len(&self) -> u8
        ensures { result ≡ self.now.key_len }
    {
        self.key_len
    }

    /// How many bytes a message has at most.
    pub fn longest(&self) -> u16
        ensures { result ≡ self.now.longest }
    {
        self.longest
    }

    /// How many messages there are.
    pub fn len(&self) -> usize
        ensures { result ≡ length self.now.messages }
    {
        self.kept.len()
    }

    /// How many bytes the image of the queue has.
    pub fn image_len(&self) -> u32
        ensures size { result ≡ queue_image_size self.now.messages }
        ensures bound { result ≤ 16777216 }
    {
        self.size
    }

    /// The message at a place in the order of arrival, from 0 on; None exactly past the last. With keys it takes time
    /// linear in the place.
    pub fn message(&self, at: usize) -> Option<&Message>
        ensures { option_copied result ≡ slice_get self.now.messages at }
    {
        self.kept.get(at)
    }

    /// The messages in the order of their arrival, each reached in at most logarithmic time.
    pub fn messages(&self) -> Messages<'_>
        ensures { result ≡ self.now.messages }
    {
        self.kept.messages()
    }

    /// Puts a message after the others. It is refused for its key, then for its length, then where the image
    /// would exceed 16,777,216 bytes; a refused message changes nothing.
    pub fn put(&mut self, key: &[u8], text: &[u8]) -> Result<(), QueueFault>
        ensures ok { OnOk result (self.new ≡ with_message self.old (message key.now text.now)) }
        ensures bad_key { IsErrOf result QueueFault.BadKey ↔ (length key.now ≢ self.old.key_len) }
        ensures too_long { IsErrOf result QueueFault.TooLong ↔ ((length key.now ≡ self.old.key_len) × (self.old.longest < length text.now)) }
        ensures full { IsErrOf result QueueFault.Full ↔ ((length key.now ≡ self.old.key_len) × (length text.now ≤ self.old.longest)
            × (16777216 < queue_image_size self.old.messages + message_size (message key.now text.now))) }
        ensures err { OnErr result (self.new ≡ self.old) }
    {
        if key.len() != self.key_len as usize {
            return Err(QueueFault::BadKey);
        }
        if text.len() > self.longest as usize {
            return Err(QueueFault::TooLong);
        }
        let size = self.size + key.len() as u32 + text.len() as u32 + 2;
        if size > LARGEST {
            return Err(QueueFault::Full);
        }
        let Ok(message) = message_of(self.alloc, key, text) else {
            return Err(QueueFault::NoMemory);
        };
        if self.kept.push(message).is_err() {
            return Err(QueueFault::NoMemory);
        }
        self.size = size;
        Ok(())
    }

    /// The message that is taken next: with FIFO the oldest, with LIFO the newest, with keys the first in their order
    /// whose key is in the relation to `key`, and of equal keys the oldest. None exactly where there is none,
    /// and where the queue may not be asked so: by another relation than ANY it is asked with keys, for one of their length.
    pub fn find(&self, relation: Relation, key: &[u8]) -> Option<&Message>
        ensures { option_copied result ≡ found_message self.now relation key.now }
    {
        if !self.is_asked(relation, key.len()) {
            return None;
        }
        self.kept.find(relation, key)
    }

    /// Whether the queue may be asked so: for any message, or by a key of the length of its keys.
    fn is_asked(&self, relation: Relation, key_len: usize) -> bool
        ensures { result ≡ message_is_sought self.now relation key_len }
    {
        match relation {
            Relation::Any => true,
            _ => match self.order() {
                Order::Keyed => key_len == usize::from(self.key_len),
                _ => false,
            },
        }
    }

    /// Takes the message that `find` finds out of the queue, without memory; None exactly where there is none.
    pub fn take(&mut self, relation: Relation, key: &[u8]) -> Option<Message>
        ensures message { result ≡ found_message self.old relation key.now }
        ensures rest { self.new ≡ without_found self.old relation key.now }
    {
        if !self.is_asked(relation, key.len()) {
            return None;
        }
        let message = self.kept.take(relation, key)?;
        self.size -= message.key.len() as u32 + message.text.len() as u32 + 2;
        Some(message)
    }
}
