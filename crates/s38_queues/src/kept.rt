ghost use Rattle.std.specs.Prelude.{◌≡◌, ◌+◌, ◌≤◌, ◌++◌, ◌∷◌, [], length, slice_get, true, IfSome, OnOk, OnErr};
ghost use Rattle.std.specs.Option.{option_copied};
ghost use Rattle.s38_queues.specs.Kept.{messages_of, order_of};
ghost use Rattle.s38_queues.specs.MessageQueue.{longest_key, message_at, message_place, message_size, newest, oldest, queue_image_size};
ghost use Rattle.s38_queues.specs.Places.{is_short, without_at};

use crate::keyed::KeyedMessages;
use crate::message::{Message, Order};
use crate::messages::Messages;
use s38_base::{NoMemory, Relation};
use std::alloc::Global;
use std::collections::VecDeque;

/// The messages of a queue, as the order in which they are taken wants them kept.
#[derive(Drop)]
pub enum Kept {
    Fifo(VecDeque<Message>),
    Lifo(VecDeque<Message>),
    Keyed(KeyedMessages),
}

/// Puts a message after the others; an error leaves them as they were.
fn push_back(messages: &mut VecDeque<Message>, message: Message) -> Result<(), NoMemory>
    ensures ok { OnOk result (messages.new.items ≡ messages.old.items ++ message ∷ []) }
    ensures err { OnErr result (messages.new.items ≡ messages.old.items) }
{
    match messages.push_back(message) {
        Ok(()) => Ok(()),
        Err(_) => Err(NoMemory),
    }
}

fn take_oldest(messages: &mut VecDeque<Message>) -> Option<Message>
    ensures message { result ≡ message_at messages.old.items (oldest messages.old.items) }
    ensures rest { messages.new.items ≡ without_at messages.old.items (oldest messages.old.items) }
{
    messages.pop_front()
}

fn take_newest(messages: &mut VecDeque<Message>) -> Option<Message>
    ensures message { result ≡ message_at messages.old.items (newest messages.old.items) }
    ensures rest { messages.new.items ≡ without_at messages.old.items (newest messages.old.items) }
{
    messages.pop_back()
}

fn find_oldest(messages: &VecDeque<Message>) -> Option<&Message>
    ensures { option_copied result ≡ message_at messages.now.items (oldest messages.now.items) }
{
    messages.front()
}

fn find_newest(messages: &VecDeque<Message>) -> Option<&Message>
    ensures { option_copied result ≡ message_at messages.now.items (newest messages.now.items) }
{
    messages.back()
}

impl Kept {
    /// No messages; they take no memory until there are some.
    pub fn new(alloc: Global, order: Order) -> Kept
        ensures order { order_of result ≡ order }
        ensures messages { messages_of result ≡ [] }
    {
        match order {
            Order::Fifo => Kept::Fifo(VecDeque::new(alloc)),
            Order::Lifo => Kept::Lifo(VecDeque::new(alloc)),
            Order::Keyed => Kept::Keyed(KeyedMessages::new(alloc)),
        }
    }

    /// Which message is taken.
    pub fn order(&self) -> Order
        ensures { result ≡ order_of self.now }
    {
        match self {
            Kept::Fifo(_) => Order::Fifo,
            Kept::Lifo(_) => Order::Lifo,
            Kept::Keyed(_) => Order::Keyed,
        }
    }

    /// How many messages there are.
    pub fn len(&self) -> usize
        ensures { result ≡ length (messages_of self.now) }
    {
        match self {
            Kept::Fifo(messages) => messages.len(),
            Kept::Lifo(messages) => messages.len(),
            Kept::Keyed(messages) => messages.len(),
        }
    }

    /// The message at a place in the order of arrival, from 0 on; None exactly past the last. With keys it takes time
    /// linear in the place.
    pub fn get(&self, at: usize) -> Option<&Message>
        ensures { option_copied result ≡ slice_get (messages_of self.now) at }
    {
        match self {
            Kept::Fifo(messages) => messages.get(at),
            Kept::Lifo(messages) => messages.get(at),
            Kept::Keyed(messages) => messages.get(at),
        }
    }

    /// The messages in the order of their arrival.
    pub fn messages(&self) -> Messages<'_>
        ensures { result ≡ messages_of self.now }
    {
        match self {
            Kept::Fifo(messages) => Messages::of_plain(messages.iter()),
            Kept::Lifo(messages) => Messages::of_plain(messages.iter()),
            Kept::Keyed(messages) => messages.messages(),
        }
    }

    /// Puts a message after the others; an error leaves them as they were.
    pub fn push(&mut self, message: Message) -> Result<(), NoMemory>
        requires { length message.key ≤ longest_key }
        ensures order { order_of self.new ≡ order_of self.old }
        ensures ok { OnOk result (messages_of self.new ≡ messages_of self.old ++ message ∷ []) }
        ensures err { OnErr result (messages_of self.new ≡ messages_of self.old) }
    {
        match self {
            Kept::Fifo(messages) => push_back(messages, message),
            Kept::Lifo(messages) => push_back(messages, message),
            Kept::Keyed(messages) => messages.push(message),
        }
    }

    /// The message that is taken next; None exactly where there is none.
    pub fn find(&self, relation: Relation, key: &[u8]) -> Option<&Message>
        requires { is_short relation key.now ≡ true }
        ensures { option_copied result ≡ message_at (messages_of self.now) (message_place (order_of self.now) relation key.now (messages_of self.now)) }
    {
        match self {
            Kept::Fifo(messages) => find_oldest(messages),
            Kept::Lifo(messages) => find_newest(messages),
            Kept::Keyed(messages) => messages.find(relation, key),
        }
    }

    fn take_out(&mut self, relation: Relation, key: &[u8]) -> Option<Message>
        requires { is_short relation key.now ≡ true }
        ensures message { result ≡ message_at (messages_of self.old) (message_place (order_of self.old) relation key.now (messages_of self.old)) }
        ensures order { order_of self.new ≡ order_of self.old }
        ensures rest { messages_of self.new ≡ without_at (messages_of self.old) (message_place (order_of self.old) relation key.now (messages_of self.old)) }
    {
        match self {
            Kept::Fifo(messages) => take_oldest(messages),
            Kept::Lifo(messages) => take_newest(messages),
            Kept::Keyed(messages) => messages.take(relation, key),
        }
    }

    /// Takes the message that `find` finds out, without memory.
    pub fn take(&mut self, relation: Relation, key: &[u8]) -> Option<Message>
        requires { is_short relation key.now ≡ true }
        ensures message { result ≡ message_at (messages_of self.old) (message_place (order_of self.old) relation key.now (messages_of self.old)) }
        ensures order { order_of self.new ≡ order_of self.old }
        ensures rest { messages_of self.new ≡ without_at (messages_of self.old) (message_place (order_of self.old) relation key.now (messages_of self.old)) }
        ensures size { IfSome result (λ m. queue_image_size (messages_of self.new) + message_size m ≡ queue_image_size (messages_of self.old)) }
    {
        self.take_out(relation, key)
    }
}
