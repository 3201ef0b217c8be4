ghost use Rattle.std.specs.Prelude.{◌≡◌};
ghost use Rattle.std.specs.Iterator.{YieldsFirstRef, item_count};
ghost use Rattle.std.specs.VecDeque.Iter.{deque_iter_rest};

use crate::message::Message;
use std::collections::{btree_map, vec_deque};
use std::marker::Model;

/// The messages that are still to come, in the form in which the queue keeps them.
#[derive(Drop)]
enum Left<'a> {
    Plain(vec_deque::Iter<'a, Message>),
    Keyed(btree_map::Values<'a, u64, Message>),
}

/// Messages of a queue in the order of their arrival, each reached in at most logarithmic time. Contracts see them as
/// the list of the messages that are still to come.
#[derive(Drop)]
pub struct Messages<'a> {
    left: Left<'a>,
}

impl<'a> Model for Messages<'a> {
    ghost use Rattle.std.specs.Prelude.{List};
    ghost use Rattle.s38_queues.specs.declared.message.Message.{Message};
    ghost use Rattle.s38_queues.specs.Left.{messages_left};

    ghost Value = { List Message };

    ghost view = { λ m. messages_left m.left };
}

impl<'a> Messages<'a> {
    /// The messages of a queue without keys.
    pub(crate) fn of_plain(messages: vec_deque::Iter<'a, Message>) -> Messages<'a>
        ensures { result ≡ deque_iter_rest messages.entry }
    {
        Messages {
            left: Left::Plain(messages),
        }
    }

    /// The messages of a queue with keys.
    pub(crate) fn of_keyed(messages: btree_map::Values<'a, u64, Message>) -> Messages<'a>
        ensures { result ≡ messages.entry }
    {
        Messages {
            left: Left::Keyed(messages),
        }
    }
}

impl<'a> Iterator for Messages<'a> {
    type Item = &'a Message;

    ghost next_gives = { YieldsFirstRef (λ messages. messages) };

    ghost remaining = { item_count (λ messages. messages) };

    fn next(&mut self) -> Option<&'a Message> {
        match &mut self.left {
            Left::Plain(messages) => messages.next(),
            Left::Keyed(messages) => messages.next(),
        }
    }
}
