ghost use Rattle.std.specs.Prelude.{◌≡◌, ◌≤◌};
ghost use Rattle.std.specs.Option.{option_copied, unwrap_or};
ghost use Rattle.s38_queues.specs.MessageQueue.{queue_image_size};
ghost use Rattle.s38_rules.specs.state.PartsAt.{no_queue, queue_at};

use s38_base::ObjNum;
use s38_objects::Objects;
use s38_queues::{Order, Queue};

/// What the rules ask of a queue; what is none reads as a queue without messages.
#[derive(Drop)]
pub struct QueueFacts {
    pub order: Order,
    pub key_len: u8,
    pub longest: u16,
    /// The bytes of its image.
    pub size: u32,
}

/// The facts of a queue.
pub fn facts_of_queue(queue: Option<&Queue>) -> QueueFacts
    ensures order { result.order ≡ (unwrap_or (option_copied queue.entry) no_queue).order }
    ensures key_len { result.key_len ≡ (unwrap_or (option_copied queue.entry) no_queue).key_len }
    ensures longest { result.longest ≡ (unwrap_or (option_copied queue.entry) no_queue).longest }
    ensures size { result.size ≡ queue_image_size (unwrap_or (option_copied queue.entry) no_queue).messages }
    ensures bound { result.size ≤ 16777216 }
{
    match queue {
        None => QueueFacts {
            order: Order::Fifo,
            key_len: 0,
            longest: 0,
            size: 8,
        },
        Some(queue) => QueueFacts {
            order: queue.order(),
            key_len: queue.key_len(),
            longest: queue.longest(),
            size: queue.image_len(),
        },
    }
}

/// The facts of the queue of a number.
pub fn queue_facts(objects: &Objects, number: ObjNum) -> QueueFacts
    ensures order { result.order ≡ (queue_at objects.now number.0).order }
    ensures key_len { result.key_len ≡ (queue_at objects.now number.0).key_len }
    ensures longest { result.longest ≡ (queue_at objects.now number.0).longest }
    ensures size { result.size ≡ queue_image_size (queue_at objects.now number.0).messages }
    ensures bound { result.size ≤ 16777216 }
{
    facts_of_queue(objects.queue(number))
}
