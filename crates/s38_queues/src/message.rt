use s38_base::Bytes;

/// Which message is taken: the oldest, the newest, or the first in the order of keys.
#[derive(Clone, Copy, PartialEq, Eq, PartialOrd, Ord, Debug)]
pub enum Order {
    Fifo,
    Lifo,
    Keyed,
}

/// A message and its key, which is empty where the queue has none.
#[derive(Drop, Debug)]
pub struct Message {
    pub key: Bytes,
    pub text: Bytes,
}
