/// Some parts of an object: those from one on, before another.
#[derive(Clone, Copy, PartialEq, Eq, Debug)]
pub struct PartRange {
    pub object: u64,
    pub first: u32,
    pub end: u32,
}
