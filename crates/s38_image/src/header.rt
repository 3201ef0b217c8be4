use s38_base::{Id, ObjNum, Rights, UserNum};

/// What the first part of an object says: all but its rows and its body, and how long these are.
#[derive(Clone, Copy, Debug)]
pub struct Header {
    pub id: Id,
    /// The context that holds it, or 0.
    pub context: ObjNum,
    pub owner: UserNum,
    /// The rights of everybody.
    pub public: Rights,
    /// How many private rows there are.
    pub rows: u32,
    /// How many bytes the body has.
    pub body: u32,
}
