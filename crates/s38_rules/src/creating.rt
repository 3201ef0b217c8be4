use s38_base::{Id, ObjNum, Rights};

/// What a creating instruction says of the object that it makes.
#[derive(Clone, Copy, PartialEq, Eq, Debug)]
pub struct Creating {
    /// The context that is to hold it, or 0.
    pub context: ObjNum,
    pub id: Option<Id>,
    /// The operand of the identification.
    pub place: u8,
    /// The rights of everybody.
    pub public: Rights,
    /// What its owner pays for it.
    pub pages: u64,
}
