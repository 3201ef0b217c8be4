use s38_base::{Category, Kind, ObjNum, Rights};

/// Which object a need speaks of.
#[derive(Clone, Copy, PartialEq, Eq, Debug)]
pub enum Named {
    /// That of the pointer at the operand.
    Written,
    /// One that the operand names without a pointer.
    Implied(ObjNum),
}

/// What kind of pointer an operand has to be.
#[derive(Clone, Copy, PartialEq, Eq, Debug)]
pub enum PointerKind {
    System,
    Space,
    Item,
    Any,
}

/// Which objects suit an operand.
#[derive(Clone, Copy, PartialEq, Eq, Debug)]
pub enum Sought {
    /// Those of every kind.
    Any,
    /// Those of this kind.
    Of(Kind),
    /// Contexts but the machine's: new objects are put there.
    Container,
    /// The pointer alone is used, and no object is looked at.
    Ignored,
}

/// What the acting users must have over an object.
#[derive(Clone, Copy, PartialEq, Eq, Debug)]
pub enum Claim {
    /// The rights are available.
    Available,
    /// One of them owns the object or has all-object authority; or object management and the rights are available,
    /// and neither object management nor object control is among the rights.
    Granting,
    /// One of them owns the object or has all-object authority.
    Ownership,
}

/// What an instruction needs of an operand: the kinds of pointer and of object, authority over the object, and
/// what the instruction does to it.
#[derive(Clone, Copy, PartialEq, Eq, Debug)]
pub struct Need {
    /// The number of the operand, from 1 on; 0 for an object that no operand names.
    pub place: u8,
    pub named: Named,
    pub pointer: PointerKind,
    pub sought: Sought,
    pub rights: Rights,
    pub claim: Claim,
    /// None: locks of others don't block.
    pub category: Option<Category>,
}

/// An object, and the context in which a search found it.
#[derive(Clone, Copy, PartialEq, Eq, Debug)]
pub struct Located {
    pub context: ObjNum,
    pub object: ObjNum,
}
