ghost use Rattle.std.specs.Prelude.{◌≡◌};
ghost use Rattle.s38_base.specs.Ids.{kind_code, same_id};

use crate::name::Name;

/// The number of an object, from 1 on.
#[derive(Clone, Copy, PartialEq, Eq, PartialOrd, Ord, Debug)]
pub struct ObjNum(pub u64);

/// The number of a user: that of the user's profile.
pub type UserNum = ObjNum;

/// The kinds of objects.
#[derive(Clone, Copy, PartialEq, Eq, PartialOrd, Ord, Debug)]
pub enum Kind {
    Context = 1,
    Program = 2,
    Profile = 3,
    Space = 4,
    Queue = 5,
    Index = 6,
    DataSpace = 7,
    Cursor = 8,
    Port = 9,
    Journal = 10,
    Block = 11,
}

impl Kind {
    /// The number of the kind, 1 to 11.
    pub fn code(self) -> u8
        ensures { result ≡ kind_code self }
    {
        match self {
            Kind::Context => 1,
            Kind::Program => 2,
            Kind::Profile => 3,
            Kind::Space => 4,
            Kind::Queue => 5,
            Kind::Index => 6,
            Kind::DataSpace => 7,
            Kind::Cursor => 8,
            Kind::Port => 9,
            Kind::Journal => 10,
            Kind::Block => 11,
        }
    }
}

/// An identification: two objects in one context differ in it.
#[derive(Clone, Copy, PartialEq, Eq, PartialOrd, Ord, Debug)]
pub struct Id {
    pub kind: Kind,
    pub sub: u8,
    pub name: Name,
}

impl Id {
    /// Whether both are one identification.
    #[tactic(auto, unfolding(crate::specs::Ids::same_id))]
    pub fn is(&self, other: &Id) -> bool
        ensures { result ≡ same_id self.now other.now }
    {
        self.kind.code() == other.kind.code() && self.sub == other.sub && self.name == other.name
    }
}
