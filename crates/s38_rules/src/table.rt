//! What the objects are to the crates below the object map: headers by number, numbers by name, and what is said of
//! users.
ghost use Rattle.std.specs.Prelude.{◌≡◌, IfOk};
ghost use Rattle.s38_rules.specs.state.Held.{Held, number_found, object};
ghost use Rattle.s38_rules.specs.state.Headers.{header_in};
ghost use Rattle.s38_rules.specs.state.Kept.{CanBeKept, Mirrors};

use s38_base::{Id, Kind, NoMemory, ObjNum, Rights, Special, UserNum};
use s38_profiles::Profiles;
use std::alloc::Global;

/// What is said of an object beside its name and what it holds.
#[derive(Clone, Copy, PartialEq, Eq, Debug)]
pub struct Header {
    pub kind: Kind,
    pub owner: UserNum,
    /// The rights of everybody.
    pub public: Rights,
    /// A program whose owner acts too while it runs.
    pub adopts: bool,
    /// A program whose adoption reaches the programs that it calls.
    pub propagates: bool,
    /// The special authorities of a user; none for other kinds.
    pub special: Special,
    /// How many pages a user may own; 0 for other kinds.
    pub limit: u32,
}

/// The objects by number.
pub trait Table {
    ghost held: { Self → Held };

    /// The header of an object; None exactly where there is none of the number.
    fn header(&self, number: ObjNum) -> Option<Header>
        ensures { result ≡ header_in (object (held self.now) number.0) };

    /// The number of the object of an identification in a context; None exactly where there is none.
    fn number_of(&self, context: ObjNum, id: &Id) -> Option<ObjNum>
        ensures { result ≡ number_found (held self.now) context.0 id.now };
}

/// The objects, with what is said of users.
pub trait TableRows: Table {
    /// What is kept of users beside the objects: the rows, each user's special authorities, limit and charge.
    /// `NoMemory` where memory was refused.
    fn profiles(&self, alloc: Global) -> Result<Profiles, NoMemory>
        requires { CanBeKept (Self.held self.now) }
        ensures { IfOk result (λ profiles. Mirrors profiles (Self.held self.now)) };
}
