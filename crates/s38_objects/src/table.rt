//! What the objects are to crates that know no object map: headers by number, and numbers by name.
ghost use Rattle.std.specs.Prelude.{◌≡◌};
ghost use Rattle.s38_rules.specs.state.Headers.{adopts, header_of, limit_of, propagates, special_of};
ghost use Rattle.s38_rules.specs.state.Held.{kind_of};

use crate::objects::Objects;
use s38_base::{Id, Kind, ObjNum, Special};
use s38_rules::{Body, Header, Object, Table};

/// The kind of object that a body makes.
pub fn kind_of(body: &Body) -> Kind
    ensures { result ≡ kind_of body.now }
{
    match body {
        Body::Context => Kind::Context,
        Body::Program(_) => Kind::Program,
        Body::Profile { .. } => Kind::Profile,
        Body::Space(_) => Kind::Space,
        Body::Queue(_) => Kind::Queue,
        Body::Index(_) => Kind::Index,
        Body::DataSpace(_) => Kind::DataSpace,
        Body::Cursor(_) => Kind::Cursor,
        Body::Port(_) => Kind::Port,
        Body::Journal(_) => Kind::Journal,
        Body::Block(_) => Kind::Block,
    }
}

/// The special authorities of a user, none for other kinds.
fn special_of(body: &Body) -> Special
    ensures { result.0 ≡ special_of body.now }
{
    match body {
        Body::Profile { special, .. } => *special,
        _ => Special(0),
    }
}

/// How many pages a user may own, 0 for other kinds.
fn limit_of(body: &Body) -> u32
    ensures { result ≡ limit_of body.now }
{
    match body {
        Body::Profile { limit, .. } => *limit,
        _ => 0,
    }
}

fn adopts(body: &Body) -> bool
    ensures { result ≡ adopts body.now }
{
    match body {
        Body::Program(code) => code.program().adopts,
        _ => false,
    }
}

fn propagates(body: &Body) -> bool
    ensures { result ≡ propagates body.now }
{
    match body {
        Body::Program(code) => code.program().propagates,
        _ => false,
    }
}

fn header_of(object: &Object) -> Header
    ensures { result ≡ header_of object.now }
{
    Header {
        kind: kind_of(&object.body),
        owner: object.owner,
        public: object.public,
        adopts: adopts(&object.body),
        propagates: propagates(&object.body),
        special: special_of(&object.body),
        limit: limit_of(&object.body),
    }
}

impl Table for Objects {
    ghost held = { λ h. h };

    fn header(&self, number: ObjNum) -> Option<Header> {
        match self.get(number) {
            None => None,
            Some(object) => Some(header_of(object)),
        }
    }

    fn number_of(&self, context: ObjNum, id: &Id) -> Option<ObjNum> {
        self.find(context, id)
    }
}
