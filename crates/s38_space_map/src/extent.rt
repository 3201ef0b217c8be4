//! How many pages a store has of an object.
ghost use Rattle.std.specs.Prelude.{◌≡◌, ◌+◌, ◌*◌, ◌≤◌};
ghost use Rattle.s38_rules.specs.store.Room.{more_parts, pages_begun, parts_of};

use s38_base::ObjNum;
use s38_base::limits::PAGE_BYTES;
use std::marker::Model;

/// How many bytes the row of a user has.
const ROW_LEN: u32 = 9;

/// How many pages of rows and of its body a store has of an object. Contracts see it as the definitions say it.
#[derive(Clone, Copy, PartialEq, Eq, Debug)]
pub struct Extent {
    number: ObjNum,
    rows: u32,
    body: u32,
}

impl Model for Extent {
    ghost use Rattle.s38_rules.specs.store.Room.{Extent};

    ghost Value = { Extent };

    ghost view = { λ x. record { number = x.number.0; rows = x.rows; body = x.body } };

    ghost inverse = { λ x. record { number = record { 0 = x.number }; rows = x.rows; body = x.body } };
}

/// How many pages so many bytes begin.
pub fn pages_begun(len: u32) -> u32
    requires { len ≤ 16908327 }
    ensures pages { result ≡ pages_begun len }
    ensures bound { result ≤ 33025 }
{
    (len + (PAGE_BYTES - 1)) / PAGE_BYTES
}

/// How many pages so many rows begin.
pub fn pages_of_rows(rows: usize) -> u32
    requires { rows ≤ 4097 }
    ensures pages { result ≡ pages_begun (9 * rows) }
    ensures bound { result ≤ 73 }
{
    pages_begun(ROW_LEN * rows as u32)
}

impl Extent {
    /// An extent with so many pages of rows and of its body.
    pub fn new(number: ObjNum, rows: u32, body: u32) -> Extent
        ensures { result ≡ record { number = number.0; rows = rows; body = body } }
    {
        Extent { number, rows, body }
    }

    /// How many parts are new where an extent becomes this one; of an object that is new the header too.
    pub fn more_parts(&self, old: Option<Extent>) -> u32
        requires rows { self.now.rows ≤ 65536 }
        requires body { self.now.body ≤ 65536 }
        ensures parts { result ≡ more_parts old self.now }
        ensures bound { result ≤ 1 + (self.now.rows + self.now.body) }
    {
        match old {
            None => 1 + (self.rows + self.body),
            Some(old) => self.rows.saturating_sub(old.rows) + self.body.saturating_sub(old.body),
        }
    }

    /// The object's number.
    pub fn number(&self) -> ObjNum
        ensures { result.0 ≡ self.now.number }
    {
        self.number
    }

    /// How many pages the store has of its body.
    pub fn body(&self) -> u32
        ensures { result ≡ self.now.body }
    {
        self.body
    }

    /// How many parts the object has: its header, and its pages.
    pub fn parts(&self) -> u64
        ensures { result ≡ parts_of self.now }
    {
        1 + (u64::from(self.rows) + u64::from(self.body))
    }
}
