ghost use Rattle.std.specs.Prelude.{◌≡◌, IfOk};
ghost use Rattle.s38_image.specs.Faults.{header_at};
ghost use Rattle.s38_image.specs.Images.{header_in_parts, leading};

use s38_base::{Change, NoMemory};
use s38_codec::ReadFault;
use s38_image::{Header, ROWS_PART, header_in, split_at_part};
use std::alloc::Global;
use std::marker::Model;

/// The header of a number that its parts hold, None if it does not keep to its form.
fn header_among(alloc: Global, number: u64, parts: &[Change]) -> Result<Option<Header>, NoMemory>
    ensures { IfOk result (λ header. header ≡ header_in_parts number (leading 1 parts.now)) }
{
    let (front, _) = split_at_part(ROWS_PART, parts);
    match header_in(alloc, number, front) {
        Ok(header) => Ok(Some(header)),
        Err(ReadFault::BadForm) => Ok(None),
        Err(ReadFault::NoMemory) => Err(NoMemory),
    }
}

/// A number with a header page, and the parts that the store has of it. Contracts see these two. Its header was read.
#[derive(Drop)]
pub struct Group<'a> {
    number: u64,
    parts: &'a [Change],
    header: Option<Header>,
}

impl<'a> Model for Group<'a> {
    ghost use Rattle.std.specs.Prelude.{◌≡◌};
    ghost use Rattle.s38_image.specs.Faults.{Group as Parts};
    ghost use Rattle.s38_image.specs.Images.{header_in_parts, leading};

    ghost Value = { Parts };

    ghost view = { λ g. record { number = g.number; parts = g.parts.now } };

    ghost invariant = { λ g. g.header ≡ header_in_parts g.number (leading 1 g.parts.now) };
}

impl<'a> Group<'a> {
    /// A number with its parts; its header is read. `NoMemory` where memory was refused.
    pub fn new(alloc: Global, number: u64, parts: &'a [Change]) -> Result<Self, NoMemory>
        ensures { IfOk result (λ group. group ≡ record { number = number; parts = parts.now }) }
    {
        let header = header_among(alloc, number, parts)?;
        Ok(Group {
            number,
            parts,
            header,
        })
    }

    /// The number.
    pub fn number(&self) -> u64
        ensures { result ≡ self.now.number }
    {
        self.number
    }

    /// Its parts.
    pub fn parts(&self) -> &'a [Change]
        ensures { result.now ≡ self.now.parts }
    {
        self.parts
    }

    /// Its header, None if it does not keep to its form.
    pub fn header(&self) -> Option<Header>
        ensures { result ≡ header_at self.now }
    {
        self.header
    }
}
