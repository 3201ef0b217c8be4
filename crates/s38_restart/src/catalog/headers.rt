//! Faults of headers that show only beside the others.
ghost use Rattle.std.specs.Prelude.{◌≡◌, ◌==◌, ◌&&◌, ◌||◌, Option, nat_lt, not};
ghost use Rattle.std.specs.List.{list_any};
ghost use Rattle.s38_image.specs.Faults.{header_is_of_kind, header_is_of_other_kind, is_bad_header, is_no_context, is_outside, is_same_in, is_twice};

use crate::catalog::groups::Groups;
use s38_base::{Kind, limits};
use s38_image::Header;

/// Whether a header is there, and is one of this kind.
fn is_kind(kind: Kind, header: Option<Header>) -> bool
    ensures { result ≡ header_is_of_kind kind header }
{
    match header {
        Some(header) => header.id.kind.code() == kind.code(),
        None => false,
    }
}

/// Whether a header is there, and is one of another kind.
pub fn is_other_kind(kind: Kind, header: Option<Header>) -> bool
    ensures { result ≡ header_is_of_other_kind kind header }
{
    match header {
        Some(header) => header.id.kind.code() != kind.code(),
        None => false,
    }
}

/// Whether a context or a profile is outside the machine context.
fn is_outside(header: &Header) -> bool
    ensures { result ≡ is_outside header.now }
{
    let kind = header.id.kind.code();
    (kind == Kind::Context.code() || kind == Kind::Profile.code())
        && header.context.0 != limits::MACHINE_CONTEXT.0
}

/// Whether the context is above the ceiling, or an object of another kind.
fn is_no_context(groups: &Groups<'_>, ceiling: u64, header: &Header) -> bool
    ensures { result ≡ is_no_context groups.now ceiling header.now }
{
    ceiling < header.context.0 || is_other_kind(Kind::Context, groups.header(header.context.0))
}

/// Whether a lower object has the same identification in the same context, which is on disk.
fn is_twice(groups: &Groups<'_>, number: u64, header: &Header, repeated: bool) -> bool
    requires { repeated ≡ list_any (is_same_in number header.now) groups.now }
    ensures { result ≡ is_twice groups.now number header.now }
{
    let _ = number;
    groups.is_on_disk(header.context.0) && repeated
}

/// Whether the header of a number has a fault beside the others.
pub fn is_bad_header(
    groups: &Groups<'_>,
    ceiling: u64,
    number: u64,
    header: &Header,
    repeated: bool,
) -> bool
    requires { repeated ≡ list_any (is_same_in number header.now) groups.now }
    ensures { result ≡ is_bad_header groups.now ceiling number header.now }
{
    ceiling < number
        || !is_kind(Kind::Profile, groups.header(header.owner.0))
        || is_twice(groups, number, header, repeated)
        || is_outside(header)
        || is_no_context(groups, ceiling, header)
}
