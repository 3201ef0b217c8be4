//! The rights that the acting users bring to an object, read from their rows; each visit of a row is counted.
ghost use Rattle.std.specs.Prelude.{◌≡◌, ◌-◌, ◌≤◌, ◌∷◌, length, slice_get, true};
ghost use Rattle.s38_rules.specs.ask.Authority.{available, source_by, sources_by};
ghost use Rattle.s38_rules.specs.state.Headers.{public_in};
ghost use Rattle.s38_rules.specs.state.Held.{is_there, object};
ghost use Rattle.s38_rules.specs.state.Invocations.{most_frames, stack_in};
ghost use Rattle.s38_rules.specs.state.Kept.{Mirrors};
ghost use Rattle.s38_rules.specs.state.State.{started_in};
ghost use Rattle.s38_rules.specs.ask.Users.{adopted, user_in};
ghost use Rattle.s38_rights_cache.specs.Places.{is_live_in, visited};

use s38_authority::has_rights;
use s38_base::{ObjNum, Rights, Special, UserNum};
use s38_invoke::{adoption_of, entry_in, frame_header, stack_in, started_in, user_in};
use s38_profiles::CountedRows;
use s38_rules::{ProcessEntry, Table};

/// The rights that a user brings to an object with these rights of everybody. Its row is visited.
#[tactic(auto, using(crate::proofs::VisitLaws::mirrors_visited), unfolding(s38_rules::specs::ask::Authority::source_by))]
fn source_by<T: Table, P: CountedRows>(
    objects: &T,
    profiles: &mut P,
    number: ObjNum,
    public: Rights,
    user: UserNum,
) -> u8
    requires kept { Mirrors (P.maps profiles.old) (T.held objects.now) }
    requires public { public.0 ≡ public_in (object (T.held objects.now) number.0) }
    ensures rights { result ≡ source_by (T.held objects.now) number.0 user.0 }
    ensures visits { P.maps profiles.new ≡ visited 1 (P.maps profiles.old) }
    ensures kept { Mirrors (P.maps profiles.new) (T.held objects.now) }
{
    let _ = objects;
    let row = profiles.row(user, number);
    let special = profiles.specials(user);
    if has_rights(Rights(Special::ALLOBJ.0), Rights(special.0)) {
        255
    } else {
        public.0 | row.0
    }
}

/// The rights that the owners bring whom these frames bring. The row of each is visited.
fn adopted_sources<T: Table, P: CountedRows>(
    objects: &T,
    profiles: &mut P,
    number: ObjNum,
    public: Rights,
    frames: &[ObjNum],
) -> u8
    requires kept { Mirrors (P.maps profiles.old) (T.held objects.now) }
    requires public { public.0 ≡ public_in (object (T.held objects.now) number.0) }
    ensures rights { result ≡ sources_by (T.held objects.now) number.0 (adopted (T.held objects.now) frames.now) }
    ensures visits { P.maps profiles.new ≡ visited (length (adopted (T.held objects.now) frames.now)) (P.maps profiles.old) }
    ensures kept { Mirrors (P.maps profiles.new) (T.held objects.now) }
{
    match frames {
        [] => 0,
        [frame, more @ ..] => {
            match adoption_of(more.is_empty(), frame_header(objects, *frame)) {
                None => adopted_sources(objects, profiles, number, public, more),
                Some(owner) => {
                    let own = source_by(objects, profiles, number, public, owner);
                    own | adopted_sources(objects, profiles, number, public, more)
                }
            }
        }
    }
}

/// The user of a started process, 0 for none.
pub fn user_of(processes: &[ProcessEntry], process: u32) -> UserNum
    ensures { result.0 ≡ user_in (started_in (slice_get processes.now (process - 1))) }
{
    user_in(started_in(entry_in(processes, process)))
}

/// The programs of a started process's invocations, the newest last; none for another.
pub fn stack_of(processes: &[ProcessEntry], process: u32) -> &[ObjNum]
    ensures value { result.now ≡ stack_in (started_in (slice_get processes.now (process - 1))) }
    ensures few { length result.now ≤ most_frames }
{
    stack_in(started_in(entry_in(processes, process)))
}

/// Whether a process has started, and has not ended.
pub fn is_live(processes: &[ProcessEntry], process: u32) -> bool
    ensures { result ≡ is_live_in (slice_get processes.now (process - 1)) }
{
    match entry_in(processes, process) {
        None => false,
        Some(entry) => entry.started.is_some() && !entry.ended,
    }
}

/// The rights of everybody on the object of a number, none without it.
fn public_of<T: Table>(objects: &T, number: ObjNum) -> Rights
    ensures { result.0 ≡ public_in (object (T.held objects.now) number.0) }
{
    match objects.header(number) {
        None => Rights(0),
        Some(header) => header.public,
    }
}

/// The rights on an object that is there which a user brings, and the owners whom frames bring. The row of each is visited.
#[tactic(auto, using(crate::proofs::VisitLaws::visited_then), unfolding(s38_rules::specs::ask::Authority::available))]
pub fn read_rights<T: Table, P: CountedRows>(
    objects: &T,
    profiles: &mut P,
    number: ObjNum,
    user: UserNum,
    frames: &[ObjNum],
) -> Rights
    requires kept { Mirrors (P.maps profiles.old) (T.held objects.now) }
    requires there { is_there (T.held objects.now) number.0 ≡ true }
    ensures rights { result.0 ≡ available (T.held objects.now) (user.0 ∷ adopted (T.held objects.now) frames.now) number.0 0 }
    ensures visits { P.maps profiles.new ≡ visited (length (user.0 ∷ adopted (T.held objects.now) frames.now)) (P.maps profiles.old) }
    ensures kept { Mirrors (P.maps profiles.new) (T.held objects.now) }
{
    let public = public_of(objects, number);
    let own = source_by(objects, profiles, number, public, user);
    Rights(own | adopted_sources(objects, profiles, number, public, frames))
}
