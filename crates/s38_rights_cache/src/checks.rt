//! Whether rights that are needed are there.
ghost use Rattle.std.specs.Prelude.{◌≡◌, ◌<◌, true};
ghost use Rattle.std.specs.Option.{option_map};
ghost use Rattle.std.specs.Result.{result_err};
ghost use Rattle.s38_rules.specs.ask.Authority.{available, missing_in};
ghost use Rattle.s38_rules.specs.state.Held.{is_there};
ghost use Rattle.s38_rules.specs.ask.Users.{acting};
ghost use Rattle.s38_rights_cache.specs.Places.{ArePlacesRight, IsChecked, is_live};
ghost use Rattle.s38_rights_cache.specs.Worlds.{place_of};

use crate::found::Verified;
use crate::world::World;
use s38_authority::has_rights;
use s38_base::{ObjNum, Rights};
use s38_profiles::CountedRows;
use s38_rules::Table;

/// Needed rights that are not available.
#[derive(Clone, Copy, PartialEq, Eq, Debug)]
pub struct Missing(pub Rights);

/// Exactly the needed rights that are not there, where some are not.
fn missing_in(needed: Rights, there: Rights) -> Result<(), Missing>
    ensures { option_map (λ m. m.0) (result_err result) ≡ missing_in needed.0 there.0 }
{
    if has_rights(needed, there) {
        return Ok(());
    }
    Err(Missing(Rights(needed.0 & (255 - there.0))))
}

/// Exactly the needed rights that are not available to a process on an object that is there, where some are not. What was
/// found before is used again where the process's place is current, and no row is visited then; else the rows are visited,
/// and the place keeps what they say. The answer is in both cases what the rows say now.
#[tactic(auto, unfolding(s38_rules::specs::ask::Authority::available))]
pub fn check<T: Table, P: CountedRows>(
    world: &mut World<T, P>,
    process: u32,
    depth: u16,
    object: ObjNum,
    carried: Rights,
    needed: Rights,
) -> Result<(), Missing>
    requires live { is_live world.old.state process ≡ true }
    requires depth { 0 < depth }
    requires there { is_there world.old.state.held object.0 ≡ true }
    requires right { ArePlacesRight world.old }
    ensures answer { option_map (λ m. m.0) (result_err result) ≡ missing_in needed.0 (available world.old.state.held (acting world.old.state process depth) object.0 carried.0) }
    ensures checked { IsChecked world.old process depth object world.new }
{
    let there = world.verify(process, depth, object);
    missing_in(needed, Rights(carried.0 | there.0))
}

/// What was found for a process; None exactly where its place is empty.
pub fn verified<T: Table, P: CountedRows>(world: &World<T, P>, process: u32) -> Option<Verified>
    ensures { result ≡ place_of world.now process }
{
    world.place(process)
}
