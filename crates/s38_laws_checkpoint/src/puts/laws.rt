//! Laws about what a close puts.
ghost use Rattle.std.specs.Prelude.{◌≡◌, ◌++◌, ◌≤◌, All, List, length};
ghost use Rattle.std.specs.FinMap.{get};
ghost use Rattle.s38_laws_checkpoint.specs.puts.Ending.{IsClosedTo, IsEnding, IsShort};
ghost use Rattle.s38_checkpoint.specs.Closing.{closing};
ghost use Rattle.s38_checkpoint.specs.Ensuring.{IsAfter, IsLeft, next_changes};
ghost use Rattle.s38_durable_state.specs.Durable.{Durable};
ghost use Rattle.s38_durable_state.specs.Represents.{Represents};
ghost use Rattle.s38_laws_flush.specs.puts.OnePut.{BodiesAreShort};
ghost use Rattle.s38_rules.specs.state.State.{State};
ghost use Rattle.s38_rules.specs.declared.object.Object.{Object};
ghost use Rattle.s38_vault.specs.Content.{Content};
ghost use Rattle.s38_vault.specs.Directory.{NameObjects, keys_of};
ghost use Rattle.s38_vault.specs.Vaults.{most_changes};

use s38_durable_state::what_is_durable_follows;

/// Where a checkpoint has written the objects before the next one, that one needs no more changes than one put takes;
/// and after the last object the ceiling and the orphan pages need none. So a crash leaves, where the puts of a
/// checkpoint take that many changes, what is durable once the machine has ensured the first objects, one after
/// another. What a checkpoint keeps is short where the objects are.
pub fn each_object_is_closed_by_one_put()
    ensures next { (s : State) (d : Durable) (m n : Content) (gone rest : List Object) → IsEnding s d → Represents m d → s.held.objects ≡ gone ++ rest → IsAfter m (closing s.units s.held) s.held gone n
        → length (next_changes s.held (closing s.units s.held) (get n) rest) ≤ most_changes }
    ensures left { (s : State) (d : Durable) (m n : Content) → IsEnding s d → Represents m d → NameObjects (keys_of n) → IsLeft most_changes m (closing s.units s.held) s.held n → IsClosedTo s d n }
    ensures short { (s : State) → All IsShort s.held.objects → BodiesAreShort (closing s.units s.held) }
{
    what_is_durable_follows();
}
