//! Laws about the end of a run.
ghost use Rattle.std.specs.Prelude.{◌≡◌, ◌++◌, ℕ, List};
ghost use Rattle.s38_redo_log.specs.Store as stores;
ghost use Rattle.s38_redo_log.specs.declared.layout.Layout.{Layout};
ghost use Rattle.s38_laws_checkpoint.specs.prefix.Bytes.{AreOfBytes};
ghost use Rattle.s38_checkpoint.specs.Closing.{closing, content_of};
ghost use Rattle.s38_checkpoint.specs.Ensuring.{IsAfter};
ghost use Rattle.s38_disk.specs.declared.block.Block.{Block};
ghost use Rattle.s38_durable_state.specs.Durable.{Durable, closed};
ghost use Rattle.s38_durable_state.specs.Represents.{Represents};
ghost use Rattle.s38_laws_flush.specs.durable.Kept.{HasParts, IsKeptOf};
ghost use Rattle.s38_rules.specs.state.State.{State};
ghost use Rattle.s38_rules.specs.declared.object.Object.{Object};
ghost use Rattle.s38_flush.specs.Stepping.{HaveHeaders};
ghost use Rattle.s38_vault.specs.Content.{Content};
ghost use Rattle.s38_vault.specs.Directory.{NameObjects, keys_of};

use s38_durable_state::what_is_durable_follows;

/// A content that a checkpoint reaches after the first objects represents what is durable once the machine has ensured
/// these objects one after another, where one represented what was durable before. Once the machine has ensured all,
/// each current object is durable, and nothing else; and the content that the checkpoint leaves represents that, if
/// each header can be read again.
pub fn what_is_reached_is_closed()
    ensures reached { (s : State) (d : Durable) (m n : Content) (gone rest : List Object) → IsKeptOf s d → Represents m d → NameObjects (keys_of n) → s.held.objects ≡ gone ++ rest
        → IsAfter m (closing s.units s.held) s.held gone n → Represents n (closed d s gone) }
    ensures closed { (s : State) (d : Durable) → IsKeptOf s d → closed d s s.held.objects ≡ closing s.units s.held }
    ensures content { (s : State) (d : Durable) → IsKeptOf s d → HaveHeaders (closing s.units s.held) → Represents (content_of (closing s.units s.held)) (closing s.units s.held) }
{
    what_is_durable_follows();
}

/// A store has no page of object 0, and if its blocks are of bytes, then each part is a number of 32 bits, whatever a crash left
/// of it.
pub fn a_store_names_objects()
    ensures objects { (lay : Layout) (f : ℕ → Block) (m : Content) → stores.RecoversTo lay f m → NameObjects (keys_of m) }
    ensures parts { (lay : Layout) (f : ℕ → Block) (m : Content) → stores.RecoversTo lay f m → AreOfBytes f → HasParts m }
{}
