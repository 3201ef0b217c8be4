//! What a step has kept of the image of a data space and of its journal space.
ghost use Rattle.std.specs.List.{list_any};
ghost use Rattle.std.specs.Prelude.{◌≡◌, ℕ, List, None, Some, false, true};
ghost use Rattle.s38_durable_state.specs.Durable.{Durable, durable_after, kept, whole_object, with_header_and_rows};
ghost use Rattle.s38_durable_state.specs.Following.{NumbersRise};
ghost use Rattle.s38_image.specs.declared.stored.Stored.{Stored};
ghost use Rattle.s38_rules.specs.store.Forcing.{Forced, is_whole};
ghost use Rattle.s38_rules.specs.state.Held.{object};
ghost use Rattle.s38_rules.specs.state.State.{State};
ghost use Rattle.s38_rules.specs.declared.object.Object.{Object};

/// After a step each object on disk that the step forces whole is kept in its current state: a data space with every
/// uncommitted change taken back, and with the last sequence of its journal space; a journal space with all its
/// entries. Any other object that was kept keeps its image, and so its sequence and its entries; only what is said
/// beside its body follows. What no longer exists is not kept.
pub fn a_step_keeps_an_image_or_takes_it_anew()
    ensures anew { (all : List Forced) (d : Durable) (s : State) (n : ℕ) (o : Object) → NumbersRise s.held → object s.held n ≡ Some o → o.on_disk ≡ true
        → list_any (is_whole n) all ≡ true → kept (durable_after all d s).objects n ≡ Some (whole_object s o) }
    ensures stays { (all : List Forced) (d : Durable) (s : State) (n : ℕ) (o : Object) (x : Stored) → NumbersRise s.held → object s.held n ≡ Some o → o.on_disk ≡ true
        → list_any (is_whole n) all ≡ false → kept d.objects n ≡ Some x → kept (durable_after all d s).objects n ≡ Some (with_header_and_rows o x) }
    ensures gone { (all : List Forced) (d : Durable) (s : State) (n : ℕ) → NumbersRise s.held → object s.held n ≡ None → kept (durable_after all d s).objects n ≡ None }
{}
