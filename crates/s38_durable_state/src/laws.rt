//! Laws about what is durable.
ghost use Rattle.std.specs.Prelude.{◌≡◌, ℕ, All, List, Some, false, true};
ghost use Rattle.s38_code.specs.declared.event.Event.{Event};
ghost use Rattle.s38_durable_state.specs.Durable.{Durable, durable_after, kept};
ghost use Rattle.s38_durable_state.specs.Following.{Counts, Follows, NumbersRise, StaysUserIn};
ghost use Rattle.s38_durable_state.specs.Represents.{Represents, aims_of, is_among, pages_put_at};
ghost use Rattle.s38_page_diff.specs.Aims.{RiseByObject};
ghost use Rattle.s38_image.specs.PartPlaces.{ceiling_key};
ghost use Rattle.s38_laws_objects.specs.Outline.{is_forced};
ghost use Rattle.s38_rules.specs.store.Forcing.{Forced, must_persist};
ghost use Rattle.s38_rules.specs.store.Room.{Room};
ghost use Rattle.s38_rules.specs.state.State.{State};
ghost use Rattle.s38_rules.specs.step.Step.{step};
ghost use Rattle.s38_rules.specs.store.Storing.{room_after};
ghost use Rattle.s38_vault.specs.Content.{Content};

/// After every step that takes effect the store has the header and the rows of each object on disk as they are, and all
/// that is said of a user, and it has nothing of another object.
pub fn what_is_durable_follows()
    ensures { (all : List Forced) (d : Durable) (s : State) → NumbersRise s.held → Follows s.held (durable_after all d s) }
{}

/// The room of a store counts what is durable: if it did before a step, it does after it, where who is a user was kept as
/// one.
pub fn room_counts_what_is_durable()
    ensures { (all : List Forced) (d : Durable) (s : State) (room : Room) → All (StaysUserIn d) s.held.objects → Counts (Some room) d
        → Counts (Some (room_after room all s.held.objects)) (durable_after all d s) }
{}

/// What a step does not force stays durable as it was.
pub fn what_is_not_forced_stays_durable()
    ensures { (s : State) (p : ℕ) (e : Event) (d : Durable) (n : ℕ) → NumbersRise (step s p e).state.held → Follows s.held d → is_forced n (must_persist s p e) ≡ false
        → kept (durable_after (must_persist s p e) d (step s p e).state).objects n ≡ kept d.objects n }
{}

/// A step puts the pages that differ at the numbers that it forces, and at that of the ceiling if the ceiling rises, and no
/// others. If the pages of a vault represented what was durable before it, they represent what is durable after it.
pub fn a_step_puts_what_is_durable()
    ensures { (s : State) (p : ℕ) (e : Event) (m : Content) (d : Durable) (ns : List ℕ) → NumbersRise (step s p e).state.held → Follows s.held d → Represents m d
        → RiseByObject (aims_of (durable_after (must_persist s p e) d (step s p e).state) ns) → ((n : ℕ) → is_forced n (must_persist s p e) ≡ true → is_among n ns ≡ true)
        → (is_among ceiling_key ns ≡ false → (step s p e).state.held.ceiling ≡ d.ceiling)
        → Represents (pages_put_at ns m (durable_after (must_persist s p e) d (step s p e).state)) (durable_after (must_persist s p e) d (step s p e).state) }
{}
