//! Laws about the room of a store.
ghost use Rattle.std.specs.Prelude.{◌≡◌, ℕ, List, Some, map};
ghost use Rattle.std.specs.List.Sorted.{IsStrictlyIncreasing};
ghost use Rattle.s38_code.specs.declared.event.Event.{Event};
ghost use Rattle.s38_durable_state.specs.Durable.{Durable};
ghost use Rattle.s38_durable_state.specs.Following.{Counts, Follows};
ghost use Rattle.s38_objects.specs.Lawful.{number_of};
ghost use Rattle.s38_rules.specs.step.Effect.{effect_of};
ghost use Rattle.s38_rules.specs.store.Forcing.{Forced, must_persist};
ghost use Rattle.s38_rules.specs.state.Held.{Held};
ghost use Rattle.s38_rules.specs.store.Room.{Extent, Room};
ghost use Rattle.s38_rules.specs.state.State.{State};
ghost use Rattle.s38_rules.specs.store.Storing.{room_after, stored};
ghost use Rattle.s38_space_rules.specs.Following.{Fits, FitsBut};

/// A room that counts what is durable fits the objects that this follows.
pub fn what_counts_fits()
    ensures { (room : Room) (d : Durable) (h : Held) → Follows h d → Counts (Some room) d → Fits room.extents h }
{}

/// Where the room fits the objects before an event, it fits those after it of which nothing must persist.
pub fn what_is_not_forced_fits()
    ensures { (s : State) (p : ℕ) (e : Event) (xs : List Extent) → Fits xs s.held → FitsBut (must_persist s p e) xs (effect_of s p e).state.held }
{}

/// The room after a step fits the objects to which the step leads, also once all their bytes are kept.
pub fn what_follows_fits()
    ensures objects { (room : Room) (all : List Forced) (h : Held) → IsStrictlyIncreasing (map number_of h.objects) → Fits (room_after room all h.objects).extents h }
    ensures stored { (s : State) (p : ℕ) (e : Event) (t : State) (xs : List Extent) → Fits xs t.held → Fits xs (stored s p e t).held }
{}
