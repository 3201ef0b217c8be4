//! Laws about what can be restarted.
ghost use Rattle.std.specs.Prelude.{◌≡◌, ◌≤◌, ◌++◌, ℕ, All, List, None, Option, [], true};
ghost use Rattle.s38_base.specs.Limits.{body_limit};
ghost use Rattle.s38_base.specs.declared.exception.Exception.{Exception};
ghost use Rattle.s38_base.specs.declared.id.Kind.TheVariants as kinds;
ghost use Rattle.s38_checkpoint.specs.Closing.{closing, content_of};
ghost use Rattle.s38_code.specs.declared.deck.Job.{Job};
ghost use Rattle.s38_code.specs.declared.entry.Entry.{Entry};
ghost use Rattle.s38_code.specs.declared.event.Event.{Event};
ghost use Rattle.s38_code.specs.declared.made.CheckedTemplate.{CheckedTemplate};
ghost use Rattle.s38_code.specs.declared.reply.Reply.TheVariants.{Done, MustWait, Signal};
ghost use Rattle.s38_code.specs.declared.reply.Val.{Val};
ghost use Rattle.s38_durable_state.specs.Durable.{Durable, after_reply, closed, durable, durable_after, kept};
ghost use Rattle.s38_durable_state.specs.Represents.{Represents};
ghost use Rattle.s38_restart.specs.catalog.Stores.{first_fault};
ghost use Rattle.s38_image_writer.specs.Parts.{CanSettle};
ghost use Rattle.s38_laws_flush.specs.durable.Beginning.{durable_in, origin_of};
ghost use Rattle.s38_laws_flush.specs.durable.Crashes.{RepresentsPrefix};
ghost use Rattle.s38_laws_flush.specs.durable.Kept.{AreImages, HasParts, IsKeptOf};
ghost use Rattle.s38_laws_images.specs.openings.Bodies.{HoldsBody};
ghost use Rattle.s38_laws_flush.specs.puts.Trails.{IsTrailOf};
ghost use Rattle.s38_laws_images.specs.readable.Readable.{IsReadable};
ghost use Rattle.s38_restart.specs.Parts.{AreParts, all_parts};
ghost use Rattle.s38_restart.specs.Restarted.{restarted};
ghost use Rattle.s38_laws_recovery.specs.Restartable.{AllImages, AreAnswered, CanRestartBetween, IsRestartable};
ghost use Rattle.s38_flush.specs.Leftovers.{RepresentsUpToOrphans};
ghost use Rattle.s38_laws_recovery.specs.Restarting.{CanRestart, is_kind_kept};
ghost use Rattle.s38_laws_recovery.specs.Restarts.{IsRestartedAfter, RestartsTo, next_number_after, next_restarted};
ghost use Rattle.s38_rules.specs.store.Forcing.{must_persist};
ghost use Rattle.s38_rules.specs.state.Held.{Held};
ghost use Rattle.s38_rules.specs.step.Legal.{IsEntry, Leads};
ghost use Rattle.s38_rules.specs.state.Opening.{held_installed};
ghost use Rattle.s38_rules.specs.families.Profiles.{officer};
ghost use Rattle.s38_rules.specs.store.Room.{Room};
ghost use Rattle.s38_rules.specs.state.State.{State};
ghost use Rattle.s38_rules.specs.step.Step.{step};
ghost use Rattle.s38_rules.specs.declared.object.Object.{Object};
ghost use Rattle.s38_laws_state.specs.Order.{AreInOrder};
ghost use Rattle.s38_flush.specs.Stepping.{raised};
ghost use Rattle.s38_vault.specs.Content.{Content};
ghost use Rattle.s38_rules.specs.step.Histories.{Throughout};

use s38_durable_state::{
    room_counts_what_is_durable, what_is_durable_follows, what_is_not_forced_stays_durable,
};

/// A content that has the pages of what can restart has no fault, and is restarted to just that: its objects, its
/// ceiling, and what a restart makes of them; the security officer is read as the user that it is. The content may have
/// orphan pages as well. A content that represents what is durable has the pages of it.
pub fn what_can_restart_restarts()
    ensures restarts { (m : Content) (d : Durable) → HasParts m → RepresentsUpToOrphans m d → CanRestart d → RestartsTo m d }
    ensures first_user { (m : Content) (d : Durable) → HasParts m → RepresentsUpToOrphans m d → CanRestart d → is_kind_kept kinds.Profile (kept (durable_in m).objects officer) ≡ true }
    ensures stands { (m : Content) (d : Durable) → Represents m d → RepresentsUpToOrphans m d }
{}

/// A store that was just installed can restart. What a state of a run needs, so that what is durable can restart, holds
/// as the run begins over a content without a fault. It holds after each step, and so at the end of a history. Then
/// what is durable in the state can restart where it can be read again and the objects of the state are in order. After
/// the put of a ceiling what was durable still can.
pub fn what_is_durable_can_restart()
    ensures installed { CanRestart (closing [] held_installed) }
    ensures begins { (m : Content) (h : Held) (templates : List CheckedTemplate) (jobs : List Job) (room : Option Room) → AreParts (all_parts m) → first_fault body_limit (all_parts m) ≡ None
        → h ≡ restarted body_limit (all_parts m) → IsRestartable (origin_of h templates jobs room) (durable_in m) }
    ensures read { (m : Content) → AreParts (all_parts m) → first_fault body_limit (all_parts m) ≡ None → CanRestart (durable_in m) }
    ensures done { (s : State) (p : ℕ) (e : Event) (values : List Val) (d : Durable) → IsKeptOf s d → IsTrailOf s d → (step s p e).reply ≡ Done values → IsRestartable s d
        → IsRestartable (step s p e).state (durable_after (must_persist s p e) d (step s p e).state) }
    ensures refused { (s : State) (p : ℕ) (e : Event) (x : Exception) (d : Durable) → (step s p e).reply ≡ Signal x → IsRestartable s d → IsRestartable (step s p e).state d }
    ensures waits { (s : State) (p : ℕ) (e : Event) (d : Durable) → (step s p e).reply ≡ MustWait → IsRestartable s d → IsRestartable (step s p e).state d }
    ensures entries { (s : State) (before : List Entry) (e : Entry) (d : Durable) → IsEntry s before e → IsKeptOf s d → IsTrailOf s d → IsRestartable s d
        → IsRestartable (step s e.process e.event).state (after_reply d s e e.reply) }
    ensures histories { (s : State) (before : List Entry) (history : List Entry) (end : State) (d : Durable) → Leads s before history end → IsKeptOf s d → IsTrailOf s d → IsRestartable s d
        → IsRestartable end (durable d s history) }
    ensures states { (s : State) (d : Durable) → IsKeptOf s d → AreInOrder s → AreImages d → IsRestartable s d → CanRestart d }
    ensures ceilings { (s : State) (p : ℕ) (e : Event) (values : List Val) (d : Durable) → IsKeptOf s d → (step s p e).reply ≡ Done values → IsRestartable s d → CanRestart d
        → CanRestart (raised d (step s p e).state) }
{
    what_is_durable_follows();
    room_counts_what_is_durable();
    what_is_not_forced_stays_durable();
}

/// What a crash leaves of a run at any moment has no fault. It restarts to what is durable after the entries that were
/// answered, to that with the ceiling after one entry more, or to what is durable after one entry more; and the number
/// that the restarted machine gives next is not below the one that would have been given next. This holds where what is
/// durable can restart as the run begins and can be read again at each moment, and the objects of each state are in
/// order. The entries may be those of a run, and one more after them that was not answered.
pub fn a_crash_leaves_what_restarts()
    ensures moments { (d : Durable) (s : State) (entries : List Entry) (count : ℕ) → IsKeptOf s d → IsTrailOf s d → IsRestartable s d → AreAnswered s entries → Throughout AreInOrder s entries → AllImages d s entries
        → CanRestartBetween d s entries count }
    ensures behind { (m : Content) (d : Durable) (s : State) (entries : List Entry) (count : ℕ) → IsKeptOf s d → IsTrailOf s d → IsRestartable s d → AreAnswered s entries → Throughout AreInOrder s entries → AllImages d s entries
        → HasParts m → RepresentsPrefix d s entries count m → IsRestartedAfter d s entries count m }
    ensures numbers { (m : Content) (d : Durable) (s : State) (entries : List Entry) (count : ℕ) → IsKeptOf s d → IsTrailOf s d → IsRestartable s d → AreAnswered s entries
        → IsRestartedAfter d s entries count m → next_number_after s entries count ≤ next_restarted m }
    ensures answered { (s : State) (before : List Entry) (history : List Entry) (end : State) → Leads s before history end → AreAnswered s history }
{
    what_is_durable_follows();
    room_counts_what_is_durable();
    what_is_not_forced_stays_durable();
}

/// What a run leaves restarts: with all of its current objects ensured, which is all that the store then has; and where
/// the first so many of them were ensured, one after another. Then the number that the restarted machine gives next is
/// not below the one that the run would have given next. It restarts where what is durable can, where that can be read
/// again before the checkpoint and after it, and where the objects are in order.
pub fn what_a_run_leaves_restarts()
    ensures whole { (s : State) (d : Durable) → IsKeptOf s d → IsTrailOf s d → AreInOrder s → IsRestartable s d → AreImages (closing s.units s.held) → CanRestart (closing s.units s.held) }
    ensures pages { (d : Durable) → CanRestart d → Represents (content_of d) d }
    ensures closed { (s : State) (d : Durable) (gone rest : List Object) → IsKeptOf s d → IsTrailOf s d → AreInOrder s → IsRestartable s d → AreImages d → AreImages (closing s.units s.held)
        → s.held.objects ≡ gone ++ rest → CanRestart (closed d s gone) }
    ensures left { (s : State) (d : Durable) (gone rest : List Object) (m : Content) → IsKeptOf s d → IsTrailOf s d → AreInOrder s → IsRestartable s d → AreImages d → AreImages (closing s.units s.held)
        → s.held.objects ≡ gone ++ rest → HasParts m → Represents m (closed d s gone) → RestartsTo m (closed d s gone) }
    ensures numbers { (s : State) (d : Durable) (gone rest : List Object) (m : Content) → IsKeptOf s d → s.held.objects ≡ gone ++ rest → RestartsTo m (closed d s gone)
        → s.held.next ≤ next_restarted m }
{
    what_is_durable_follows();
}

/// What a checkpoint keeps of all objects can be read again, if each object can be read again, the bodies keep to their
/// limits, and uncommitted changes can be taken back.
pub fn what_is_closed_can_be_read()
    ensures { (s : State) → All (HoldsBody body_limit) s.held.objects → All (λ o. CanSettle s.units o.number.0 o.body) s.held.objects → All IsReadable s.held.objects → AreImages (closing s.units s.held) }
{}
