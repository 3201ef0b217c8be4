//! Laws about what is durable, at every moment of a run.
ghost use Rattle.std.specs.Prelude.{◌≡◌, ◌+◌, ◌∷◌, ◌++◌, ◌<◌, ◌≤◌, ℕ, All, List, None, Option, Some, [], length};
ghost use Rattle.std.specs.FinMap.{get, len};
ghost use Rattle.s38_base.specs.Limits.{body_limit};
ghost use Rattle.s38_base.specs.declared.exception.Exception.{Exception};
ghost use Rattle.s38_code.specs.declared.deck.Job.{Job};
ghost use Rattle.s38_code.specs.declared.entry.Entry.{Entry};
ghost use Rattle.s38_code.specs.declared.event.Event.{Event};
ghost use Rattle.s38_code.specs.declared.made.CheckedTemplate.{CheckedTemplate};
ghost use Rattle.s38_code.specs.declared.reply.Reply.TheVariants.{Done, MustWait, Signal};
ghost use Rattle.s38_code.specs.declared.reply.Val.{Val};
ghost use Rattle.s38_durable_state.specs.Durable.{Durable, after_reply, durable, durable_after};
ghost use Rattle.s38_durable_state.specs.Following.{Counts};
ghost use Rattle.s38_durable_state.specs.Represents.{Represents};
ghost use Rattle.s38_restart.specs.catalog.Stores.{first_fault};
ghost use Rattle.s38_image_writer.specs.Parts.{CanSettle};
ghost use Rattle.s38_laws_flush.specs.durable.Beginning.{cleaned, durable_in, origin_of};
ghost use Rattle.s38_laws_flush.specs.durable.Crashes.{IsKeptPrefix, RepresentsBetween};
ghost use Rattle.s38_laws_flush.specs.durable.Kept.{AllReadable, AreImages, AreReadable, HasOperand, HasParts, IsKeptOf};
ghost use Rattle.s38_laws_images.specs.openings.Opening.{IsOpening};
ghost use Rattle.s38_restart.specs.Parts.{AreParts, all_parts};
ghost use Rattle.s38_restart.specs.Restarted.{restarted};
ghost use Rattle.s38_rules.specs.store.Forcing.{Forced, must_persist};
ghost use Rattle.s38_rules.specs.state.Held.{Held};
ghost use Rattle.s38_rules.specs.step.Legal.{AreMoments, IsEntry, Leads};
ghost use Rattle.s38_rules.specs.store.Room.{Room};
ghost use Rattle.s38_rules.specs.state.State.{State};
ghost use Rattle.s38_rules.specs.step.Step.{step};
ghost use Rattle.s38_rules.specs.store.Storable.{IsStorable};
ghost use Rattle.s38_flush.specs.Growing.{AreBeginnings};
ghost use Rattle.s38_flush.specs.Leftovers.{RepresentsUpToOrphans};
ghost use Rattle.s38_flush.specs.Numbers.{numbered};
ghost use Rattle.s38_flush.specs.Stepping.{AreNumbers, HaveHeaders, IsDue, Precedes, ceiling_changes, object_changes, put_forced};
ghost use Rattle.s38_vault.specs.Content.{Content};
ghost use Rattle.s38_vault.specs.Directory.{keys_of, new_keys};
ghost use Rattle.s38_rules.specs.step.Histories.{state_after};

use s38_durable_state::{
    room_counts_what_is_durable, what_is_durable_follows, what_is_not_forced_stays_durable,
};

/// A content without a fault represents what a restart reads of it, once its orphan pages are removed. What is read can
/// be read again, and it goes with the state in which a run begins that has the restarted objects, if the room counts
/// it.
pub fn a_run_begins_kept()
    ensures stands { (m : Content) → AreParts (all_parts m) → first_fault body_limit (all_parts m) ≡ None → Represents (cleaned m) (durable_in m) }
    ensures images { (m : Content) → AreParts (all_parts m) → first_fault body_limit (all_parts m) ≡ None → AreImages (durable_in m) }
    ensures headers { (m : Content) → AreParts (all_parts m) → first_fault body_limit (all_parts m) ≡ None → HaveHeaders (durable_in m) }
    ensures parts { (m : Content) → AreParts (all_parts m) → first_fault body_limit (all_parts m) ≡ None → HasParts (cleaned m) }
    ensures begins { (m : Content) (h : Held) (templates : List CheckedTemplate) (jobs : List Job) (room : Option Room) → AreParts (all_parts m) → first_fault body_limit (all_parts m) ≡ None
        → h ≡ restarted body_limit (all_parts m) → IsOpening h → Counts room (durable_in m) → IsKeptOf (origin_of h templates jobs room) (durable_in m) }
{}

/// A content that represents what is durable, up to orphan pages, represents it once the orphan pages are removed.
pub fn what_belongs_to_nothing_can_be_taken_away()
    ensures { (m : Content) (d : Durable) → RepresentsUpToOrphans m d → Represents (cleaned m) d }
{}

/// After each step what is durable goes with the state: what takes effect makes durable what it forces, and nothing
/// else does. So it is at the end of a history.
pub fn what_is_durable_is_kept()
    ensures done { (s : State) (p : ℕ) (e : Event) (values : List Val) (d : Durable) → IsKeptOf s d → (step s p e).reply ≡ Done values
        → IsKeptOf (step s p e).state (durable_after (must_persist s p e) d (step s p e).state) }
    ensures refused { (s : State) (p : ℕ) (e : Event) (x : Exception) (d : Durable) → IsKeptOf s d → (step s p e).reply ≡ Signal x → IsKeptOf (step s p e).state d }
    ensures waits { (s : State) (p : ℕ) (e : Event) (d : Durable) → IsKeptOf s d → (step s p e).reply ≡ MustWait → IsKeptOf (step s p e).state d }
    ensures entries { (s : State) (before : List Entry) (e : Entry) (d : Durable) → IsEntry s before e → IsKeptOf s d → IsKeptOf (step s e.process e.event).state (after_reply d s e e.reply) }
    ensures histories { (s : State) (before : List Entry) (history : List Entry) (end : State) (d : Durable) → Leads s before history end → IsKeptOf s d → IsKeptOf end (durable d s history) }
{
    what_is_durable_follows();
    room_counts_what_is_durable();
    what_is_not_forced_stays_durable();
}

/// If what was durable can be read again, and so can the images that a step writes, then what is durable after the step
/// can be read again; and so it can be at the end of a history.
pub fn what_is_durable_can_be_read()
    ensures done { (s : State) (p : ℕ) (e : Event) (values : List Val) (d : Durable) → IsKeptOf s d → (step s p e).reply ≡ Done values → AreImages d → AreReadable (must_persist s p e) (step s p e).state
        → AreImages (durable_after (must_persist s p e) d (step s p e).state) }
    ensures histories { (s : State) (before : List Entry) (history : List Entry) (end : State) (d : Durable) → Leads s before history end → IsKeptOf s d → AreImages d → AllReadable s history
        → AreImages (durable d s history) }
{
    what_is_durable_follows();
    room_counts_what_is_durable();
    what_is_not_forced_stays_durable();
}

/// What a step forces that takes effect can be put, if each header of what was durable can be read again, and what is
/// kept of journal spaces is a beginning of them. Then the content that represents what was durable precedes the step, and
/// what the step does not force stays durable. A store can keep each object after the step, with every uncommitted change
/// taken back. All that is forced is the number of an object; an instruction without operands may force the number of
/// none, which makes no difference.
pub fn what_is_forced_can_be_put()
    ensures precedes { (s : State) (p : ℕ) (e : Event) (values : List Val) (d : Durable) (m : Content) → IsKeptOf s d → (step s p e).reply ≡ Done values → HaveHeaders d → Represents m d
        → AreBeginnings (step s p e).state.held d → Precedes (step s p e).state.held (step s p e).state.units m d (step s p e).state }
    ensures due { (s : State) (p : ℕ) (e : Event) (values : List Val) (d : Durable) → IsKeptOf s d → (step s p e).reply ≡ Done values → IsDue (must_persist s p e) d (step s p e).state }
    ensures due_numbered { (s : State) (p : ℕ) (e : Event) (values : List Val) (d : Durable) → IsKeptOf s d → (step s p e).reply ≡ Done values → IsDue (numbered (must_persist s p e)) d (step s p e).state }
    ensures numbers { (s : State) (p : ℕ) (e : Event) (values : List Val) (d : Durable) → IsKeptOf s d → (step s p e).reply ≡ Done values → AreNumbers (numbered (must_persist s p e)) }
    ensures operands { (s : State) (p : ℕ) (e : Event) (values : List Val) (d : Durable) → IsKeptOf s d → (step s p e).reply ≡ Done values → HasOperand e → AreNumbers (must_persist s p e) }
    ensures same { (s : State) (p : ℕ) (e : Event) (values : List Val) (d : Durable) → IsKeptOf s d → (step s p e).reply ≡ Done values
        → durable_after (numbered (must_persist s p e)) d (step s p e).state ≡ durable_after (must_persist s p e) d (step s p e).state }
    ensures storable { (s : State) (p : ℕ) (e : Event) (values : List Val) (d : Durable) → IsKeptOf s d → (step s p e).reply ≡ Done values → All IsStorable (step s p e).state.held.objects }
    ensures settles { (s : State) (p : ℕ) (e : Event) (values : List Val) (d : Durable) → IsKeptOf s d → (step s p e).reply ≡ Done values
        → All (λ o. CanSettle (step s p e).state.units o.number.0 o.body) (step s p e).state.held.objects }
{
    what_is_durable_follows();
    room_counts_what_is_durable();
    what_is_not_forced_stays_durable();
}

/// What takes effect finds room: where the free parts of the store, and those that it holds, are as many as the room of the
/// machine has, and one more for the ceiling, the changes of what is forced bring no more keys than there are free parts. Parts
/// are numbers of 32 bits, and stay so.
pub fn what_takes_effect_finds_room()
    ensures room { (s : State) (p : ℕ) (e : Event) (values : List Val) (d : Durable) (room : Room) (m : Content) (free : ℕ) → IsKeptOf s d → (step s p e).reply ≡ Done values → s.room ≡ Some room
        → Represents m d → HasParts m → HaveHeaders d → HaveHeaders (durable_after (numbered (must_persist s p e)) d (step s p e).state) → free + len (keys_of m) ≡ room.parts + 1
        → new_keys (keys_of m) (ceiling_changes (numbered (must_persist s p e)) (get m) (durable_after (numbered (must_persist s p e)) d (step s p e).state))
        + new_keys (keys_of m) (object_changes (numbered (must_persist s p e)) (get m) (durable_after (numbered (must_persist s p e)) d (step s p e).state)) ≤ free }
    ensures parts { (all : List Forced) (m : Content) (d : Durable) → HasParts m → HasParts (put_forced all m d) }
{
    what_is_durable_follows();
    room_counts_what_is_durable();
    what_is_not_forced_stays_durable();
}

/// What is durable after one more entry, and the state to which it leads.
pub fn one_more_entry_is_durable()
    ensures durable { (s : State) (before : List Entry) (history : List Entry) (t : State) (e : Entry) (d : Durable) → Leads s before history t
        → durable d s (history ++ e ∷ []) ≡ after_reply (durable d s history) t e e.reply }
    ensures led { (s : State) (before : List Entry) (history : List Entry) (t : State) → Leads s before history t → state_after s history ≡ t }
    ensures led_more { (s : State) (history : List Entry) (e : Entry) → state_after s (history ++ e ∷ []) ≡ (step (state_after s history) e.process e.event).state }
{}

/// What a crash leaves of a run at a moment represents, up to orphan pages, what is durable after the entries that were
/// answered by then, that with the ceiling after one entry more, or what is durable after one entry more. It is so as
/// the run begins, and where one more entry is marked by a later moment, or a call is stopped: of each moment before
/// the puts, of each moment of them, and of each moment from the mark on.
pub fn a_crash_leaves_a_prefix()
    ensures begins { (d : Durable) (s : State) (t : ℕ) (m : Content) → Represents m d → IsKeptPrefix d s [] [] t m }
    ensures earlier { (d : Durable) (s : State) (history : List Entry) (marks : List ℕ) (e : Entry) (now t : ℕ) (m : Content) → length marks ≡ length history
        → (durable d s history).ceiling ≡ (state_after s history).held.ceiling → t < now → IsKeptPrefix d s history marks t m → IsKeptPrefix d s (history ++ e ∷ []) (marks ++ now ∷ []) t m }
    ensures during { (d : Durable) (s : State) (history : List Entry) (marks : List ℕ) (e : Entry) (first before now t : ℕ) (m : Content) → length marks ≡ length history → AreMoments first marks before
        → before ≤ t → t < now → RepresentsBetween m (durable d s history) (state_after s (history ++ e ∷ [])) (durable d s (history ++ e ∷ [])) → IsKeptPrefix d s (history ++ e ∷ []) (marks ++ now ∷ []) t m }
    ensures answered { (d : Durable) (s : State) (history : List Entry) (marks : List ℕ) (e : Entry) (first before now t : ℕ) (m : Content) → length marks ≡ length history → AreMoments first marks before
        → before ≤ now → now ≤ t → Represents m (durable d s (history ++ e ∷ [])) → IsKeptPrefix d s (history ++ e ∷ []) (marks ++ now ∷ []) t m }
    ensures stopped_earlier { (d : Durable) (s : State) (history : List Entry) (marks : List ℕ) (e : Entry) (t : ℕ) (m : Content) → length marks ≡ length history
        → (durable d s history).ceiling ≡ (state_after s history).held.ceiling → IsKeptPrefix d s history marks t m → IsKeptPrefix d s (history ++ e ∷ []) marks t m }
    ensures stopped_during { (d : Durable) (s : State) (history : List Entry) (marks : List ℕ) (e : Entry) (first before t : ℕ) (m : Content) → length marks ≡ length history → AreMoments first marks before
        → before ≤ t → RepresentsBetween m (durable d s history) (state_after s (history ++ e ∷ [])) (durable d s (history ++ e ∷ [])) → IsKeptPrefix d s (history ++ e ∷ []) marks t m }
{}
