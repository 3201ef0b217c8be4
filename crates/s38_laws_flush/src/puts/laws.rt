//! Laws about journal spaces on the way, and about what a step puts.
ghost use Rattle.std.specs.Prelude.{◌≡◌, ◌+◌, ◌/◌, ◌++◌, ◌<◌, ◌≤◌, ℕ, All, List, None, Some, [], length};
ghost use Rattle.std.specs.FinMap.{get};
ghost use Rattle.s38_base.specs.Limits.{body_limit, page_bytes};
ghost use Rattle.s38_base.specs.declared.exception.Exception.{Exception};
ghost use Rattle.s38_code.specs.declared.deck.Job.{Job};
ghost use Rattle.s38_code.specs.declared.entry.Entry.{Entry};
ghost use Rattle.s38_journals.specs.Entries as journals;
ghost use Rattle.s38_code.specs.declared.event.Event.{Event};
ghost use Rattle.s38_code.specs.declared.made.CheckedTemplate.{CheckedTemplate};
ghost use Rattle.s38_code.specs.declared.reply.Reply.TheVariants.{Done, MustWait, Signal};
ghost use Rattle.s38_code.specs.declared.reply.Val.{Val};
ghost use Rattle.s38_laws_units.specs.Right.{IsRight};
ghost use Rattle.s38_laws_commits.specs.Found.{Commits};
ghost use Rattle.s38_laws_commits.specs.Linked.{AreLinked};
ghost use Rattle.s38_commits.specs.Unit.{CommitUnit};
ghost use Rattle.s38_durable_state.specs.Durable.{Durable, after_reply, durable, durable_after};
ghost use Rattle.s38_durable_state.specs.Represents.{Represents};
ghost use Rattle.s38_page_diff.specs.Differences.{wanted_at};
ghost use Rattle.s38_restart.specs.catalog.Stores.{first_fault};
ghost use Rattle.s38_image.specs.Images.{image_parts};
ghost use Rattle.s38_image.specs.PartPlaces.{body_part};
ghost use Rattle.s38_image.specs.declared.stored.Stored.{Stored};
ghost use Rattle.s38_journals.specs.Journals.{entries_len};
ghost use Rattle.s38_laws_flush.specs.durable.Beginning.{durable_in, origin_of};
ghost use Rattle.s38_laws_flush.specs.durable.Kept.{AreImages, IsKeptOf};
ghost use Rattle.s38_laws_images.specs.openings.Bodies.{HoldsBody};
ghost use Rattle.s38_flush.specs.Leftovers.{first_changes};
ghost use Rattle.s38_laws_flush.specs.puts.Lengthening.{AreLonger};
ghost use Rattle.s38_laws_flush.specs.puts.OnePut.{BodiesAreShort};
ghost use Rattle.s38_laws_flush.specs.puts.Spaces.{IsSpace};
ghost use Rattle.s38_laws_flush.specs.puts.Trails.{IsTrailOf};
ghost use Rattle.s38_restart.specs.Parts.{AreParts, all_parts};
ghost use Rattle.s38_restart.specs.Restarted.{restarted};
ghost use Rattle.s38_rules.specs.step.Effect.{effect_of};
ghost use Rattle.s38_rules.specs.store.Forcing.{must_persist};
ghost use Rattle.s38_rules.specs.state.Held.{Held};
ghost use Rattle.s38_rules.specs.state.Journaling.{journal_for_block};
ghost use Rattle.s38_rules.specs.step.Legal.{IsEntry, Leads};
ghost use Rattle.s38_rules.specs.state.PartsAt.{journal_at};
ghost use Rattle.s38_rules.specs.store.Room.{Room};
ghost use Rattle.s38_rules.specs.state.State.{State};
ghost use Rattle.s38_rules.specs.step.Step.{step};
ghost use Rattle.s38_flush.specs.Growing.{AreBeginnings};
ghost use Rattle.s38_flush.specs.Numbers.{numbered};
ghost use Rattle.s38_flush.specs.Stepping.{HaveHeaders, ceiling_changes, object_changes};
ghost use Rattle.s38_vault.specs.Content.{Content};
ghost use Rattle.s38_vault.specs.Vaults.{most_changes};

use s38_durable_state::{
    room_counts_what_is_durable, what_is_durable_follows, what_is_not_forced_stays_durable,
};

/// After each event a journal space that was there has all its entries, and maybe more at its end, of which each byte is
/// counted as unforced; or it no longer exists.
pub fn journal_spaces_become_longer()
    ensures { (s : State) (p : ℕ) (e : Event) → AreLonger s.held (effect_of s p e).state.held }
{}

/// In each state of a run over a store what is kept of a journal space is the beginning of it, and no more bytes follow
/// than are counted as unforced, which are few. It is so as the run begins and after each step, and so at the end of a
/// history. What was kept before a step is the beginning of what the machine has after it.
pub fn what_is_kept_of_journal_spaces_is_their_beginning()
    ensures begins { (m : Content) (h : Held) (templates : List CheckedTemplate) (jobs : List Job) (room : Room) → AreParts (all_parts m) → first_fault body_limit (all_parts m) ≡ None
        → h ≡ restarted body_limit (all_parts m) → IsTrailOf (origin_of h templates jobs (Some room)) (durable_in m) }
    ensures done { (s : State) (p : ℕ) (e : Event) (values : List Val) (d : Durable) → IsKeptOf s d → IsTrailOf s d → (step s p e).reply ≡ Done values
        → IsTrailOf (step s p e).state (durable_after (must_persist s p e) d (step s p e).state) }
    ensures begun { (s : State) (p : ℕ) (e : Event) (values : List Val) (d : Durable) → IsKeptOf s d → IsTrailOf s d → (step s p e).reply ≡ Done values → AreBeginnings (step s p e).state.held d }
    ensures refused { (s : State) (p : ℕ) (e : Event) (x : Exception) (d : Durable) → IsTrailOf s d → (step s p e).reply ≡ Signal x → IsTrailOf (step s p e).state d }
    ensures waits { (s : State) (p : ℕ) (e : Event) (d : Durable) → IsTrailOf s d → (step s p e).reply ≡ MustWait → IsTrailOf (step s p e).state d }
    ensures entries { (s : State) (before : List Entry) (e : Entry) (d : Durable) → IsEntry s before e → IsKeptOf s d → IsTrailOf s d → IsTrailOf (step s e.process e.event).state (after_reply d s e e.reply) }
    ensures histories { (s : State) (before : List Entry) (history : List Entry) (end : State) (d : Durable) → Leads s before history end → IsKeptOf s d → IsTrailOf s d → IsTrailOf end (durable d s history) }
{
    what_is_durable_follows();
    room_counts_what_is_durable();
    what_is_not_forced_stays_durable();
}

/// The pages of a journal space that lie within the entries that were kept stay as they are where more entries are kept: what
/// differs of its body are the pages from the last of those on.
pub fn pages_within_what_was_kept_stay()
    ensures { (n p : ℕ) (x y : Stored) (es rest : List journals.JournalRecord) → IsSpace n x es → IsSpace n y (es ++ rest) → body_part ≤ p → p < body_part + entries_len es / page_bytes
        → wanted_at (image_parts x) (record { object = n; part = p }) ≡ wanted_at (image_parts y) (record { object = n; part = p }) }
{}

/// A data space that is journaled is on disk, and so are its port and its journal space, and ports and data spaces name what
/// was given: a run over a store without a fault begins so, and each step keeps it.
pub fn what_is_journaled_is_on_disk()
    ensures begins { (m : Content) → AreParts (all_parts m) → first_fault body_limit (all_parts m) ≡ None → AreLinked (restarted body_limit (all_parts m)) }
    ensures steps { (s : State) (p : ℕ) (e : Event) → IsRight s → AreLinked s.held → AreLinked (step s p e).state.held }
{}

/// What a step puts first that takes effect fits in one put, besides the ceiling, if no body but that of a journal
/// space is too long: all that differs where it fits, and else what belongs to something that is kept. Of a journal
/// space that is destroyed this is its header alone. Where what was durable can be read again, no body is too long, and
/// none is after a step whose objects keep to the limit.
pub fn what_a_step_puts_first_fits_in_one_put()
    ensures done { (s : State) (p : ℕ) (e : Event) (values : List Val) (d : Durable) (m : Content) → IsKeptOf s d → IsTrailOf s d → (step s p e).reply ≡ Done values
        → HaveHeaders d → HaveHeaders (durable_after (must_persist s p e) d (step s p e).state) → BodiesAreShort d → BodiesAreShort (durable_after (must_persist s p e) d (step s p e).state) → Represents m d
        → length (first_changes most_changes (durable_after (must_persist s p e) d (step s p e).state)
        (object_changes (numbered (must_persist s p e)) (get m) (durable_after (must_persist s p e) d (step s p e).state))) ≤ most_changes }
    ensures short { (s : State) (d : Durable) → IsKeptOf s d → AreImages d → BodiesAreShort d }
    ensures short_after { (s : State) (p : ℕ) (e : Event) (values : List Val) (d : Durable) → IsKeptOf s d → (step s p e).reply ≡ Done values
        → All (HoldsBody body_limit) (step s p e).state.held.objects → BodiesAreShort d → BodiesAreShort (durable_after (must_persist s p e) d (step s p e).state) }
{
    what_is_durable_follows();
    room_counts_what_is_durable();
    what_is_not_forced_stays_durable();
}

/// A COMMIT that takes effect, of a unit, puts no ceiling, and of objects no more parts than the pages that its journal space's
/// unforced bytes fill, with the COMMIT entry, and three: the header of the journal space, and the pages of its body from the
/// last one on that was kept.
pub fn a_commit_puts_few_parts()
    ensures few { (s : State) (before : List Entry) (e : Entry) (unit : CommitUnit) (n : ℕ) (d : Durable) (m : Content) → IsEntry s before e → (commits : Commits s e unit) → journal_for_block s.held commits.block ≡ Some n
        → IsKeptOf s d → IsTrailOf s d → HaveHeaders d → HaveHeaders (durable_after (must_persist s e.process e.event) d (step s e.process e.event).state)
        → BodiesAreShort d → BodiesAreShort (durable_after (must_persist s e.process e.event) d (step s e.process e.event).state) → Represents m d
        → length (object_changes (numbered (must_persist s e.process e.event)) (get m) (durable_after (must_persist s e.process e.event) d (step s e.process e.event).state))
        ≤ (journal_at (effect_of s e.process e.event).state.held n).unforced / page_bytes + 3 }
    ensures ceiling { (s : State) (before : List Entry) (e : Entry) (unit : CommitUnit) (n : ℕ) (d : Durable) (m : Content) → IsEntry s before e → (commits : Commits s e unit) → journal_for_block s.held commits.block ≡ Some n
        → IsKeptOf s d → ceiling_changes (numbered (must_persist s e.process e.event)) (get m) (durable_after (must_persist s e.process e.event) d (step s e.process e.event).state) ≡ [] }
{
    what_is_durable_follows();
    room_counts_what_is_durable();
    what_is_not_forced_stays_durable();
}
