//! What a unit committed, over whole histories.
ghost use Rattle.std.specs.Prelude.{◌≡◌, ◌∷◌, ◌++◌, ℕ, List, [], true};
ghost use Rattle.s38_code.specs.declared.entry.Entry.{Entry};
ghost use Rattle.s38_commits.specs.Changes.{has_change};
ghost use Rattle.s38_commits.specs.Unit.{CommitUnit};
ghost use Rattle.s38_laws_commits.specs.Found.{AreSound, Commits, entry_now, found_entry};
ghost use Rattle.s38_laws_commits.specs.Touched.{LeavesAlone};
ghost use Rattle.s38_durable_state.specs.Durable.{Durable, after_reply, durable};
ghost use Rattle.s38_rules.specs.step.Legal.{IsEntry, Leads};
ghost use Rattle.s38_rules.specs.state.State.{State};
ghost use Rattle.s38_rules.specs.step.Step.{step};
ghost use Rattle.s38_rules.specs.step.Histories.{state_after};

/// Where a state and what is durable of it are sound, they are so after each entry of a history, and so at its end: the
/// journal spaces tell what the units have changed, and lead from the kept images to the current data spaces.
pub fn what_is_kept_stays_sound()
    ensures steps { (s : State) (d : Durable) (e : Entry) (before : List Entry) → IsEntry s before e → AreSound s d
        → AreSound (step s e.process e.event).state (after_reply d s e e.reply) }
    ensures histories { (s : State) (d : Durable) (before : List Entry) (history : List Entry) (end : State) → AreSound s d → Leads s before history end
        → AreSound end (durable d s history) }
{}

/// After the COMMIT of a unit, a restart of what is durable finds each entry that the unit changed, as the unit left
/// it. This holds after each longer history, as long as none of its further entries changes the entry or destroys its
/// data space.
pub fn committed_stays()
    ensures runs { (s : State) (d : Durable) (before : List Entry) (e : Entry) (more : List Entry) (end : State) (unit : CommitUnit) (n at : ℕ) → AreSound s d
        → Leads s [] (before ++ e ∷ more) end → Commits (state_after s before) e unit → has_change n at unit.changes ≡ true
        → LeavesAlone n at (step (state_after s before) e.process e.event).state more
        → found_entry (durable d s (before ++ e ∷ more)) n at ≡ entry_now (state_after s before) n at }
    ensures states { (s : State) (d : Durable) (before : List Entry) (e : Entry) (more : List Entry) (end : State) (unit : CommitUnit) (n at : ℕ) → AreSound s d
        → Leads s before (e ∷ more) end → Commits s e unit → has_change n at unit.changes ≡ true → LeavesAlone n at (step s e.process e.event).state more
        → found_entry (durable d s (e ∷ more)) n at ≡ entry_now s n at }
{}
