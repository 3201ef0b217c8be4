//! What is true of the units of changes in every state of the machine.
ghost use Rattle.s38_code.specs.declared.deck.Job.{Job};
ghost use Rattle.s38_code.specs.declared.entry.Entry.{Entry};
ghost use Rattle.s38_code.specs.declared.event.Event.{Event};
ghost use Rattle.s38_code.specs.declared.event.Request.{Request};
ghost use Rattle.s38_code.specs.declared.made.CheckedTemplate.{CheckedTemplate};
ghost use Rattle.s38_commits.specs.declared.change.UnitChange.{UnitChange};
ghost use Rattle.s38_commits.specs.Unit.{CommitUnit};
ghost use Rattle.s38_commits.specs.Units.{unit_of};
ghost use Rattle.s38_laws_units.specs.Right.{AllPutBack, Enters, IsRight, is_change_written, unit_journal};
ghost use Rattle.s38_journals.specs.Journals.{can_write};
ghost use Rattle.s38_journals.specs.declared.entry.EntryKind.{EntryKind};
ghost use Rattle.s38_rules.specs.state.Journaling.{journal_for};
ghost use Rattle.s38_rules.specs.step.Legal.{Leads};
ghost use Rattle.s38_rules.specs.families.Rows.{row};
ghost use Rattle.s38_rules.specs.step.Verdict.{refused_by};
ghost use Rattle.s38_rules.specs.state.Opening.{held_first, held_installed, state_of};
ghost use Rattle.s38_rules.specs.state.State.{State};
ghost use Rattle.s38_rules.specs.step.Step.{step};
ghost use Rattle.s38_rules.specs.families.Units.{all_undone, end_entry};
ghost use Rattle.std.specs.Prelude.{◌≡◌, ℕ, IsTrue, List, None, Some};
ghost use Rattle.s38_rules.specs.step.Histories.{Throughout};

/// The machine begins with units that are right: it has none, as it is opened first and as it is installed.
pub fn units_begin_right()
    ensures first { (templates : List CheckedTemplate) (jobs : List Job) → IsRight (state_of held_first templates jobs) }
    ensures installed { (templates : List CheckedTemplate) (jobs : List Job) → IsRight (state_of held_installed templates jobs) }
{}

/// Where the units are right, they are right after each step; so they are in every state of a history, and at its end.
pub fn units_stay_right()
    ensures steps { (s : State) (p : ℕ) (e : Event) → IsRight s → IsRight (step s p e).state }
    ensures histories { (s : State) (before : List Entry) (history : List Entry) (end : State) → IsRight s → Leads s before history end
        → Throughout IsRight s history × IsRight end }
{}

/// Where the units are right, the end of each may be written in its journal space and has room there, as the unit is
/// committed and after all that is taken back of it.
pub fn ends_are_written()
    ensures committed { (s : State) (block : ℕ) (unit : CommitUnit) (kind : EntryKind) (p : ℕ) → IsRight s → unit_of s.units block ≡ Some unit
        → IsTrue (can_write (unit_journal s.held block) (end_entry kind p unit)) }
    ensures decommitted { (s : State) (block : ℕ) (unit : CommitUnit) (kind : EntryKind) (p : ℕ) → IsRight s → unit_of s.units block ≡ Some unit
        → IsTrue (can_write (unit_journal (all_undone s.held unit.changes) block) (end_entry kind p unit)) }
{}

/// Where the units are right, each change of a unit is put back as the unit is taken back: its data space has the
/// ordinal, and what was there before is an entry of its fields, or none.
pub fn changes_are_put_back()
    ensures back { (s : State) (block : ℕ) (unit : CommitUnit) → IsRight s → unit_of s.units block ≡ Some unit → AllPutBack s.held unit.changes }
{}

/// Where the units are right, what the journal is to say of each change of an entry that no rule refuses may be written
/// in the journal space of its data space, and has room there, if it is journaled.
pub fn changes_are_written()
    ensures written { (s : State) (p : ℕ) (d : ℕ) (t : Request) (block : ℕ) (change : UnitChange) (journal : ℕ) → IsRight s → refused_by (row t.op) s p d t ≡ None
        → Enters ((row t.op).changes s p d t) block change → journal_for s.held change.space.0 ≡ Some journal → IsTrue (is_change_written s p block change journal) }
{}
