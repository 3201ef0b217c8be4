//! What a unit changed that was not committed.
ghost use Rattle.std.specs.Prelude.{◌≡◌, ◌==◌, ℕ, List, Some, false, map};
ghost use Rattle.s38_base.specs.declared.attr.Attr.{Attr};
ghost use Rattle.s38_commits.specs.Unit.{CommitUnit};
ghost use Rattle.s38_commits.specs.Units.{unit_of};
ghost use Rattle.s38_commits.specs.declared.change.UnitChange.{UnitChange};
ghost use Rattle.s38_laws_commits.specs.Counting.{has_commit, silent};
ghost use Rattle.s38_laws_commits.specs.Found.{AreSound, IsJournalKept, found_entry};
ghost use Rattle.s38_laws_commits.specs.Ordinals.{redone_at};
ghost use Rattle.s38_laws_commits.specs.Told.{first_in};
ghost use Rattle.s38_dataspaces.specs.Entries as spaces;
ghost use Rattle.s38_durable_state.specs.Durable.{Durable};
ghost use Rattle.s38_journals.specs.Entries.{JournalRecord};
ghost use Rattle.s38_rules.specs.state.State.{State};

/// A restart makes the same of a data space, whatever a journal space says of a unit that no entry commits: each entry of
/// the unit could as well say that the unit was taken back, and nothing else.
pub fn what_no_entry_commits_counts_for_nothing()
    ensures { (fields : List Attr) (number image at unit : ℕ) (es : List JournalRecord) (x : spaces.DataEntry) → (unit == 0) ≡ false → has_commit unit es ≡ false
        → redone_at fields number image (map (silent unit) es) at x ≡ redone_at fields number image es at x }
{}

/// Where all entries of its journal space are durable, an entry that a unit has changed, and has not committed, is found by a
/// restart as it was before the unit.
pub fn what_is_not_committed_is_found_as_it_was()
    ensures { (s : State) (d : Durable) (n at block : ℕ) (unit : CommitUnit) (c : UnitChange) → AreSound s d → unit_of s.units block ≡ Some unit
        → first_in n at unit.changes ≡ Some c → IsJournalKept s d n → found_entry d n at ≡ c.before }
{}
