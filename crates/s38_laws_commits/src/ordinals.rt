//! What a restart finds under one ordinal.
ghost use Rattle.std.specs.Prelude.{◌≡◌, ◌≤◌, ℕ, List, length};
ghost use Rattle.s38_base.specs.Limits.{body_limit};
ghost use Rattle.s38_laws_commits.specs.Ordinals.{redone_at};
ghost use Rattle.s38_dataspaces.specs.Entries.{entry_at};
ghost use Rattle.s38_dataspaces.specs.Table.{DataTable, data_space_image_size};
ghost use Rattle.s38_journals.specs.Entries.{JournalRecord};
ghost use Rattle.s38_restart.specs.Redo.{journal_replayed};

/// A restart makes a data space of its image and of its journal space. Under each ordinal it holds what the entries for
/// this ordinal alone make of the entry in the image, where the image is no longer than the limit of a body; and it has
/// the fields of the image.
pub fn a_restart_goes_by_ordinals()
    ensures entries { (number image at : ℕ) (es : List JournalRecord) (t : DataTable) → data_space_image_size t.fields (length t.entries) ≤ body_limit
        → entry_at (journal_replayed number image es t).entries at ≡ redone_at t.fields number image es at (entry_at t.entries at) }
    ensures fields { (number image : ℕ) (es : List JournalRecord) (t : DataTable) → (journal_replayed number image es t).fields ≡ t.fields }
{}
