//! One entry of a journal, replayed on its data space.
ghost use Rattle.std.specs.Prelude.{◌≡◌, ◌+◌, ◌-◌, ◌&&◌, ◌==◌, ◌≤◌, OnOk, OnErr, Some, length, max};
ghost use Rattle.s38_dataspaces.specs.Table.{data_space_image_size, is_entry_of};
ghost use Rattle.s38_journals.specs.Entries.{logged_entry};
ghost use Rattle.s38_restart.specs.Redo.{change_redone, delete_redone, insert_redone, may_hold_at, update_redone, with_deleted};

use s38_base::NoMemory;
use s38_base::limits::BODY_LIMIT;
use s38_dataspaces::{DataSpace, have_values};
use s38_journals::{EntryKind, JournalEntry};

/// Whether bytes are an entry of the fields.
fn is_entry(space: &DataSpace, entry: &[u8]) -> bool
    ensures { result ≡ is_entry_of space.now.fields (Some entry.now) }
{
    entry.len() == space.entry_len() && have_values(space.fields().as_slice(), entry)
}

/// How many bytes the image has with so many ordinals.
fn image_len(space: &DataSpace, ordinals: u32) -> u64
    ensures { result ≡ data_space_image_size space.now.fields ordinals }
{
    let fields = space.fields().len() as u64;
    let slot = 1 + space.entry_len() as u64;
    22 + 3 * fields + u64::from(ordinals) * slot
}

/// Whether an ordinal may hold an entry: it is one of the fields, and the image with that ordinal is no longer than
/// the limit of a body.
fn may_hold_at(space: &DataSpace, at: u32, entry: &[u8]) -> bool
    ensures { result ≡ may_hold_at space.now at entry.now }
{
    is_entry(space, entry) && image_len(space, at.max(space.ordinals())) <= u64::from(BODY_LIMIT)
}

/// Adds ordinals up to this one, whose entries are deleted.
fn add_deleted(space: &mut DataSpace, at: u32) -> Result<(), NoMemory>
    ensures { OnOk result (space.new ≡ with_deleted space.old (at - length space.old.entries)) }
{
    while space.ordinals() < at {
        match space.insert_deleted() {
            Ok(()) => {}
            Err(_) => return Err(NoMemory),
        }
    }
    Ok(())
}

/// Replays an insert; an ordinal before it that is not there yet is a deleted one.
fn redo_insert(space: &mut DataSpace, at: u32, after: &[u8]) -> Result<(), NoMemory>
    ensures { OnOk result (space.new ≡ insert_redone space.old at after.now) }
{
    if may_hold_at(space, at, after) {
        add_deleted(space, at)?;
        space.restore(at, Some(after));
    }
    Ok(())
}

/// Replays an update, if there is an entry.
fn redo_update(space: &mut DataSpace, at: u32, after: &[u8])
    ensures { space.new ≡ update_redone space.old at after.now }
{
    if space.get(at).is_some() {
        space.restore(at, Some(after));
    }
}

/// Replays a delete, if there is an entry.
fn redo_delete(space: &mut DataSpace, at: u32)
    ensures { space.new ≡ delete_redone space.old at }
{
    if space.get(at).is_some() {
        space.restore(at, None);
    }
}

/// Replays what an entry says was done. What does not fit is passed over.
pub fn redo_entry(space: &mut DataSpace, entry: &JournalEntry) -> Result<(), NoMemory>
    ensures { OnOk result (space.new ≡ change_redone entry.now.kind space.old entry.now.ordinal entry.now.after.now) }
{
    match entry.kind {
        EntryKind::Insert => redo_insert(space, entry.ordinal, entry.after),
        EntryKind::Update => {
            redo_update(space, entry.ordinal, entry.after);
            Ok(())
        }
        EntryKind::Delete => {
            redo_delete(space, entry.ordinal);
            Ok(())
        }
        EntryKind::Commit | EntryKind::Decommit => Ok(()),
    }
}
