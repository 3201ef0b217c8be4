ghost use Rattle.std.specs.Prelude.{false, IfSome, OnOk, ◌≡◌, ◌+◌, ◌*◌, ◌<◌, ◌≤◌, ◌++◌, ◌∷◌, Some, None, length, option_map, slice_get, slice_set, take, drop, vec_capacity, vec_len};
ghost use Rattle.std.specs.Option.{option_copied};
ghost use Rattle.s38_dataspaces.specs.Entries.{entries_stored, entry_at, with_new_entry};

use s38_base::NoMemory;

/// The bytes of a slot.
pub fn slot(bytes: &[u8], at: usize, width: usize) -> &[u8]
    requires { at * width + width ≤ length bytes.now }
    ensures { result.now ≡ take width (drop (at * width) bytes.now) }
{
    let start = at * width;
    &bytes[start..start + width]
}

/// Writes the bytes of a slot.
pub fn write_slot(bytes: &mut [u8], at: usize, entry: &[u8])
    requires { at * length entry.now + length entry.now ≤ length bytes.old }
    ensures bytes { bytes.new ≡ take (at * length entry.now) bytes.old ++ (entry.now ++ drop (at * length entry.now + length entry.now) bytes.old) }
    ensures len { length bytes.new ≡ length bytes.old }
{
    let start = at * entry.len();
    bytes[start..start + entry.len()].copy_from_slice(entry);
}

/// The entry of an ordinal.
pub fn entry_in<'a>(presence: &[bool], bytes: &'a [u8], at: usize, width: usize) -> Option<&'a [u8]>
    requires { length bytes.now ≡ length presence.now * width }
    ensures entry { option_copied result ≡ entry_at (entries_stored width presence.now bytes.now) at }
    ensures len { IfSome result (λ entry. length entry.now ≡ width) }
{
    if at == 0 {
        return None;
    }
    if at > presence.len() {
        return None;
    }
    if presence[at - 1] {
        Some(slot(bytes, at - 1, width))
    } else {
        None
    }
}

/// Puts an entry into a slot.
pub fn put_slot(presence: &mut Vec<bool>, bytes: &mut Vec<u8>, at: usize, entry: &[u8])
    requires within { at < vec_len presence.old }
    requires whole { vec_len bytes.old ≡ vec_len presence.old * length entry.now }
    ensures entries { entries_stored (length entry.now) presence.new.items bytes.new.items
        ≡ slice_set (entries_stored (length entry.now) presence.old.items bytes.old.items) at (Some entry.now) }
    ensures flags { vec_len presence.new ≡ vec_len presence.old }
    ensures lens { vec_len bytes.new ≡ vec_len bytes.old }
    ensures flag_room { vec_capacity presence.new ≡ vec_capacity presence.old }
    ensures byte_room { vec_capacity bytes.new ≡ vec_capacity bytes.old }
{
    presence[at] = true;
    write_slot(bytes, at, entry);
}

/// Takes the entry out of a slot.
pub fn clear_slot(presence: &mut Vec<bool>, at: usize)
    requires within { at < vec_len presence.old }
    ensures flags { presence.new.items ≡ slice_set presence.old.items at false }
    ensures len { vec_len presence.new ≡ vec_len presence.old }
    ensures flag_room { vec_capacity presence.new ≡ vec_capacity presence.old }
{
    presence[at] = false;
}

/// Adds a slot, for which there is room.
pub fn push_slot(presence: &mut Vec<bool>, bytes: &mut Vec<u8>, entry: &[u8])
    requires flag { vec_len presence.old < vec_capacity presence.old }
    requires room { vec_len bytes.old + length entry.now ≤ vec_capacity bytes.old }
    requires whole { vec_len bytes.old ≡ vec_len presence.old * length entry.now }
    ensures entries { entries_stored (length entry.now) presence.new.items bytes.new.items
        ≡ with_new_entry (entries_stored (length entry.now) presence.old.items bytes.old.items) entry.now }
    ensures whole { vec_len bytes.new ≡ vec_len presence.new * length entry.now }
{
    presence.push(true).unwrap();
    bytes.extend_from_slice(entry).unwrap();
}

/// Takes the memory of one further slot.
pub fn reserve_slot(
    presence: &mut Vec<bool>,
    bytes: &mut Vec<u8>,
    width: usize,
) -> Result<(), NoMemory>
    ensures flags { presence.new.items ≡ presence.old.items }
    ensures bytes { bytes.new.items ≡ bytes.old.items }
    ensures count { vec_len presence.new ≡ vec_len presence.old }
    ensures len { vec_len bytes.new ≡ vec_len bytes.old }
    ensures flag { OnOk result (vec_len presence.new < vec_capacity presence.new) }
    ensures room { OnOk result (vec_len bytes.new + width ≤ vec_capacity bytes.new) }
    ensures kept { (vec_capacity presence.old ≤ vec_capacity presence.new) × (vec_capacity bytes.old ≤ vec_capacity bytes.new) }
{
    presence.reserve(1)?;
    bytes.reserve(width)?;
    Ok(())
}
