//! The body of an index.
ghost use Rattle.std.specs.Prelude.{◌≡◌, ◌++◌, ◌∷◌, [], IfErr, IfOk, OnOk, true};
ghost use Rattle.std.specs.Option.{option_copied};
ghost use Rattle.s38_codec.specs.Codec.{byte, only, times, whole};
ghost use Rattle.s38_codec.specs.Formats.{short_text};
ghost use Rattle.s38_codec.specs.Reading.{Gives};
ghost use Rattle.s38_image.specs.Indexes.{entries_rise, index, is_index};
ghost use Rattle.s38_image.specs.Steps.{is_after};

use s38_base::Relation;
use s38_codec::{ReadFault, byte_at, short_text_at, u32_at};
use s38_indexes::Index;
use std::alloc::Global;

/// How long an entry may be at most.
const LONGEST_ENTRY: u8 = 120;

/// How long an entry may be: 1 to 120 bytes.
fn longest_at(from: &[u8]) -> Result<(u8, &[u8]), ReadFault>
    ensures { Gives (λ x. (x.0, x.1.now)) result ((only is_index byte).read from.now) }
{
    let (longest, rest) = byte_at(from)?;
    if longest == 0 || longest > LONGEST_ENTRY {
        return Err(ReadFault::BadForm);
    }
    Ok((longest, rest))
}

/// Whether an entry comes after the one before it, if there is one.
fn is_after(previous: Option<&[u8]>, entry: &[u8]) -> bool
    ensures { result ≡ is_after (option_copied previous.entry) entry.now }
{
    match previous {
        Some(previous) => Relation::Lo.holds(previous.cmp(entry)),
        None => true,
    }
}

/// Adds an entry that comes after all others and is not too long. The image of the index is no longer than the bytes
/// that are read, so it is never full.
fn add(index: &mut Index, entry: &[u8]) -> Result<(), ReadFault>
    requires { entries_rise (index.old.entries ++ entry.now ∷ []) ≡ true }
    ensures ok { OnOk result (index.new ≡ record index.old { entries = index.old.entries ++ entry.now ∷ [] }) }
    ensures err { IfErr result (λ fault. fault ≡ ReadFault.NoMemory) }
{
    match index.insert(entry) {
        Ok(()) => Ok(()),
        Err(_) => Err(ReadFault::NoMemory),
    }
}

/// An index whose entries, so many, are all of the bytes, and rise.
fn entries_in(alloc: Global, longest: u8, count: u32, from: &[u8]) -> Result<Index, ReadFault>
    ensures read { Gives (λ index. index.entries) result (whole (only entries_rise (times count (short_text longest))) from.now) }
    ensures longest { IfOk result (λ index. index.longest ≡ longest) }
{
    let mut index = Index::new(alloc, longest);
    let mut previous = None;
    let mut rest = from;
    for _ in 0..count {
        let (entry, after) = short_text_at(longest, rest)?;
        if !is_after(previous, entry) {
            return Err(ReadFault::BadForm);
        }
        add(&mut index, entry)?;
        previous = Some(entry);
        rest = after;
    }
    if !rest.is_empty() {
        return Err(ReadFault::BadForm);
    }
    Ok(index)
}

/// The index that the bytes of a body hold.
pub fn index_in(alloc: Global, bytes: &[u8]) -> Result<Index, ReadFault>
    ensures { Gives (λ index. index) result (whole index bytes.now) }
{
    let (longest, rest) = longest_at(bytes)?;
    let (count, rest) = u32_at(rest)?;
    entries_in(alloc, longest, count, rest)
}
