//! The image of a list of names.
ghost use Rattle.std.specs.Prelude.{◌≡◌, map, IfOk};
ghost use Rattle.s38_rules.specs.families.ContextLists.{character, name_image, names_image};

use s38_base::{Bytes, Name, NoMemory, ObjNum};
use s38_operands::{count_image, fitted};
use s38_rules::Listed;
use s38_strings::ebcdic;
use std::alloc::Global;
use std::collections::BTreeMap;

/// The byte that fills a name.
const BLANK: u8 = 0x40;

/// A character of a name.
fn character(c: u8) -> u8
    ensures { result ≡ character c }
{
    ebcdic(c).unwrap_or(BLANK)
}

fn characters(alloc: Global, name: &Name) -> Result<Bytes, NoMemory>
    ensures { IfOk result (λ made. made ≡ map character name.now) }
{
    let mut made = Bytes::new(alloc);
    for c in name.as_bytes() {
        made.push(character(*c))?;
    }
    Ok(made)
}

/// Kind, subtype, and the name filled with blanks.
fn name_image(alloc: Global, listed: &Listed) -> Result<Bytes, NoMemory>
    ensures { IfOk result (λ made. made ≡ name_image listed.now) }
{
    let name = characters(alloc, &listed.name)?;
    let filled = fitted(alloc, 30, BLANK, name.as_slice())?;
    let mut made = Vec::new(alloc);
    made.push(listed.kind)?;
    made.push(listed.sub)?;
    made.extend_from_slice(filled.as_slice())?;
    Ok(Bytes::from_vec(made))
}

/// How many names there are, and their images in order.
#[tactic(auto, using(crate::proofs::ListingLaws::names_written))]
pub fn names_image(alloc: Global, names: &BTreeMap<Listed, ObjNum>) -> Result<Bytes, NoMemory>
    ensures { IfOk result (λ made. made ≡ names_image names.now.entries) }
{
    let mut made = count_image(alloc, names.len())?;
    for listed in names.keys() {
        let image = name_image(alloc, listed)?;
        made.extend_from_slice(image.as_slice())?;
    }
    Ok(Bytes::from_vec(made))
}
