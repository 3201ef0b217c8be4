ghost use Rattle.std.specs.Prelude.{◌≡◌, ℕ, ◌<◌, length, map, slice_index};
ghost use Rattle.s38_strings.specs.Copies.{copied_left};
ghost use Rattle.s38_strings.specs.Translate.{translated};

/// What each byte becomes.
fn table(place: &[u8], by: &[u8]) -> [u8; 256]
    requires { length place.now ≡ length by.now }
    ensures { (c : ℕ) → c < 256 → slice_index result c ≡ translated place.now by.now c }
{
    let mut table = [0; 256];
    for c in 0..256 {
        table[c] = c as u8;
    }
    for k in (0..place.len()).rev() {
        table[place[k] as usize] = by[k];
    }
    table
}

/// Copies as `copy_left` does, with each byte that is found first at place k of `place` replaced by byte
/// k of `by`.
pub fn xlate(into: &mut [u8], from: &[u8], place: &[u8], by: &[u8])
    requires { length place.now ≡ length by.now }
    ensures { into.new ≡ copied_left into.old (map (translated place.now by.now) from.now) }
{
    let table = table(place, by);
    let len = into.len().min(from.len());
    for k in 0..len {
        into[k] = table[from[k] as usize];
    }
}
