ghost use Rattle.std.specs.Bool.{OnTrue};
ghost use Rattle.std.specs.Prelude.{IfSome, ◌≡◌, ◌≤◌, ◌<◌, ◌^◌, length, position};
ghost use Rattle.s38_dataspaces.specs.Seeks.{is_present_at, last_up_to, next_above, sought};

use s38_base::Seek;

/// Whether the entry of an ordinal is present.
fn is_present_at(flags: &[bool], at: usize) -> bool
    ensures stands { result ≡ is_present_at flags.now at }
    ensures within { OnTrue result (at ≤ length flags.now) }
{
    at > 0 && at <= flags.len() && flags[at - 1]
}

/// The place of the first entry that is present.
fn first_present(flags: &[bool]) -> Option<usize>
    ensures place { result ≡ position (λ stands. stands) flags.now }
    ensures within { IfSome result (λ k. k < length flags.now) }
{
    flags.iter().position(|stands| *stands)
}

/// The least ordinal above a number whose entry is present.
fn next_above(flags: &[bool], from: usize) -> Option<usize>
    ensures ordinal { result ≡ next_above flags.now from }
    ensures within { IfSome result (λ at. at ≤ length flags.now) }
{
    if from >= flags.len() {
        return None;
    }
    match first_present(&flags[from..]) {
        Some(k) => Some(from + 1 + k),
        None => None,
    }
}

/// The greatest ordinal up to a number whose entry is present.
#[tactic(auto, using(crate::proofs::SeekLaws::last_found, crate::proofs::SeekLaws::last_below))]
fn last_up_to(flags: &[bool], most: usize) -> Option<usize>
    requires { most ≤ length flags.now }
    ensures ordinal { result ≡ last_up_to flags.now most }
    ensures within { IfSome result (λ at. at ≤ length flags.now) }
{
    let mut at = most;
    while at > 0 {
        if is_present_at(flags, at) {
            return Some(at);
        }
        at -= 1;
    }
    None
}

/// The ordinal of the entry that is sought.
pub fn sought(flags: &[bool], how: Seek, from: usize) -> Option<usize>
    ensures ordinal { result ≡ sought flags.now how from }
    ensures within { IfSome result (λ at. at ≤ length flags.now) }
{
    match how {
        Seek::First => next_above(flags, 0),
        Seek::Last => last_up_to(flags, flags.len()),
        Seek::Next => next_above(flags, from),
        Seek::Prev => last_up_to(flags, from.saturating_sub(1).min(flags.len())),
        Seek::At => if is_present_at(flags, from) {
            Some(from)
        } else {
            None
        },
    }
}
