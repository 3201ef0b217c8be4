ghost use Rattle.std.specs.Prelude.{◌≡◌, ◌≤◌, List, ℕ, Some, length, nat_eq, refl};
ghost use Rattle.std.specs.Ordering.{nat_cmp};
ghost use Rattle.std.specs.Cmp.{partial_equiv_from_equiv};
ghost use Rattle.std.specs.Cmp.Lexicographic.{nat_list_cmp_total, nat_list_eq_equiv, pointwise, slice_cmp, texts_po, texts_ties};
ghost use Rattle.s38_queues.specs.KeyText.{padded};
ghost use Rattle.s38_queues.specs.MessageQueue.{longest_key};

use std::cmp::Ordering;
use std::marker::Model;

/// The longest key, in bytes.
const LONGEST: usize = 120;

/// A key: at most 120 bytes. Contracts see it as the list of its bytes.
#[derive(Clone, Copy, Debug)]
pub struct Key {
    bytes: [u8; LONGEST],
    len: u8,
}

impl Model for Key {
    ghost use Rattle.std.specs.Prelude.{ℕ, List, length, take};
    ghost use Rattle.std.proofs.Common.{ap};
    ghost use Rattle.s38_queues.specs.KeyText.{IsPadded, padded, fields-take};

    ghost Value = { List ℕ };

    ghost view = { λ k. take k.len k.bytes };

    ghost invariant = { λ k. IsPadded k.bytes k.len };

    ghost inverse = { λ text. record { bytes = padded text; len = length text } };

    ghost inverse_ok = { λ k h. ap (λ (p : List ℕ × ℕ). record { bytes = p.0; len = p.1 }) (fields-take k.bytes k.len h) };
}

fn padded(text: &[u8]) -> [u8; LONGEST]
    requires { length text.now ≤ 120 }
    ensures { result ≡ padded text.now }
{
    let mut bytes = [0; LONGEST];
    bytes[..text.len()].copy_from_slice(text);
    bytes
}

impl Key {
    /// The key of these bytes.
    pub fn new(text: &[u8]) -> Key
        requires { length text.now ≤ longest_key }
        ensures { result ≡ text.now }
    {
        Key {
            bytes: padded(text),
            len: text.len() as u8,
        }
    }

    /// The bytes of the key.
    pub fn as_bytes(&self) -> &[u8]
        ensures { result.now ≡ self.now }
    {
        &self.bytes[..self.len as usize]
    }
}

impl PartialEq for Key {
    ghost eq = { pointwise nat_eq };

    ghost laws = { partial_equiv_from_equiv nat_list_eq_equiv };

    fn eq(&self, other: &Key) -> bool {
        self.as_bytes() == other.as_bytes()
    }
}

impl Eq for Key {
    ghost laws = { nat_list_eq_equiv };
}

impl PartialOrd for Key {
    ghost partial_cmp = { λ x y. Some (slice_cmp nat_cmp x y) };

    ghost laws = { texts_po };

    fn partial_cmp(&self, other: &Key) -> Option<Ordering> {
        Some(self.cmp(other))
    }
}

impl Ord for Key {
    ghost cmp = { slice_cmp nat_cmp };

    ghost total = { nat_list_cmp_total };

    ghost matches_partial_cmp = { λ x y. refl };

    ghost matches_eq = { texts_ties };

    fn cmp(&self, other: &Key) -> Ordering {
        self.as_bytes().cmp(other.as_bytes())
    }
}
