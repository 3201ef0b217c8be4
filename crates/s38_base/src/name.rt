ghost use Rattle.std.specs.Prelude.{◌≡◌, ◌≤◌, List, ℕ, Some, IsTrue, length, nat_eq, nat_le, refl};
ghost use Rattle.std.specs.Result.{OkIff};
ghost use Rattle.std.specs.Ordering.{nat_cmp};
ghost use Rattle.std.specs.Cmp.{partial_equiv_from_equiv};
ghost use Rattle.std.specs.Cmp.Lexicographic.{nat_list_cmp_total, nat_list_eq_equiv, pointwise, slice_cmp, texts_po, texts_ties};
ghost use Rattle.s38_base.specs.NameText.{are_name_bytes, front, is_name, is_name_byte, padded};

use std::cmp::Ordering;
use std::marker::Model;
use thiserror::Error;

/// The longest name.
const LONGEST: usize = 30;

/// A name: 1 to 30 characters of A to Z and 0 to 9. Contracts see it as the list of its bytes.
#[derive(Clone, Copy, Debug)]
pub struct Name {
    bytes: [u8; LONGEST],
    len: u8,
}

impl Model for Name {
    ghost use Rattle.std.specs.Prelude.{ℕ, List, length, take};
    ghost use Rattle.std.proofs.Common.{ap};
    ghost use Rattle.s38_base.specs.NameText.{IsPadded, fields-take, padded};

    ghost Value = { List ℕ };

    ghost view = { λ n. take n.len n.bytes };

    ghost invariant = { λ n. IsPadded n.bytes n.len };

    ghost inverse = { λ text. record { bytes = padded text; len = length text } };

    ghost inverse_ok = { λ n h. ap (λ (p : List ℕ × ℕ). record { bytes = p.0; len = p.1 }) (fields-take n.bytes n.len h) };
}

/// The text is no name: it is empty, longer than 30, or holds another character.
#[derive(Clone, Copy, PartialEq, Eq, Debug, Error)]
#[error("not a name")]
pub struct BadName;

fn is_name_byte(byte: u8) -> bool
    ensures { result ≡ is_name_byte byte }
{
    (byte >= b'A' && byte <= b'Z') || (byte >= b'0' && byte <= b'9')
}

fn are_name_bytes(text: &[u8]) -> bool
    ensures { result ≡ are_name_bytes text.now }
{
    text.iter().all(|byte| is_name_byte(*byte))
}

fn padded(text: &[u8]) -> [u8; LONGEST]
    requires { length text.now ≤ 30 }
    ensures { result ≡ padded text.now }
{
    let mut bytes = [0; LONGEST];
    bytes[..text.len()].copy_from_slice(text);
    bytes
}

impl Name {
    /// The name that a text spells. `BadName` exactly where the text is empty, longer than 30 bytes, or
    /// holds another character than A to Z and 0 to 9.
    pub fn parse(text: &[u8]) -> Result<Name, BadName>
        ensures { OkIff result (IsTrue (is_name text.now)) text.now }
    {
        if text.is_empty() || text.len() > LONGEST || !are_name_bytes(text) {
            return Err(BadName);
        }
        Ok(Name {
            bytes: padded(text),
            len: text.len() as u8,
        })
    }

    /// The first eight bytes as one number, the first byte the greatest; a short name is filled up with zeros.
    #[inline(always)]
    #[tactic(auto, using(crate::proofs::NameOrder::head_is))]
    fn head(&self) -> u64
        ensures number { result ≡ front 0 8 self.now }
        ensures name { IsTrue (is_name self.now) }
    {
        u64::from_be_bytes([
            self.bytes[0],
            self.bytes[1],
            self.bytes[2],
            self.bytes[3],
            self.bytes[4],
            self.bytes[5],
            self.bytes[6],
            self.bytes[7],
        ])
    }

    /// The name has no byte after its head.
    #[inline(always)]
    fn is_short(&self) -> bool
        ensures { result ≡ nat_le (length self.now) 8 }
    {
        self.len <= 8
    }

    /// The bytes of the name.
    pub fn as_bytes(&self) -> &[u8]
        ensures text { result.now ≡ self.now }
        ensures name { IsTrue (is_name self.now) }
    {
        &self.bytes[..self.len as usize]
    }
}

/// The order of two names, byte by byte.
#[inline(never)]
fn order_by_bytes(name: &Name, other: &Name) -> Ordering
    ensures { result ≡ slice_cmp nat_cmp name.now other.now }
{
    name.as_bytes().cmp(other.as_bytes())
}

impl PartialEq for Name {
    ghost eq = { pointwise nat_eq };

    ghost laws = { partial_equiv_from_equiv nat_list_eq_equiv };

    fn eq(&self, other: &Name) -> bool {
        self.as_bytes() == other.as_bytes()
    }
}

impl Eq for Name {
    ghost laws = { nat_list_eq_equiv };
}

impl PartialOrd for Name {
    ghost partial_cmp = { λ x y. Some (slice_cmp nat_cmp x y) };

    ghost laws = { texts_po };

    fn partial_cmp(&self, other: &Name) -> Option<Ordering> {
        Some(self.cmp(other))
    }
}

impl Ord for Name {
    ghost cmp = { slice_cmp nat_cmp };

    ghost total = { nat_list_cmp_total };

    ghost matches_partial_cmp = { λ x y. refl };

    ghost matches_eq = { texts_ties };

    #[inline(always)]
    fn cmp(&self, other: &Name) -> Ordering {
        let (head, other_head) = (self.head(), other.head());
        if head != other_head {
            return head.cmp(&other_head);
        }
        if self.is_short() && other.is_short() {
            return Ordering::Equal;
        }
        order_by_bytes(self, other)
    }
}
