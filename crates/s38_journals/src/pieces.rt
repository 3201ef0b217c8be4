ghost use Rattle.std.specs.Prelude.{◌≡◌, ◌+◌, ◌-◌, ◌*◌, ◌≤◌, ◌<◌, ◌∷◌, ◌++◌, [], IsTrue, IsOk, OnOk, OnErr, length, max, sum_by, take, drop, vec_capacity, vec_len, slice_get, slice_index};
ghost use Rattle.std.specs.Option.{option_copied};
ghost use Rattle.s38_journals.specs.Stored.{are_ends, joined, pieces_cut, with_piece};

use crate::entry::HEAD;
use s38_base::NoMemory;
use std::alloc::Global;
use std::marker::Model;

/// Pieces of bytes, one after another, each at least as long as the head of an entry.
#[derive(Drop)]
pub struct Pieces {
    spare: u32,
    ends: Vec<u32>,
    bytes: Vec<u8>,
}

impl Model for Pieces {
    ghost use Rattle.std.specs.Prelude.{vec_capacity, vec_len};
    ghost use Rattle.s38_journals.specs.Stored.{IsKept, KeptPieces, pieces_cut};

    ghost Value = { KeptPieces };

    ghost view = { λ p. record { spare = p.spare; pieces = pieces_cut 0 p.ends.items p.bytes.items } };

    ghost invariant = { λ p. IsKept p.spare p.ends.items (vec_capacity p.ends) (vec_len p.ends) (vec_len p.bytes) (vec_capacity p.bytes) };
}

/// Where a piece begins.
fn start_of(ends: &[u32], at: usize) -> u32
    requires { at < length ends.now }
    ensures { result ≡ slice_index (0 ∷ ends.now) at }
{
    if at == 0 {
        return 0;
    }
    ends[at - 1]
}

/// A piece; None past the last.
fn piece_in<'a>(ends: &[u32], bytes: &'a [u8], at: usize) -> Option<&'a [u8]>
    requires { IsTrue (are_ends 0 ends.now (length bytes.now)) }
    ensures { option_copied result ≡ slice_get (pieces_cut 0 ends.now bytes.now) at }
{
    if at >= ends.len() {
        return None;
    }
    let start = start_of(ends, at) as usize;
    let end = ends[at] as usize;
    Some(&bytes[start..end])
}

/// Adds bytes, for which there is room.
fn push_bytes(bytes: &mut Vec<u8>, more: &[u8])
    requires { vec_len bytes.old + length more.now ≤ vec_capacity bytes.old }
    ensures bytes { bytes.new.items ≡ bytes.old.items ++ more.now }
    ensures len { vec_len bytes.new ≡ vec_len bytes.old + length more.now }
    ensures room { vec_capacity bytes.old ≤ vec_capacity bytes.new }
{
    bytes.extend_from_slice(more).unwrap();
}

/// Adds bytes in three parts, for which there is room, and answers how many they are.
#[tactic(auto, using(crate::proofs::CutLaws::three_parts))]
fn push_parts(bytes: &mut Vec<u8>, head: &[u8], before: &[u8], after: &[u8]) -> usize
    requires { vec_len bytes.old + length (head.now ++ (before.now ++ after.now)) ≤ vec_capacity bytes.old }
    ensures bytes { bytes.new.items ≡ bytes.old.items ++ (head.now ++ (before.now ++ after.now)) }
    ensures more { result ≡ length (head.now ++ (before.now ++ after.now)) }
    ensures len { vec_len bytes.new ≡ vec_len bytes.old + result }
    ensures room { vec_capacity bytes.old ≤ vec_capacity bytes.new }
{
    push_bytes(bytes, head);
    push_bytes(bytes, before);
    push_bytes(bytes, after);
    head.len() + before.len() + after.len()
}

/// Adds where the last piece ends, for which there is room.
fn push_end(ends: &mut Vec<u32>, bytes: &[u8], from: usize)
    requires room { vec_len ends.old < vec_capacity ends.old }
    requires small { length bytes.now ≤ 16777216 }
    requires within { from + 41 ≤ length bytes.now }
    requires whole { IsTrue (are_ends 0 ends.old.items from) }
    ensures pieces { pieces_cut 0 ends.new.items bytes.now ≡ pieces_cut 0 ends.old.items (take from bytes.now) ++ drop from bytes.now ∷ [] }
    ensures whole { IsTrue (are_ends 0 ends.new.items (length bytes.now)) }
    ensures len { vec_len ends.new ≡ vec_len ends.old + 1 }
    ensures kept { vec_capacity ends.old ≤ vec_capacity ends.new }
{
    ends.push(bytes.len() as u32).unwrap();
}

/// Takes the memory of further bytes, and of where their pieces end.
fn reserve_room(ends: &mut Vec<u32>, bytes: &mut Vec<u8>, more: u32) -> Result<(), NoMemory>
    ensures ends { ends.new.items ≡ ends.old.items }
    ensures bytes { bytes.new.items ≡ bytes.old.items }
    ensures ends_len { vec_len ends.new ≡ vec_len ends.old }
    ensures len { vec_len bytes.new ≡ vec_len bytes.old }
    ensures ends_room { OnOk result (41 * vec_len ends.new + more ≤ 41 * vec_capacity ends.new) }
    ensures room { OnOk result (vec_len bytes.new + more ≤ vec_capacity bytes.new) }
    ensures kept { (vec_capacity ends.old ≤ vec_capacity ends.new) × (vec_capacity bytes.old ≤ vec_capacity bytes.new) }
{
    ends.reserve(more.div_ceil(HEAD as u32) as usize)?;
    bytes.reserve(more as usize)?;
    Ok(())
}

impl Pieces {
    /// No pieces; it takes no memory until it grows.
    pub fn new(alloc: Global) -> Pieces
        ensures { result ≡ record { spare = 0; pieces = [] } }
    {
        Pieces {
            spare: 0,
            ends: Vec::new(alloc),
            bytes: Vec::new(alloc),
        }
    }

    /// How many pieces there are.
    #[tactic(auto, using(crate::proofs::CutLaws::cut_count, crate::proofs::CutLaws::kept_count))]
    pub fn count(&self) -> usize
        ensures count { result ≡ length self.now.pieces }
        ensures bound { 41 * result ≤ 16777216 }
    {
        self.ends.len()
    }

    /// How many bytes all pieces have together.
    #[tactic(auto, using(crate::proofs::CutLaws::kept_sum))]
    pub fn len(&self) -> u32
        ensures len { result ≡ sum_by length self.now.pieces }
        ensures small { result + self.now.spare ≤ 16777216 }
    {
        self.bytes.len() as u32
    }

    /// The bytes of all pieces, one after another.
    #[tactic(auto, using(crate::proofs::CutLaws::kept_joined))]
    pub fn bytes(&self) -> &[u8]
        ensures { result.now ≡ joined self.now.pieces }
    {
        self.bytes.as_slice()
    }

    /// A piece, counted from 0 on; None past the last.
    pub fn get(&self, at: usize) -> Option<&[u8]>
        ensures { option_copied result ≡ slice_get self.now.pieces at }
    {
        piece_in(&self.ends, &self.bytes, at)
    }

    /// Takes the memory of further bytes.
    #[tactic(auto, using(crate::proofs::CutLaws::kept_sum))]
    pub fn reserve(&mut self, more: u32) -> Result<(), NoMemory>
        requires { sum_by length self.old.pieces + more ≤ 16777216 }
        ensures ok { OnOk result (self.new ≡ record self.old { spare = max self.old.spare more }) }
        ensures err { OnErr result (self.new ≡ self.old) }
        ensures room { more ≤ self.old.spare → IsOk result }
    {
        if more <= self.spare {
            return Ok(());
        }
        reserve_room(&mut self.ends, &mut self.bytes, more)?;
        self.spare = more;
        Ok(())
    }

    /// How many further bytes of pieces take no memory.
    pub fn spare(&self) -> u32
        ensures { result ≡ self.now.spare }
    {
        self.spare
    }

    /// Gives room up, down to a spare number; the memory stays.
    pub fn release(&mut self, spare: u32)
        requires { spare ≤ self.old.spare }
        ensures { self.new ≡ record self.old { spare = spare } }
    {
        self.spare = spare;
    }

    /// Adds a piece of a head and two further parts, without memory.
    #[tactic(auto, using(crate::proofs::CutLaws::front_of, crate::proofs::CutLaws::back_of, crate::proofs::CutLaws::kept_sum))]
    pub fn push(&mut self, head: &[u8], before: &[u8], after: &[u8])
        requires head { 41 ≤ length head.now }
        requires room { length (head.now ++ (before.now ++ after.now)) ≤ self.old.spare }
        ensures pushed { self.new ≡ with_piece self.old (head.now ++ (before.now ++ after.now)) }
        ensures small { sum_by length self.new.pieces ≤ 16777216 }
    {
        let from = self.bytes.len();
        let more = push_parts(&mut self.bytes, head, before, after);
        push_end(&mut self.ends, &self.bytes, from);
        self.spare -= more as u32;
    }
}
