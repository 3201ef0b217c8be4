//! The room of a store.
ghost use Rattle.std.specs.Prelude.{◌≡◌, ◌+◌, ◌-◌, ◌≤◌, ◌<◌, ◌^◌, IfOk, OnErr, OnOk, length, sum_by};
ghost use Rattle.s38_space_map.specs.Extents.{AreRising, with_extent, without};
ghost use Rattle.s38_rules.specs.store.Room.{extent_at, free, parts_of};

use crate::extent::Extent;
use crate::extents;
use s38_base::{NoMemory, ObjNum};
use std::alloc::Global;
use std::marker::Model;

/// How many parts a store has for objects, and the extent of each object that it keeps, in rising order of number.
/// Contracts see it as the definitions say it, and beside it how many extents more take no memory.
#[derive(Drop)]
pub struct Room {
    parts: u32,
    extents: Vec<Extent>,
    /// How many of the parts are left.
    left: u32,
}

impl Model for Room {
    ghost use Rattle.std.specs.Prelude.{◌≡◌, ◌-◌, sum_by, vec_capacity, vec_len};
    ghost use Rattle.s38_space_map.specs.Extents.{AreRising};
    ghost use Rattle.s38_rules.specs.store.Room.{parts_of};
    ghost use Rattle.s38_space_map.specs.Keeping.{RoomHeld};

    ghost Value = { RoomHeld };

    ghost view = { λ r. record { room = record { parts = r.parts; extents = r.extents.items }; spare = vec_capacity r.extents - vec_len r.extents } };

    ghost invariant = { λ r. record { rising : AreRising r.extents.items; left : r.left ≡ r.parts - sum_by parts_of r.extents.items } };
}

/// How many of some parts are left beside those of extents.
fn left(parts: u32, extents: &[Extent]) -> u32
    ensures { result ≡ parts - sum_by parts_of extents.now }
{
    let mut left = u64::from(parts);
    for extent in extents {
        left = left.saturating_sub(extent.parts());
    }
    left as u32
}

/// How many of some parts are left beside extents, of which one has so many parts in place of those that it had. It takes
/// how many were left before. Where none was left, all extents are gone through.
#[tactic(auto, using(crate::proofs::SumLaws::left_moved))]
fn left_beside(before: u32, parts: u32, was: u64, now: u64, extents: &[Extent]) -> u32
    requires before { 0 < before → before + (sum_by parts_of extents.now + was) ≡ parts + now }
    requires was { was < 2 ^ 63 }
    ensures { result ≡ parts - sum_by parts_of extents.now }
{
    if before == 0 {
        left(parts, extents)
    } else {
        (u64::from(before) + was).saturating_sub(now) as u32
    }
}

impl Room {
    /// The room of a store with so many parts for objects, which keeps these extents.
    pub fn new(parts: u32, extents: Vec<Extent>) -> Room
        requires { AreRising extents.items }
        ensures { result.room ≡ record { parts = parts; extents = extents.items } }
    {
        let left = left(parts, extents.as_slice());
        Room {
            parts,
            extents,
            left,
        }
    }

    /// How many further parts the store takes.
    pub fn free(&self) -> u32
        ensures free { result ≡ free self.now.room }
        ensures rising { AreRising self.now.room.extents }
    {
        self.left
    }

    /// The extent of a number.
    pub fn extent(&self, number: ObjNum) -> Option<Extent>
        ensures { result ≡ extent_at self.now.room.extents number.0 }
    {
        extents::extent_at(self.extents.as_slice(), number)
    }

    /// How many objects the store keeps.
    pub fn count(&self) -> usize
        ensures count { result ≡ length self.now.room.extents }
        ensures rising { AreRising self.now.room.extents }
    {
        self.extents.len()
    }

    /// Takes the memory of so many extents more. `NoMemory` where memory was refused, and nothing changed.
    pub fn reserve(&mut self, extents: usize) -> Result<(), NoMemory>
        ensures room { self.new.room ≡ self.old.room }
        ensures ok { OnOk result (extents ≤ self.new.spare) }
        ensures err { OnErr result (self.new.spare ≡ self.old.spare) }
    {
        match self.extents.reserve(extents) {
            Ok(()) => Ok(()),
            Err(_) => Err(NoMemory),
        }
    }

    /// A copy, with the memory of so many extents more. `NoMemory` where memory was refused.
    pub fn copy_with_spare(&self, alloc: Global, extents: usize) -> Result<Room, NoMemory>
        ensures room { IfOk result (λ copy. copy.room ≡ self.now.room) }
        ensures spare { IfOk result (λ copy. extents ≤ copy.spare) }
    {
        let wanted = self.extents.len().saturating_add(extents);
        let mut copied = Vec::with_capacity(alloc, wanted)?;
        copied.extend_from_slice(self.extents.as_slice())?;
        let mut copy = Room {
            parts: self.parts,
            extents: copied,
            left: self.left,
        };
        copy.reserve(extents)?;
        Ok(copy)
    }

    /// How many extents more take no memory.
    pub fn spare(&self) -> usize
        ensures { result ≡ self.now.spare }
    {
        self.extents.capacity() - self.extents.len()
    }

    /// Puts the extent of an object, in place of the one that was there of its number. Its memory was reserved.
    #[tactic(auto, using(crate::proofs::ExtentLaws::rising_with, crate::proofs::SumLaws::put_moves))]
    pub fn put(&mut self, extent: Extent)
        requires { 1 ≤ self.old.spare }
        ensures extents { self.new.room.extents ≡ with_extent extent self.old.room.extents }
        ensures parts { self.new.room.parts ≡ self.old.room.parts }
        ensures spare { self.old.spare ≤ self.new.spare + 1 }
    {
        let was = extents::parts_at(self.extents.as_slice(), extent.number());
        extents::put(&mut self.extents, extent);
        self.left = left_beside(
            self.left,
            self.parts,
            was,
            extent.parts(),
            self.extents.as_slice(),
        );
    }

    /// Takes the extent of a number out, if there is one.
    #[tactic(auto, using(crate::proofs::ExtentLaws::rising_without, crate::proofs::SumLaws::take_moves))]
    pub fn take_out(&mut self, number: ObjNum)
        ensures extents { self.new.room.extents ≡ without number.0 self.old.room.extents }
        ensures parts { self.new.room.parts ≡ self.old.room.parts }
        ensures spare { self.old.spare ≤ self.new.spare }
    {
        let was = extents::parts_at(self.extents.as_slice(), number);
        extents::take_out(&mut self.extents, number);
        self.left = left_beside(self.left, self.parts, was, 0, self.extents.as_slice());
    }
}
