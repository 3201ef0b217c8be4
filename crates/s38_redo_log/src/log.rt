ghost use Rattle.std.specs.Prelude.{◌≡◌, ◌<◌, ◌≤◌, ◌+◌, ◌/◌, ◌*◌, ◌^◌, ℕ, List, length, get_or, true, OnOk, OnErr};
ghost use Rattle.s38_disk.specs.Blocks.{DiskState, put};
ghost use Rattle.s38_base.specs.Faults.{HasCause};
ghost use Rattle.s38_disk.specs.Costs.{Costs};
ghost use Rattle.s38_disk.specs.Disk.{DiskView, IsAt};
ghost use Rattle.s38_disk.specs.Moves.{IsSynced, Moves, MovesBy, Near, SameBut};
ghost use Rattle.s38_redo_log.specs.Coding.{word_in};
ghost use Rattle.s38_redo_log.specs.Store.{log_count, log_data, log_of, log_word};
ghost use Rattle.s38_redo_log.specs.Phases.{HasData, HasNumbers, block_between, log_number_at, slot_at};

use crate::Slot;
use crate::coding::set_word;
use s38_base::Failed;
use s38_disk::{Block, Disk};

/// The number at a place of the log: first how many there are, then the homes.
fn number_at(slots: &[Slot], k: usize) -> u32
    requires { length slots.now < 2 ^ 32 }
    ensures { result ≡ log_number_at slots.now k }
{
    if k == 0 {
        slots.len() as u32
    } else if k <= slots.len() {
        slots[k - 1].home
    } else {
        0
    }
}

/// A block of the log with the numbers from a place on.
fn number_block(slots: &[Slot], first: usize) -> Block
    requires few { length slots.now < 2 ^ 32 }
    requires first { first < 2 ^ 33 }
    ensures { (i : ℕ) → i < 132 → word_in result i ≡ log_number_at slots.now (first + i) }
{
    let mut bytes = [0; 528];
    for i in 0..132 {
        set_word(&mut bytes, 4 * i, number_at(slots, first + i));
    }
    Block { bytes }
}

/// Writes the numbers of the log.
fn write_numbers<D: Disk>(disk: &mut D, slots: &[Slot]) -> Result<(), Failed>
    requires few { length slots.now < 2 ^ 31 }
    requires room { 3 + length slots.now / 132 ≤ (D.view disk.old).size }
    ensures moves { Moves (D.view disk.old) (D.view disk.new) (length slots.now / 132 + 1) (Near (block_between 2 (3 + length slots.now / 132))) }
    ensures cost { Costs (D.view disk.old) (D.view disk.new) (length slots.now / 132 + 1) 0 }
    ensures done { OnOk result (MovesBy (D.view disk.old) (D.view disk.new) (λ s t. HasNumbers slots.now t.now)) }
    ensures cause { HasCause (D.view disk.old).faults (D.view disk.new).faults result }
    ensures count { OnOk result ((D.view disk.new).faults ≡ (D.view disk.old).faults) }
{
    for j in 0..slots.len() / 132 + 1 {
        disk.write(2 + j as u32, &number_block(slots, 132 * j))?;
    }
    Ok(())
}

/// Writes the blocks of the log after its home numbers.
fn write_data<D: Disk>(disk: &mut D, slots: &[Slot]) -> Result<(), Failed>
    requires few { length slots.now < 2 ^ 31 }
    requires room { 3 + length slots.now / 132 + length slots.now ≤ (D.view disk.old).size }
    ensures moves { Moves (D.view disk.old) (D.view disk.new) (length slots.now) (Near (block_between (3 + length slots.now / 132) (3 + length slots.now / 132 + length slots.now))) }
    ensures cost { Costs (D.view disk.old) (D.view disk.new) (length slots.now) 0 }
    ensures done { OnOk result (MovesBy (D.view disk.old) (D.view disk.new) (λ s t. HasData slots.now t.now)) }
    ensures cause { HasCause (D.view disk.old).faults (D.view disk.new).faults result }
    ensures count { OnOk result ((D.view disk.new).faults ≡ (D.view disk.old).faults) }
{
    let data = 3 + slots.len() / 132;
    for k in 0..slots.len() {
        disk.write((data + k) as u32, &slots[k].block)?;
    }
    Ok(())
}

/// Writes the log, and syncs.
pub fn write_log<D: Disk>(disk: &mut D, slots: &[Slot]) -> Result<(), Failed>
    requires few { length slots.now < 2 ^ 31 }
    requires room { 3 + length slots.now / 132 + length slots.now ≤ (D.view disk.old).size }
    ensures moves { Moves (D.view disk.old) (D.view disk.new) (length slots.now / 132 + length slots.now + 2) (Near (block_between 2 (3 + length slots.now / 132 + length slots.now))) }
    ensures cost { Costs (D.view disk.old) (D.view disk.new) (length slots.now / 132 + length slots.now + 1) 1 }
    ensures done { OnOk result (MovesBy (D.view disk.old) (D.view disk.new) (λ s t. IsSynced t × (log_count t.now ≡ length slots.now) × (log_of t.now ≡ slots.now))) }
    ensures cause { HasCause (D.view disk.old).faults (D.view disk.new).faults result }
    ensures count { OnOk result ((D.view disk.new).faults ≡ (D.view disk.old).faults) }
{
    write_numbers(disk, slots)?;
    write_data(disk, slots)?;
    disk.sync()?;
    Ok(())
}
