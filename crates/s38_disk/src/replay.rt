ghost use Rattle.std.specs.Prelude.{◌≡◌, ◌≤◌, ◌<◌, ℕ, false, true, get_or, length, take};
ghost use Rattle.s38_disk.specs.Blocks.{DiskState, after_calls, blocks_of_list, stepped, synced_state};
ghost use Rattle.s38_disk.specs.Memory.{AreWithin, IsDurable, IsWithin, image_by, is_good_sync};
ghost use Rattle.s38_disk.specs.declared.block.Block.{Block};
ghost use Rattle.s38_disk.specs.declared.block.Call.{Call};

use crate::block::{Block, Call};

/// Does a call again. Where it may be lost, the fill says what is left of it.
fn apply(blocks: &mut [Block], call: &Call, lost: bool, fill: u8)
    requires { IsWithin (length blocks.old) call.now }
    ensures done { lost ≡ false → (s : DiskState) → ((i : ℕ) → blocks_of_list blocks.old i ≡ s.now i) → (i : ℕ) → blocks_of_list blocks.new i ≡ (stepped s call.now).now i }
    ensures lost { lost ≡ true → (s : DiskState) → is_good_sync call.now ≡ false → ((i : ℕ) → blocks_of_list blocks.old i ≡ image_by fill s i) → (i : ℕ) → blocks_of_list blocks.new i ≡ image_by fill (stepped s call.now) i }
{
    match call {
        Call::Wrote { at, block } => {
            if !lost || fill == 1 {
                blocks[*at as usize] = *block;
            } else if fill != 0 {
                blocks[*at as usize] = Block { bytes: [fill; 528] };
            }
        }
        Call::Synced { .. } => {}
    }
}

fn is_good_sync(call: &Call) -> bool
    ensures { result ≡ is_good_sync call.now }
{
    matches!(call, Call::Synced { good: true })
}

/// How many calls there are up to the last good sync.
fn kept_from(calls: &[Call]) -> usize
    ensures within { result ≤ length calls.now }
    ensures last { (k : ℕ) (d : Call) → result ≤ k → k < length calls.now → is_good_sync (get_or calls.now k d) ≡ false }
    ensures durable { (blocks : ℕ → Block) → IsDurable (after_calls (synced_state blocks) (take result calls.now)) }
{
    let mut kept = 0;
    for k in 0..calls.len() {
        if is_good_sync(&calls[k]) {
            kept = k + 1;
        }
    }
    kept
}

/// Does calls again after a crash. Blocks that were written since the last good sync are old for fill 0, new for fill 1,
/// and else full of the fill.
pub fn replay(blocks: &mut [Block], calls: &[Call], fill: u8)
    requires { AreWithin (length blocks.old) calls.now }
    ensures image { (i : ℕ) → blocks_of_list blocks.new i ≡ image_by fill (after_calls (synced_state (blocks_of_list blocks.old)) calls.now) i }
{
    let kept = kept_from(calls);
    for k in 0..calls.len() {
        apply(blocks, &calls[k], k >= kept, fill);
    }
}
