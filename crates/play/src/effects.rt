// What a frame does to memory and to the lock bytes.
ghost use Rattle.std.specs.Prelude.{◌≡◌, true, ◌+◌, ◌*◌, ◌≤◌, length, take, drop};
ghost use Rattle.lent.specs.Lent.{placed};
ghost use Rattle.play.specs.Fits.{effect_fits};
ghost use Rattle.play.specs.Effects.{blocks_stored, memory_after, locks_after};

use card::Card;
use commands::Effect;

// Copies all bytes, one by one: std's copy_from_slice of bytes whose number varies is a call of C's memmove, and the library calls nothing.
pub(crate) fn copy_all(to: &mut [u8], from: &[u8])
    requires { length to.old ≡ length from.now }
    ensures len { length to.new ≡ length to.old }
    ensures after { to.new ≡ from.now }
{
    for i in 0..from.len() {
        to[i] = from[i];
    }
}

// Stores n blocks from the first on, one after another. Their data stand at a place of the frame.
#[tactic(auto, using(crate::proofs::Stores::stored_copy))]
fn store_blocks(frame: &[u8], place: usize, size: usize, first: u32, n: u32, memory: &mut [u8])
    requires size_in_bounds { place + n * size ≤ length frame.now }
    requires size_in_bounds_2 { (first + n) * size ≤ length memory.old }
    ensures { memory.new ≡ blocks_stored frame.now place size first n memory.old }
{
    let start = first as usize * size;
    let all = n as usize * size;
    copy_all(&mut memory[start..start + all], &frame[place..place + all]);
}

// Writes the blocks, or locks the one, as the effect is.
#[tactic(auto, unfolding(crate::specs::Effects::memory_after, crate::specs::Effects::locks_after, crate::specs::Fits::effect_fits))]
pub(crate) fn take_effect(
    card: Card,
    frame: &[u8],
    effect: Effect,
    memory: &mut [u8],
    locks: &mut [u8],
)
    requires effect_value { effect_fits card frame.now effect ≡ true }
    requires memory_len { length memory.old ≡ card.blocks * card.size }
    requires locks_len { length locks.old ≡ card.blocks }
    ensures { (memory.new ≡ memory_after card frame.now memory.old effect) × (locks.new ≡ locks_after locks.old effect) }
{
    let size = card.size as usize;
    match effect {
        Effect::Leave => {}
        Effect::Write(first, n, place) => {
            store_blocks(frame, place as usize, size, first, n, memory);
        }
        Effect::Lock(block) => {
            locks[block as usize] = 1;
        }
    }
}
