//! The draws of the simulation: numbers that a seed, a place, an occurrence and a channel decide.
//!
//! A draw has no memory of the draws before it. It is made of two words of the cipher ChaCha8, at a place of the
//! key stream that its arguments name: so whoever makes it, in whatever order, gets the same number. The crate
//! promises just that, word for word.
//!
//! It stands on `rand_chacha` for the words, and on `surf_kinds` for the places.
#![tactic(auto)]

ghost use Rattle.std.specs.Prelude.{◌≡◌, ℕ, ◌<◌, ◌≤◌, ◌+◌, ◌*◌, ◌%◌, ◌^◌, slice_index};
ghost use Rattle.draws.specs.Draw.{draw_of, draw_at, key_bytes};

use rand_chacha::ChaCha8Rng;
use rand_core::SeedableRng;
use rand_core::utils::next_u64_via_u32;
use std::marker::Model;
use surf_kinds::Place;

/// What makes the draws of one seed.
#[derive(Debug, Drop)]
pub struct Drawer {
    seed: u64,
    // the cipher's key, ready for each draw
    key: [u8; 32],
}

impl Model for Drawer {
    ghost use Rattle.std.specs.Prelude.{ℕ, ◌≡◌};
    ghost use Rattle.draws.specs.Draw.{key_bytes};

    ghost Value = { ℕ };

    ghost view = { λ d. d.seed };

    ghost invariant = { λ d. d.key ≡ key_bytes d.seed };
}

impl Drawer {
    /// The draws of this seed.
    pub fn new(seed: u64) -> Drawer
        ensures { result ≡ seed }
    {
        Drawer {
            seed,
            key: key_of_seed(seed),
        }
    }

    /// The draw of a place, an occurrence and a channel: the word at its place of the key stream, and the word
    /// after it as the high half. The occurrence is below 2^54, and the channel below 8192.
    #[inline]
    pub fn draw(&self, place: Place, occurrence: u64, channel: u16) -> u64
        requires occurrence_fits { occurrence < 2 ^ 54 }
        requires channel_fits { channel < 8192 }
        ensures { result ≡ draw_of self.now place.0 occurrence channel }
    {
        self.draws(place, occurrence, channel / 8)[usize::from(channel % 8)]
    }

    /// The draws of a place and an occurrence for eight channels, from `8 * block` on: each is what `draw` gives. They
    /// are one block of the cipher, which is all of a draw's cost: so where several of these channels are asked for,
    /// this is cheaper. The occurrence is below 2^54, and the block below 1024.
    // Where a program calls this at one place alone, the compiler leaves out the three blocks of the generator's refill that
    // aren't asked for.
    #[inline]
    #[tactic(auto, unfolding(crate::specs::Draw::draw_of, crate::specs::Draw::word_of))]
    pub fn draws(&self, place: Place, occurrence: u64, block: u16) -> [u64; 8]
        requires occurrence_fits { occurrence < 2 ^ 54 }
        requires block_fits { block < 1024 }
        ensures { (i : ℕ) → i < 8 → slice_index result i ≡ draw_of self.now place.0 occurrence (8 * block + i) }
    {
        // The cipher makes its words by blocks of 16, and has least to do where it begins at a block's first.
        let mut rng = ChaCha8Rng::from_seed(self.key);
        rng.set_stream(place.0);
        rng.set_word_pos(u128::from(occurrence) * 16384 + 16 * u128::from(block));
        draws_of_block(rng)
    }
}

// The seed's eight bytes, least byte first, and 24 zero bytes.
fn key_of_seed(seed: u64) -> [u8; 32]
    ensures { result ≡ key_bytes seed }
{
    let mut key = [0; 32];
    key[0..8].copy_from_slice(&seed.to_le_bytes());
    key
}

// The next two words, the first as the low half.
#[inline]
fn next_draw(rng: &mut ChaCha8Rng) -> u64
    requires { rng.old.word_pos + 2 ≤ 2 ^ 68 }
    ensures draw { result ≡ draw_at rng.old rng.old.word_pos }
    ensures rest { rng.new ≡ record rng.old { word_pos = (rng.old.word_pos + 2) % 2 ^ 68 } }
{
    next_u64_via_u32(rng)
}

// The eight draws of the block at which the generator stands. All are made, one by one, since the compiler then knows where
// each word lies, and leaves out all that the generator makes beyond the block.
#[inline]
fn draws_of_block(mut rng: ChaCha8Rng) -> [u64; 8]
    requires { rng.word_pos + 16 ≤ 2 ^ 68 }
    ensures { (i : ℕ) → i < 8 → slice_index result i ≡ draw_at rng (rng.word_pos + 2 * i) }
{
    [
        next_draw(&mut rng),
        next_draw(&mut rng),
        next_draw(&mut rng),
        next_draw(&mut rng),
        next_draw(&mut rng),
        next_draw(&mut rng),
        next_draw(&mut rng),
        next_draw(&mut rng),
    ]
}

#[cfg(test)]
mod tests;
