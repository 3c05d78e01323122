// The message schedule of SHA-256, four words at a time, since a vector of four costs little more than one word.
ghost use Rattle.std.specs.Prelude.{◌≡◌, ◌<◌, ◌+◌, ◌*◌, ◌++◌, [], ◌∷◌, drop, map, slice_index, take};
ghost use Rattle.digest.specs.Halfway.{words_of};
ghost use Rattle.digest.specs.Sha256.{ROTR, block_words, plus, slide, σ0, σ1};

use std::simd::{u32x4, u64x2};

// Each word turned right.
#[inline(always)]
fn rotate(x: u32x4, n: u32) -> u32x4
    requires low { 0 < n }
    requires high { n < 32 }
    ensures { result ≡ map (ROTR n) x }
{
    (x >> u32x4::splat(n)) | (x << u32x4::splat(32 - n))
}

#[inline(always)]
fn small_sigma0(x: u32x4) -> u32x4
    ensures { result ≡ map σ0 x }
{
    rotate(x, 7) ^ rotate(x, 18) ^ (x >> u32x4::splat(3))
}

// σ1 of the first two words, and zeros. A word that stands twice in 64 bits is turned by one shift.
#[inline(always)]
fn small_sigma1(x: u32x4) -> u32x4
    ensures { result ≡ σ1 (slice_index x 0) ∷ σ1 (slice_index x 1) ∷ 0 ∷ 0 ∷ [] }
{
    let twice: u32x4 = x.swizzle([0, 0, 1, 1]);
    let wide = u64x2::from_le_bytes(twice.to_le_bytes());
    let turned = (wide >> u64x2::splat(17)) ^ (wide >> u64x2::splat(19));
    let both = u32x4::from_le_bytes(turned.to_le_bytes()) ^ (twice >> u32x4::splat(10));
    both.shuffle(u32x4::splat(0), [0, 2, 4, 5])
}

// The four words after sixteen. The third and the fourth need the first two, so their share comes in a second step.
#[inline(always)]
fn next_four(w0: u32x4, w1: u32x4, w2: u32x4, w3: u32x4) -> u32x4
    ensures { w1 ++ (w2 ++ (w3 ++ result)) ≡ slide (slide (slide (slide (w0 ++ (w1 ++ (w2 ++ w3)))))) }
{
    let sum = w0 + small_sigma0(w0.shuffle(w1, [1, 2, 3, 4])) + w2.shuffle(w3, [1, 2, 3, 4]);
    let sum = sum + small_sigma1(w3.swizzle([2, 3, 2, 3]));
    sum + u32x4::splat(0).shuffle(small_sigma1(sum), [0, 1, 4, 5])
}

// Words 4 * i to 4 * i + 3 of a block.
#[inline(always)]
fn four_words(block: &[u8; 64], i: usize) -> u32x4
    requires { i < 4 }
    ensures { result ≡ take 4 (drop (4 * i) (block_words block.now)) }
{
    let (words, _) = block.as_chunks::<4>();
    u32x4::from_array([
        u32::from_be_bytes(words[4 * i]),
        u32::from_be_bytes(words[4 * i + 1]),
        u32::from_be_bytes(words[4 * i + 2]),
        u32::from_be_bytes(words[4 * i + 3]),
    ])
}

// Sixteen words of the schedule in a row, on which the words after them depend.
#[derive(Clone, Copy)]
pub(crate) struct Window {
    pub(crate) w0: u32x4,
    pub(crate) w1: u32x4,
    pub(crate) w2: u32x4,
    pub(crate) w3: u32x4,
}

impl Window {
    // The words of a block.
    #[inline(always)]
    pub(crate) fn of(block: &[u8; 64]) -> Window
        ensures { words_of result ≡ block_words block.now }
    {
        Window {
            w0: four_words(block, 0),
            w1: four_words(block, 1),
            w2: four_words(block, 2),
            w3: four_words(block, 3),
        }
    }

    // The window four words later.
    #[inline(always)]
    pub(crate) fn later(self) -> Window
        ensures words { words_of result ≡ slide (slide (slide (slide (words_of self)))) }
        ensures kept { (result.w0 ≡ self.w1) × (result.w1 ≡ self.w2) × (result.w2 ≡ self.w3) }
    {
        Window {
            w0: self.w1,
            w1: self.w2,
            w2: self.w3,
            w3: next_four(self.w0, self.w1, self.w2, self.w3),
        }
    }
}
