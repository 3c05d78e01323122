// SipHash-2-4 with its four words of state, and the hash of a block that it gives.
ghost use Rattle.std.specs.Prelude.{◌≡◌, ◌-◌, ◌%◌, ◌<◌, [], ◌∷◌, ◌++◌, length, replicate};
ghost use Rattle.std.proofs.Math.Path.{refl};
ghost use Rattle.digest.specs.SipHash.{SipRound, compress, finalize, initial, sip_cell, siphash_2_4, word};
ghost use Rattle.digest.specs.CellLaw.{bytes_cell};
ghost use Rattle.std.proofs.Common.{rules};

use crate::hash::Hash;

// v0 to v3 of the definition, passed by value so that they stay in registers.
#[derive(Clone, Copy)]
struct State {
    v0: u64,
    v1: u64,
    v2: u64,
    v3: u64,
}

impl State {
    // The state before the message.
    fn new(key: &[u8; 16]) -> State
        ensures { result ≡ initial key.now }
    {
        let (halves, _) = key.as_chunks::<8>();
        let k0 = word_of(halves[0]);
        let k1 = word_of(halves[1]);
        State {
            v0: k0 ^ 0x736f6d6570736575,
            v1: k1 ^ 0x646f72616e646f6d,
            v2: k0 ^ 0x6c7967656e657261,
            v3: k1 ^ 0x7465646279746573,
        }
    }

    // One SipRound.
    fn round(self) -> State
        ensures { result ≡ SipRound self }
    {
        let v0 = self.v0.wrapping_add(self.v1);
        let v1 = self.v1.rotate_left(13) ^ v0;
        let v0 = v0.rotate_left(32);
        let v2 = self.v2.wrapping_add(self.v3);
        let v3 = self.v3.rotate_left(16) ^ v2;
        let v0 = v0.wrapping_add(v3);
        let v3 = v3.rotate_left(21) ^ v0;
        let v2 = v2.wrapping_add(v1);
        let v1 = v1.rotate_left(17) ^ v2;
        let v2 = v2.rotate_left(32);
        State { v0, v1, v2, v3 }
    }

    // Takes in one word of the message.
    fn compress(self, m: u64) -> State
        ensures { result ≡ compress self m }
    {
        let mut s = self;
        s.v3 ^= m;
        s = s.round().round();
        s.v0 ^= m;
        s
    }

    // The hash, once every word is in.
    fn finish(self) -> u64
        ensures { result ≡ finalize self }
    {
        let mut s = self;
        s.v2 ^= 0xff;
        s = s.round().round().round().round();
        s.v0 ^ s.v1 ^ s.v2 ^ s.v3
    }
}

// The word of eight bytes, least significant first.
fn word_of(bytes: [u8; 8]) -> u64
    ensures { result ≡ word bytes }
{
    u64::from_le_bytes(bytes)
}

// The last word of a message of `len` bytes, of which `rest` fill no whole word.
fn last_word(rest: &[u8], len: usize) -> u64
    requires { length rest.now < 8 }
    ensures { result ≡ word (rest.now ++ replicate (7 - length rest.now) 0 ++ (len % 256) ∷ []) }
{
    let mut bytes = [0u8; 8];
    // Written into a fixed block, as every word is made without the heap.
    bytes[0..rest.len()].copy_from_slice(rest);
    // The cast is proved to lose nothing; a conversion that may fail would add a case that never comes.
    bytes[7] = (len % 256) as u8;
    word_of(bytes)
}

// SipHash-2-4 of any message.
pub fn siphash_2_4(key: &[u8; 16], message: &[u8]) -> u64
    ensures { result ≡ siphash_2_4 key.now message.now }
{
    let (chunks, rest) = message.as_chunks::<8>();
    let mut state = State::new(key);
    for chunk in chunks {
        state = state.compress(word_of(*chunk));
    }
    state.compress(last_word(rest, message.len())).finish()
}

// The hash of blocks by SipHash-2-4 under one key.
#[derive(Clone, Copy)]
pub struct SipHash {
    key: [u8; 16],
}

impl SipHash {
    // The hash under a key, whose first byte is the least significant of k0. The clauses give its kind and its length by number.
    pub fn new(key: [u8; 16]) -> SipHash
        ensures key { result.key ≡ key }
        ensures kind { ⟦<SipHash as Hash>⟧.KIND ≡ 2 }
        ensures length { ⟦<SipHash as Hash>⟧.LENGTH ≡ 8 }
    {
        SipHash { key }
    }
}

// The cell is the eight bytes of the hash, least significant first, and 24 zeros.
impl Hash for SipHash {
    const KIND: u8 = 2;

    ghost KIND = { 2 };

    const LENGTH: usize = 8;

    ghost LENGTH = { 8 };

    ghost image = { λ h block. sip_cell h.key block };

    ghost numbered = { Prim.search rules };

    ghost sized = { Prim.search rules };

    ghost cell = { unfold sip_cell in λ h block. bytes_cell 8 24 (siphash_2_4 h.key block) refl };

    fn image_of(&self, block: &[u8; 512]) -> [u8; 32] {
        // A fixed block, without the heap.
        let mut cell = [0u8; 32];
        cell[0..Self::LENGTH].copy_from_slice(&siphash_2_4(&self.key, block).to_le_bytes());
        cell
    }
}
