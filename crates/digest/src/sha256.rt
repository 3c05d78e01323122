// SHA-256 of any message, and the hash of blocks that it gives.
ghost use Rattle.std.specs.Prelude.{◌≡◌, ◌+◌, ◌*◌, ◌/◌, ◌%◌, ◌++◌, fold, length, take};
ghost use Rattle.digest.specs.CellLaw.{digest_cell};
ghost use Rattle.digest.specs.Roots.{Constants};
ghost use Rattle.digest.specs.Sha256.{cut, digest, hash_block, padding, salted_cell, sha256};
ghost use Rattle.std.proofs.Common.{rules};

use crate::hash::Hash;
use crate::variables::Variables;

// The hash value after some more blocks.
fn absorb(h: Variables, blocks: &[[u8; 64]]) -> Variables
    ensures { result ≡ fold hash_block h blocks.now }
{
    let mut h = h;
    for block in blocks {
        h = h.hash_block(block);
    }
    h
}

// The bytes after the whole blocks of a message of `len` bytes, with the padding: `end` bytes, one block or two.
fn pad(rest: &[u8], len: usize, end: usize) -> [u8; 128]
    requires rest { length rest.now ≡ len % 64 }
    requires end { end ≡ (length rest.now + 72) / 64 * 64 }
    ensures { take end result ≡ rest.now ++ padding len }
{
    let bits = (len as u64).wrapping_mul(8);
    let mut last = [0u8; 128];
    last[0..rest.len()].copy_from_slice(rest);
    last[rest.len()] = 0x80;
    last[end - 8..end].copy_from_slice(&bits.to_be_bytes());
    last
}

// The digest of a message of `len` bytes, from the hash value of its whole blocks and the bytes after them.
fn finish(h: Variables, rest: &[u8], len: usize) -> [u8; 32]
    requires { length rest.now ≡ len % 64 }
    ensures { result ≡ digest (fold hash_block h (cut (rest.now ++ padding len))) }
{
    let end = (rest.len() + 72) / 64 * 64;
    let last = pad(rest, len, end);
    let (blocks, _) = last[..end].as_chunks::<64>();
    absorb(h, blocks).digest()
}

// The digest of a message of `len` bytes, from the hash value of its first blocks and the bytes after those.
fn hash_rest(h: Variables, rest: &[u8], len: usize) -> [u8; 32]
    requires { length rest.now % 64 ≡ len % 64 }
    ensures { result ≡ digest (fold hash_block h (cut (rest.now ++ padding len))) }
{
    let (blocks, rest) = rest.as_chunks::<64>();
    finish(absorb(h, blocks), rest, len)
}

// SHA-256 of any message.
#[tactic(auto, using(crate::proofs::Roots::constants), unfolding(crate::specs::Sha256::sha256))]
pub fn sha256(message: &[u8]) -> [u8; 32]
    ensures value { result ≡ sha256 message.now }
    ensures constants { Constants }
{
    hash_rest(Variables::initial(), message, message.len())
}

// The hash of blocks by SHA-256 with one salt before each block.
#[derive(Clone, Copy)]
pub struct SaltedSha256 {
    salt: [u8; 16],
}

impl SaltedSha256 {
    // The hash after a salt. The clauses give its kind and its length by number.
    pub fn new(salt: [u8; 16]) -> SaltedSha256
        ensures salt { result.salt ≡ salt }
        ensures kind { ⟦<SaltedSha256 as Hash>⟧.KIND ≡ 1 }
        ensures length { ⟦<SaltedSha256 as Hash>⟧.LENGTH ≡ 32 }
    {
        SaltedSha256 { salt }
    }
}

// The cell is the whole digest. Only the first and the last of its nine blocks are put together, the one from the salt and the front of
// the block, the other with the padding; the others are read where they lie, and nothing is taken from the heap.
impl Hash for SaltedSha256 {
    const KIND: u8 = 1;

    ghost KIND = { 1 };

    const LENGTH: usize = 32;

    ghost LENGTH = { 32 };

    ghost image = { λ h block. salted_cell h.salt block };

    ghost numbered = { Prim.search rules };

    ghost sized = { Prim.search rules };

    ghost cell = { unfold salted_cell in λ h block. digest_cell (h.salt ++ block) };

    fn image_of(&self, block: &[u8; 512]) -> [u8; 32] {
        let mut first = [0u8; 64];
        first[0..16].copy_from_slice(&self.salt);
        first[16..64].copy_from_slice(&block[..48]);
        let h = Variables::initial().hash_block(&first);
        hash_rest(h, &block[48..], self.salt.len() + block.len())
    }
}
