// What the benchmark calls from C: each export says what the function of the libraries that it calls says; one that makes a root also says which
// number C is told.
#![tactic(auto)]

ghost use Rattle.std.specs.Prelude.{◌≡◌, ℕ, List, IfOk};
ghost use Rattle.bench_c.specs.Made.{Copied, Rooted, Told};
ghost use Rattle.digest.specs.Sha256.{salted_cell, sha256};
ghost use Rattle.digest.specs.SipHash.{sip_cell, siphash_2_4};
ghost use Rattle.tree.specs.Layout.{root_of};

use digest::hash::Hash;
use digest::sha256::{SaltedSha256, sha256};
use digest::siphash::{SipHash, siphash_2_4};
use geometry::MOST;
use std::alloc::{AllocError, Global};
use tree::contents::Contents;
use tree::layout::Tree;

#[unsafe(no_mangle)]
pub extern "C" fn bench_sha256(message: &[u8], out: &mut [u8; 32])
    ensures { out.new ≡ sha256 message.now }
{
    *out = sha256(message);
}

#[unsafe(no_mangle)]
pub extern "C" fn bench_siphash_2_4(key: &[u8; 16], message: &[u8]) -> u64
    ensures { result ≡ siphash_2_4 key.now message.now }
{
    siphash_2_4(key, message)
}

#[unsafe(no_mangle)]
pub extern "C" fn bench_sha256_image(salt: &[u8; 16], block: &[u8; 512], out: &mut [u8; 32])
    ensures { out.new ≡ salted_cell salt.now block.now }
{
    *out = SaltedSha256::new(*salt).image_of(block);
}

#[unsafe(no_mangle)]
pub extern "C" fn bench_siphash_image(key: &[u8; 16], block: &[u8; 512], out: &mut [u8; 32])
    ensures { out.new ≡ sip_cell key.now block.now }
{
    *out = SipHash::new(*key).image_of(block);
}

// Why there is no root.
#[derive(Clone, Copy)]
enum Trouble {
    // No blocks, or more than a volume has.
    Count,
    Memory,
}

// A copy of the blocks.
fn copied(heap: Global, blocks: &[[u8; 512]]) -> Result<Contents, Trouble>
    ensures { Copied blocks.now result }
{
    if !(1..=MOST).contains(&blocks.len()) {
        return Err(Trouble::Count);
    }
    match Vec::from_slice(heap, blocks) {
        Ok(blocks) => Ok(Contents { blocks }),
        Err(_) => Err(Trouble::Memory),
    }
}

// The root of the tree over contents, if there is memory. The tree is made `times` times, so that the one copy that it is made over can
// be left out of account.
fn root<H: Hash>(
    heap: Global,
    hash: &H,
    contents: &Contents,
    times: usize,
) -> Result<[u8; 32], AllocError>
    ensures { IfOk result (λ r. r ≡ root_of (H.Hash.image hash.now) contents.now.blocks.items) }
{
    let mut root = Tree::over(heap, hash, contents)?.root;
    for _ in 1..times {
        root = Tree::over(heap, hash, contents)?.root;
    }
    Ok(root)
}

// The root of the tree over a copy of the blocks.
fn root_over<H: Hash>(
    heap: Global,
    hash: &H,
    blocks: &[[u8; 512]],
    times: usize,
) -> Result<[u8; 32], Trouble>
    ensures { Rooted (H.Hash.image hash.now) blocks.now result }
{
    let contents = copied(heap, blocks)?;
    match root(heap, hash, &contents, times) {
        Ok(root) => Ok(root),
        Err(_) => Err(Trouble::Memory),
    }
}

// Writes a root where there is one, and says what C is told.
fn put(out: &mut [u8; 32], root: Result<[u8; 32], Trouble>) -> u32
    ensures { (image : List ℕ → List ℕ) (blocks : List (List ℕ)) → Rooted image blocks root → Told image blocks out.old out.new result }
{
    match root {
        Ok(root) => {
            *out = root;
            0
        }
        Err(Trouble::Count) => 1,
        Err(Trouble::Memory) => 2,
    }
}

#[unsafe(no_mangle)]
pub extern "C" fn bench_sha256_root(
    heap: Global,
    salt: &[u8; 16],
    blocks: &[[u8; 512]],
    times: usize,
    out: &mut [u8; 32],
) -> u32
    ensures { Told (salted_cell salt.now) blocks.now out.old out.new result }
{
    put(
        out,
        root_over(heap, &SaltedSha256::new(*salt), blocks, times),
    )
}

#[unsafe(no_mangle)]
pub extern "C" fn bench_siphash_root(
    heap: Global,
    key: &[u8; 16],
    blocks: &[[u8; 512]],
    times: usize,
    out: &mut [u8; 32],
) -> u32
    ensures { Told (sip_cell key.now) blocks.now out.old out.new result }
{
    put(out, root_over(heap, &SipHash::new(*key), blocks, times))
}
