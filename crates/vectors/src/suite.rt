// The suites of vectors, one to a hash: where each stands, how its lines write a message, and the hash that it tries.
ghost use Rattle.std.specs.Prelude.{◌≡◌, List, ℕ, IfOk, Decides, MatchOption, is_some, vec_items};
ghost use Rattle.std.specs.Option.{option_map};
ghost use Rattle.vectors.specs.Hex.{unhex};
ghost use Rattle.vectors.specs.Suite.{Writes, counts, hash_of, spells};

use digest::sha256::sha256;
use digest::siphash::siphash_2_4;
use hex::decode_to_slice;
use std::alloc::{AllocError, Global};

// The key of every vector of SipHash.
const KEY: [u8; 16] = [0, 1, 2, 3, 4, 5, 6, 7, 8, 9, 10, 11, 12, 13, 14, 15];

#[derive(Clone, Copy)]
pub(crate) enum Suite {
    SipHash24,
    Sha256,
}

impl Suite {
    // The hash, as its authors name it.
    pub(crate) fn name(self) -> &'static str {
        match self {
            Suite::SipHash24 => "SipHash-2-4",
            Suite::Sha256 => "SHA-256",
        }
    }

    pub(crate) fn file(self) -> &'static str {
        match self {
            Suite::SipHash24 => "siphash24.txt",
            Suite::Sha256 => "sha256.txt",
        }
    }

    // The message that a word writes, if it writes one.
    pub(crate) fn message(self, heap: Global, word: &str) -> Result<Option<Vec<u8>>, AllocError>
        ensures { IfOk result (λ o. MatchOption o ((m : List ℕ) → Writes self word.now m → ⊥) (λ v. Writes self word.now v.items)) }
    {
        match self {
            Suite::SipHash24 => counted(heap, word),
            Suite::Sha256 => written(heap, word),
        }
    }

    // Whether these bytes are the hash of a message, as we compute it.
    pub(crate) fn agrees(self, message: &[u8], hash: &[u8]) -> bool
        ensures { Decides result (hash.now ≡ hash_of self message.now) }
    {
        match self {
            Suite::SipHash24 => hash == siphash_2_4(&KEY, message).to_le_bytes().as_slice(),
            Suite::Sha256 => hash == sha256(message).as_slice(),
        }
    }
}

// The message of SipHash that a length stands for: as many bytes 0, 1, 2 and so on.
fn counted(heap: Global, word: &str) -> Result<Option<Vec<u8>>, AllocError>
    ensures { IfOk result (λ o. MatchOption o ((m : List ℕ) → counts word.now m → ⊥) (λ v. counts word.now v.items)) }
{
    let Ok(length) = word.parse::<u8>() else {
        return Ok(None);
    };
    Ok(Some((0..length).collect(heap)?))
}

// The message of SHA-256 in hexadecimal, or `-` for the empty one.
fn written(heap: Global, word: &str) -> Result<Option<Vec<u8>>, AllocError>
    ensures { IfOk result (λ o. MatchOption o ((m : List ℕ) → spells word.now m → ⊥) (λ v. spells word.now v.items)) }
{
    if word == "-" {
        return Ok(Some(Vec::new(heap)));
    }
    bytes_of(heap, word.as_bytes())
}

// Whether a text writes bytes.
fn is_hex(text: &[u8]) -> bool
    ensures { result ≡ is_some (unhex text.now) }
{
    text.len() % 2 == 0 && text.iter().all(|b| b.is_ascii_hexdigit())
}

// The bytes that a text writes, two hexadecimal digits to a byte, if it writes any.
pub(crate) fn bytes_of(heap: Global, text: &[u8]) -> Result<Option<Vec<u8>>, AllocError>
    ensures { IfOk result (λ o. option_map vec_items o ≡ unhex text.now) }
{
    // A text that cannot be read takes no room, however long it is.
    if !is_hex(text) {
        return Ok(None);
    }
    let mut bytes = vec![in heap; 0u8; text.len() / 2]?;
    match decode_to_slice(text, bytes.as_mut_slice()) {
        Ok(()) => Ok(Some(bytes)),
        Err(_) => Ok(None),
    }
}
