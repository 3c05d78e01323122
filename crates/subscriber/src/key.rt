// The salt or the key of a hash.
ghost use Rattle.std.specs.Prelude.{◌≡◌};
ghost use Rattle.subscriber.specs.Items.{key_in};

use crate::cause::Cause;
use hex::{FromHex, FromHexError};

// 16 bytes, written as 32 hexadecimal digits.
#[tactic(auto, using(crate::proofs::Keys::key_reads))]
pub(crate) fn hex_key(word: &[u8]) -> Result<[u8; 16], Cause>
    ensures { result ≡ key_in word.now }
{
    <[u8; 16]>::from_hex(word).map_err(|e| match e {
        FromHexError::InvalidHexCharacter { .. } => Cause::KeyDigit,
        _ => Cause::KeyLength,
    })
}
