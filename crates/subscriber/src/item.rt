// What one line of a sheet says.
ghost use Rattle.std.specs.Prelude.{◌≡◌};
ghost use Rattle.subscriber.specs.Items.{keyword_of, with_ok, identity_in, hash_in, sim_in, tray_is, hash_is, blocks_are, line_says};
ghost use Rattle.subscriber.specs.Plain.{plain};
ghost use Rattle.sheet_error.specs.declared.cause.Number.TheVariants as number;
ghost use Rattle.subscriber.specs.Number.{number_in};

use crate::block_count::BlockCount;
use crate::cause::{Cause, Keyword, Number};
use crate::key::hex_key;
use crate::number::number;
use crate::text::Words;
use crate::tray::{HashChoice, TrayNumber};
use sim::Sim;
use sim::identity::Identity;
use sim::sequence::Sequence;

// What a line says.
#[derive(Clone, Copy)]
pub(crate) enum Item {
    // A blank line or a comment.
    Nothing,
    Tray(TrayNumber),
    Hash(HashChoice),
    Blocks(BlockCount),
    Sim(Sim),
}

// The word that a line begins with.
fn keyword(word: &[u8]) -> Option<Keyword>
    ensures { result ≡ keyword_of word.now }
{
    match word {
        b"tray" => Some(Keyword::Tray),
        b"hash" => Some(Keyword::Hash),
        b"blocks" => Some(Keyword::Blocks),
        b"sim" => Some(Keyword::Sim),
        _ => None,
    }
}

// An identity, or what is wrong with it. The length is looked at here, since the causes of a sheet are not known to `sim`.
#[tactic(auto, unfolding(crate::specs::Items::identity_in, sim::specs::Identity::is_identity))]
fn identity(word: &[u8]) -> Result<Identity, Cause>
    ensures { with_ok (λ i. i.digits) result ≡ identity_in word.now }
{
    if !(6..=20).contains(&word.len()) {
        return Err(Cause::IdentityLength);
    }
    Identity::new(word).ok_or(Cause::IdentityDigit)
}

// What a line `tray` says. (`blocks_line` differs in the type that it makes, whose facts are proved where the value is made.)
fn tray_line(word: &[u8]) -> Result<Item, Cause>
    ensures { with_ok plain result ≡ with_ok tray_is (number_in number.Tray word.now) }
{
    let value = number(word, Number::Tray)? as u32;
    Ok(Item::Tray(TrayNumber { value }))
}

// What a line `hash` says: the hash of this name, with its salt or its key.
fn hash_line(name: &[u8], key: &[u8]) -> Result<Item, Cause>
    ensures { with_ok plain result ≡ with_ok hash_is (hash_in name.now key.now) }
{
    // By `==`, since after a `match` on these byte strings each of the four returns would be left to prove by hand.
    if name == b"sha256".as_slice() {
        let salt = hex_key(key)?;
        Ok(Item::Hash(HashChoice::Sha256 { salt }))
    } else if name == b"siphash".as_slice() {
        let key = hex_key(key)?;
        Ok(Item::Hash(HashChoice::SipHash { key }))
    } else {
        Err(Cause::UnknownHash)
    }
}

// What a line `blocks` says.
fn blocks_line(word: &[u8]) -> Result<Item, Cause>
    ensures { with_ok plain result ≡ with_ok blocks_are (number_in number.Blocks word.now) }
{
    let value = number(word, Number::Blocks)? as u16;
    Ok(Item::Blocks(BlockCount { value }))
}

// What a line `sim` says: its identity, its key index and its sequence number.
fn sim_line(digits: &[u8], key: &[u8], sequence: &[u8]) -> Result<Item, Cause>
    ensures { with_ok plain result ≡ sim_in digits.now key.now sequence.now }
{
    let identity = identity(digits)?;
    let key = number(key, Number::KeyIndex)? as u16;
    let value = number(sequence, Number::Sequence)?;
    Ok(Item::Sim(Sim {
        identity,
        key,
        sequence: Sequence { value },
    }))
}

// What a line says. The words after its keyword are counted by the pattern that they fit.
#[tactic(auto, unfolding(crate::specs::Items::line_says))]
pub(crate) fn read_line(line: &[u8]) -> Result<Item, Cause>
    ensures { with_ok plain result ≡ line_says line.now }
{
    if line.starts_with(b"#") {
        return Ok(Item::Nothing);
    }
    let mut words = Words { text: line };
    let Some(first) = words.next() else {
        return Ok(Item::Nothing);
    };
    let keyword = keyword(first).ok_or(Cause::UnknownWord)?;
    match (
        keyword,
        words.next(),
        words.next(),
        words.next(),
        words.next(),
    ) {
        (Keyword::Tray, Some(number), None, ..) => tray_line(number),
        (Keyword::Hash, Some(name), Some(key), None, ..) => hash_line(name, key),
        (Keyword::Blocks, Some(number), None, ..) => blocks_line(number),
        (Keyword::Sim, Some(identity), Some(key), Some(sequence), None) => {
            sim_line(identity, key, sequence)
        }
        (keyword, ..) => Err(Cause::WordCount(keyword)),
    }
}
