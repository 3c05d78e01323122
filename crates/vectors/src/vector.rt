// A file of published vectors: a line is a message, in the words of its suite, a space, and the message's hash in hexadecimal.
ghost use Rattle.std.specs.Prelude.{◌≡◌, ℕ, List, IfOk, Decides, MatchOption};
ghost use Rattle.vectors.specs.Vectors.{Judged, Says, Tallies};

use crate::suite::{Suite, bytes_of};
use crate::tally::{Problem, Tally};
use std::alloc::{AllocError, Global};

// What one line says.
#[derive(Drop)]
struct Vector {
    message: Vec<u8>,
    hash: Vec<u8>,
}

// A line such as `1 fd67dc93c539f874`.
fn read(heap: Global, suite: Suite, line: &str) -> Result<Option<Vector>, AllocError>
    ensures { IfOk result (λ o. MatchOption o ((message hash : List ℕ) → Says suite line.now message hash → ⊥) (λ v. Says suite line.now v.message.items v.hash.items)) }
{
    let Some((message, hash)) = line.split_once(' ') else {
        return Ok(None);
    };
    let Some(message) = suite.message(heap, message)? else {
        return Ok(None);
    };
    let Some(hash) = bytes_of(heap, hash.as_bytes())? else {
        return Ok(None);
    };
    Ok(Some(Vector { message, hash }))
}

// What is wrong with a line, if anything is.
fn problem_of(heap: Global, suite: Suite, line: &str) -> Result<Option<Problem>, AllocError>
    ensures { IfOk result (λ o. Judged suite line.now o) }
{
    match read(heap, suite, line)? {
        None => Ok(Some(Problem::Unreadable)),
        Some(vector) => {
            if suite.agrees(&vector.message, &vector.hash) {
                Ok(None)
            } else {
                Ok(Some(Problem::Disagrees))
            }
        }
    }
}

// Tries every line of a suite's file but its comments.
pub(crate) fn tally(heap: Global, suite: Suite, text: &str) -> Result<Tally, AllocError>
    ensures { IfOk result (λ t. Tallies suite text.now t) }
{
    let mut tally = Tally::new();
    for (i, line) in text.lines().enumerate() {
        if line.starts_with('#') {
            continue;
        }
        tally.add(i + 1, problem_of(heap, suite, line)?);
    }
    Ok(tally)
}
