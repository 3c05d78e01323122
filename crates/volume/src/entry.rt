// A list of calls, as it is carried out on a volume.
use crate::refusal::Refusal;

// A call of a volume. A number is that of a block, a place that of a slip in a pool: the slip that the call shows, and for begin where
// the new one goes.
#[derive(Clone, Copy, PartialEq, Eq, Debug)]
pub enum Call {
    Open,
    Begin { place: usize },
    Read { number: usize },
    Write { place: usize, number: usize },
    Keep { place: usize },
    Leave { place: usize },
    Shut,
}

// A call, with its areas and its answer.
#[derive(Drop)]
pub struct Entry {
    pub call: Call,
    // What is written, or where a read block goes. It may have any length, as the record area may.
    pub block: Vec<u8>,
    // The record area.
    pub log: Vec<u8>,
    // None where the call was not made: before the list is carried out; where the place that it names holds no slip to spend, or does not
    // exist; and for a begin whose place is taken, or does not exist.
    pub answer: Option<Result<(), Refusal>>,
}
