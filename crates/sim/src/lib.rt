// One SIM: who it is, and its 512-byte block.
#![tactic(auto)]

ghost use Rattle.std.specs.Prelude.{◌^◌, ◌<◌};

use crate::identity::Identity;
use crate::sequence::Sequence;

pub mod block;
pub mod identity;
pub mod sequence;

// A SIM: who it is, which key it has, and the next sequence number of that key.
#[derive(Clone, Copy, PartialEq, Eq, Debug)]
pub struct Sim {
    pub identity: Identity,
    pub key: u16,
    pub sequence: Sequence,
    ghost narrow: { key < 2 ^ 16 },
}
