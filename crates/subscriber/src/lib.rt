// The SIMs of a tray: one SIM as one 512-byte block and back, and the sheet that lists them. The SIM itself and its block stand in
// the crate `sim`, and why a sheet is refused in `sheet_error`; both are passed on here.
#![tactic(auto)]

pub mod block_count;

pub use sheet_error::cause;

mod fault;
mod item;
mod key;
mod number;
pub mod read;
mod reading;
pub mod sheet;
mod text;
pub mod tray;

pub use sim::Sim;
pub use sim::block::{decode, encode};
pub use sim::identity::Identity;
pub use sim::sequence::Sequence;
