// The volume: blocks that nobody has to trust, under a root that is trusted.
#![tactic(auto)]

pub mod cases;
mod checks;
pub mod entry;
pub mod extract;
mod format;
pub mod look;
mod present;
pub mod refusal;
pub mod register;
pub mod replay;
pub mod slip;
mod unnamed;
pub mod volume;
mod walk;
mod write;
mod zero;
