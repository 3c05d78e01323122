// Devices of 512-byte blocks that nobody has to trust, and the layers that are piled on them.
#![tactic(auto)]

mod blocks;
pub mod cache;
mod checks;
pub mod crooked;
pub mod device;
pub mod either;
pub mod fault;
mod lines;
pub mod memory;
pub mod mirror;
pub mod offset;
pub mod piles;
pub mod sealed;
pub mod source;
