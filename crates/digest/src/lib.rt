// Hashes that give every 512-byte block one 32-byte cell: SHA-256 after a salt, and SipHash-2-4 under a key.
#![tactic(auto)]

pub mod hash;
mod rounds;
mod schedule;
pub mod sha256;
pub mod siphash;
mod variables;
