// The hash tree over the blocks of a volume: its layout, and the code that makes it.
#![tactic(auto)]

pub mod contents;
pub mod layout;
