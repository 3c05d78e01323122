// Why the sheet of a tray is refused, and in which words.
#![tactic(auto)]

pub mod cause;
pub mod shown;
