// What a drill puts on its cards.
use std::alloc::Global;
use tree::contents::Contents;

// A tray's number, its hash, the blocks of its SIMs, and all blocks of its volume.
#[derive(Drop)]
pub(crate) struct Job<'a, H> {
    pub(crate) heap: Global,
    pub(crate) number: u32,
    pub(crate) hash: H,
    pub(crate) sims: &'a [[u8; 512]],
    pub(crate) contents: &'a Contents,
}
