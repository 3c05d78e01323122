// A block of zeros: what a format writes to every data block, and what a refused read leaves.
pub(crate) const ZERO_BLOCK: [u8; 512] = [0; 512];
