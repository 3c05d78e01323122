// The blocks of both bottoms: whole 512-byte parts of bytes, at most 65,536 of them.
ghost use Rattle.std.specs.Prelude.{◌≡◌, ◌<◌};
ghost use Rattle.device.specs.Memory.{part, parts};

use crate::source::MOST_BLOCKS;

pub(crate) fn count_blocks(bytes: &[u8]) -> usize
    ensures { result ≡ parts bytes.now }
{
    (bytes.len() / 512).min(MOST_BLOCKS)
}

#[tactic(auto, unfolding(crate::specs::Memory::part))]
pub(crate) fn copy_block(bytes: &[u8], number: usize, area: &mut [u8; 512])
    requires { number < parts bytes.now }
    ensures { area.new ≡ part bytes.now number }
{
    let start = 512 * number;
    area.copy_from_slice(&bytes[start..start + 512]);
}
