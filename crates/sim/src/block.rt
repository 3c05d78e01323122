// A SIM as one block of 512 bytes, and back.
ghost use Rattle.std.specs.Prelude.{◌≡◌, IfSome, Some};
ghost use Rattle.sim.specs.Block.{sim_head, sim_block};

use crate::Sim;
use crate::identity::Identity;
use crate::sequence::Sequence;

// The first 32 bytes of a SIM's block: all that are not zero by rule. Each part is copied to its own place, since a block is made in
// fixed memory.
fn head(sim: &Sim) -> [u8; 32]
    ensures { result ≡ sim_head sim.now }
{
    let mut bytes = [0u8; 32];
    bytes[0..20].copy_from_slice(&sim.identity.padded_digits());
    bytes[20..24].copy_from_slice(&u32::from(sim.key).to_le_bytes());
    bytes[24..32].copy_from_slice(&sim.sequence.value.to_le_bytes());
    bytes
}

// The block of a SIM.
pub fn encode(sim: &Sim) -> [u8; 512]
    ensures { result ≡ sim_block sim.now }
{
    let mut block = [0u8; 512];
    block[0..32].copy_from_slice(&head(sim));
    block
}

// The SIM that stands in a block, if the block is the block of a SIM at all.
fn fields(block: &[u8; 512]) -> Option<Sim>
    ensures { (s : Sim) → sim_block s ≡ block.now → result ≡ Some s }
{
    let (digits, rest) = block.split_first_chunk::<20>()?;
    let (key, rest) = rest.split_first_chunk::<4>()?;
    let (sequence, _) = rest.split_first_chunk::<8>()?;
    Some(Sim {
        identity: Identity::from_padded(*digits)?,
        key: u16::try_from(u32::from_le_bytes(*key)).ok()?,
        sequence: Sequence::new(u64::from_le_bytes(*sequence))?,
    })
}

// The SIM whose block this is; `None` where it is the block of no SIM.
pub fn decode(block: &[u8; 512]) -> Option<Sim>
    ensures encodes { IfSome result (λ s. sim_block s ≡ block.now) }
    ensures finds { (s : Sim) → sim_block s ≡ block.now → result ≡ Some s }
{
    let sim = fields(block)?;
    if encode(&sim) == *block {
        Some(sim)
    } else {
        None
    }
}
