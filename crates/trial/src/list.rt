// The two lists of calls of a trial, and the blocks that came back.
ghost use Rattle.std.specs.Prelude.{◌≡◌, map, IfOk};
ghost use Rattle.trial.specs.Lists.{AreasWhole, asked, bare, blocks_read, read_list, write_list};

use std::alloc::{AllocError, Global};
use volume::entry::{Call, Entry};

// The bytes of a record area.
const RECORD: usize = 2048;

// The place of the slip: a trial holds one at a time.
const PLACE: usize = 0;

// A call that takes no areas.
fn bare(heap: Global, call: Call) -> Entry
    ensures { asked result ≡ bare call }
{
    Entry {
        call,
        block: Vec::new(heap),
        log: Vec::new(heap),
        answer: None,
    }
}

// A call with a record area, and this in its block area.
fn with_block(heap: Global, call: Call, block: &[u8; 512]) -> Result<Entry, AllocError>
    ensures { IfOk result (λ e. asked e ≡ (call, block.now, 2048)) }
{
    Ok(Entry {
        call,
        block: block.to_vec(heap)?,
        log: vec![in heap; 0u8; RECORD]?,
        answer: None,
    })
}

// Each of these blocks is written, from block 0 on, and all of them are kept.
pub(crate) fn writes(heap: Global, blocks: &[[u8; 512]]) -> Result<Vec<Entry>, AllocError>
    ensures { IfOk result (λ v. map asked v.items ≡ write_list blocks.now) }
{
    let mut list = Vec::new(heap);
    list.push(bare(heap, Call::Open))?;
    list.push(bare(heap, Call::Begin { place: PLACE }))?;
    for (number, block) in blocks.iter().enumerate() {
        let call = Call::Write {
            place: PLACE,
            number,
        };
        list.push(with_block(heap, call, block)?)?;
    }
    list.push(bare(heap, Call::Keep { place: PLACE }))?;
    list.push(bare(heap, Call::Shut))?;
    Ok(list)
}

// So many blocks are read, from block 0 on.
pub(crate) fn reads(heap: Global, blocks: usize) -> Result<Vec<Entry>, AllocError>
    ensures { IfOk result (λ v. map asked v.items ≡ read_list blocks) }
{
    let mut list = Vec::new(heap);
    list.push(bare(heap, Call::Open))?;
    for number in 0..blocks {
        list.push(with_block(heap, Call::Read { number }, &[0; 512])?)?;
    }
    list.push(bare(heap, Call::Shut))?;
    Ok(list)
}

// The blocks that the reads of a list left in their areas.
pub(crate) fn blocks_back(heap: Global, list: &[Entry]) -> Result<Vec<[u8; 512]>, AllocError>
    ensures { IfOk result (λ v. AreasWhole list.now → v.items ≡ blocks_read list.now) }
{
    let mut blocks = Vec::new(heap);
    for entry in list {
        if let Call::Read { number: _ } = entry.call {
            if let Some(block) = entry.block.as_slice().as_array::<512>() {
                blocks.push(*block)?;
            }
        }
    }
    Ok(blocks)
}
