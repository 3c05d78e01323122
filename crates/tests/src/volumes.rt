// What a volume answers. Numbers were worked out by hand from docs/VOLUME.md, docs/TREE.md and docs/DEVICES.md; roots and digests come from
// a Python script that lays the tree out by docs/TREE.md, with libsodium's SipHash and hashlib's SHA-256.
ghost use Rattle.std.specs.Prelude.{◌∷◌, replicate, refl};
ghost use Rattle.std.proofs.Common.{rules};
ghost use Rattle.digest.specs.CellLaw.{bytes_cell};
ghost use Rattle.digest.specs.SipHash.{bytes};

use device::cache::Cache;
use device::crooked::{Crooked, Listed, Manner};
use device::device::Device;
use device::fault::{Cause, Fault};
use device::memory::Memory;
use device::offset::Offset;
use device::sealed::Sealed;
use digest::hash::Hash;
use digest::sha256::sha256;
use digest::siphash::SipHash;
use geometry::Geometry;
use std::alloc::{AllocError, Global};
use std::process::Abort;
use std::test::Fail;
use tree::contents::Contents;
use volume::entry::{Call, Entry};
use volume::extract::{Pair, extract};
use volume::look::look;
use volume::refusal::{Failed, Refusal, Side};
use volume::register::Register;
use volume::slip::{Slip, Unspent};
use volume::volume::Volume;

const KEY: [u8; 16] = [0, 1, 2, 3, 4, 5, 6, 7, 8, 9, 10, 11, 12, 13, 14, 15];

#[test]
fn numbers_of_refusals(rt: HostRuntime) {
    let without = Failed {
        side: Side::Data,
        level: 0,
        block: 5,
        fault: None,
    };
    let with = Failed {
        side: Side::Tree,
        level: 2,
        block: 1,
        fault: Some(Fault {
            cause: Cause::Medium,
            place: 9,
            climbed: 4,
        }),
    };
    let table = [
        (Refusal::PastLast, 10, None),
        (Refusal::BlockArea, 11, None),
        (Refusal::RecordArea, 12, None),
        (Refusal::DataCount, 20, None),
        (Refusal::TreeCount, 21, None),
        (Refusal::NeverFormatted, 22, None),
        (Refusal::OtherCount, 23, None),
        (Refusal::OtherKind, 24, None),
        (Refusal::WrongParts, 25, None),
        (Refusal::Closed, 40, None),
        (Refusal::Opened, 41, None),
        (Refusal::SlipOut, 42, None),
        (Refusal::WrongSlip, 43, None),
        (Refusal::NotClear, 44, None),
        (Refusal::TreeBlock(with), 51, Some(with)),
        (Refusal::DataBlock(without), 52, Some(without)),
        (Refusal::Unwritten(with), 53, Some(with)),
    ];
    for (refusal, number, failed) in table {
        assert_eq!(rt; refusal.number(), number);
        assert_eq!(rt; refusal.failed(), failed, "{number}");
    }
    assert_eq!(rt; (Side::Data.number(), Side::Tree.number()), (1, 2));
    assert_eq!(rt; with.fault_numbers(), (3, 9, 4));
    assert_eq!(rt; without.fault_numbers(), (0, 0, 0));
}

#[test]
fn registers_from_parts(rt: HostRuntime) {
    let blank = Register::blank();
    let root = blank.root;
    assert_eq!(rt; (blank.blocks, blank.kind, root), (0, 0, [0; 32]));
    // Blocks, kind, and whether there is such a register
    let table = [
        (0, 1, false),
        (1, 0, false),
        (4097, 1, false),
        (1, 1, true),
        (1, 255, true),
        (4096, 1, true),
        (4096, 255, true),
    ];
    for (blocks, kind, there_is) in table {
        match Register::from_parts(blocks, kind, [6; 32]) {
            Ok(register) => {
                assert!(rt; there_is, "{blocks} of kind {kind}");
                let root = register.root;
                assert_eq!(rt;
                    (register.blocks, register.kind, root),
                    (blocks, kind, [6; 32])
                );
            }
            Err(refusal) => {
                assert!(rt; !there_is, "{blocks} of kind {kind}");
                assert_eq!(rt; refusal.number(), 25);
            }
        }
    }
}

// What a call is tried with, and what it has to leave.
#[derive(Clone, Copy)]
struct Row {
    call: Call,
    // The byte that fills the block area before, and the lengths of both areas. The record area is filled with 255.
    byte: u8,
    lengths: (usize, usize),
    // The number of the answer: 0 where it is accepted, and 255 where the call cannot be made.
    answer: u8,
    // What fills the block area afterwards, and the first part of the record.
    left: (u8, u8),
}

fn writing(place: usize, number: usize) -> Call {
    Call::Write { place, number }
}

// A call with areas of the right lengths, which leaves them as they are.
fn plain(call: Call, answer: u8) -> Row {
    Row {
        call,
        byte: 1,
        lengths: (512, 2048),
        answer,
        left: (1, 255),
    }
}

// A call whose areas have these lengths.
fn sized(call: Call, block: usize, log: usize, answer: u8) -> Row {
    Row {
        lengths: (block, log),
        ..plain(call, answer)
    }
}

// A read that leaves this byte in the whole block area and in the record.
fn read(number: usize, answer: u8, byte: u8) -> Row {
    Row {
        left: (byte, byte),
        ..plain(Call::Read { number }, answer)
    }
}

// A write of a block full of this byte, which leaves the first part of the record zero.
fn write(place: usize, number: usize, byte: u8, answer: u8) -> Row {
    Row {
        byte,
        left: (byte, 0),
        ..plain(writing(place, number), answer)
    }
}

fn entries_of(heap: Global, rows: &[Row]) -> Result<Vec<Entry>, AllocError> {
    let mut entries = vec![in heap]?;
    for row in rows {
        let (block, log) = row.lengths;
        entries.push(Entry {
            call: row.call,
            block: vec![in heap; row.byte; block]?,
            log: vec![in heap; 255; log]?,
            answer: None,
        })?;
    }
    Ok(entries)
}

// The number of an answer, and what it carries: side, level, block, and the three numbers of the fault.
fn numbers(answer: &Option<Result<(), Refusal>>) -> (u8, Option<[usize; 6]>) {
    match answer {
        None => (255, None),
        Some(Ok(())) => (0, None),
        Some(Err(refusal)) => (refusal.number(), refusal.failed().map(carried)),
    }
}

fn carried(failed: Failed) -> [usize; 6] {
    let (cause, place, climbed) = failed.fault_numbers();
    [
        usize::from(failed.side.number()),
        failed.level,
        failed.block,
        usize::from(cause),
        place,
        usize::from(climbed),
    ]
}

fn compare(rt: &impl Abort, entries: &[Entry], rows: &[Row]) {
    assert_eq!(rt; entries.len(), rows.len());
    for (at, (entry, row)) in entries.iter().zip(rows).enumerate() {
        let (number, _) = numbers(&entry.answer);
        assert_eq!(rt; number, row.answer, "the answer of row {at}");
        assert_eq!(rt; (entry.block.len(), entry.log.len()), row.lengths);
        let (block, log) = row.left;
        assert!(rt;
            entry.block.iter().all(|byte| *byte == block),
            "the block area of row {at}"
        );
        assert!(rt;
            entry.log.iter().take(512).all(|byte| *byte == log),
            "the record of row {at}"
        );
    }
}

fn expect_empty(rt: &impl Abort, place: Option<Slip>) {
    match place {
        None => {}
        Some(slip) => panic!(rt; "slip {} is left", slip.number()),
    }
}

// The calls of a volume of 17 blocks, whose tree has two levels.
fn story() -> [Row; 34] {
    let (left, right) = (0, 1);
    [
        plain(Call::Begin { place: left }, 40),
        plain(Call::Read { number: 0 }, 40),
        plain(Call::Shut, 40),
        plain(Call::Open, 0),
        plain(Call::Open, 41),
        plain(writing(left, 16), 255),
        plain(Call::Begin { place: left }, 0),
        plain(Call::Begin { place: left }, 255),
        plain(Call::Begin { place: right }, 42),
        plain(Call::Shut, 42),
        sized(writing(left, 16), 511, 2048, 11),
        sized(writing(left, 16), 512, 2047, 12),
        sized(writing(left, 17), 512, 2048, 10),
        sized(writing(left, 17), 511, 2047, 11),
        sized(Call::Read { number: 17 }, 513, 2049, 11),
        sized(Call::Read { number: 17 }, 512, 2049, 12),
        sized(Call::Read { number: 17 }, 512, 2048, 10),
        write(left, 16, 7, 0),
        read(16, 0, 7),
        read(15, 0, 0),
        plain(Call::Keep { place: left }, 0),
        plain(writing(left, 16), 255),
        plain(Call::Keep { place: right }, 255),
        plain(Call::Leave { place: left }, 255),
        plain(Call::Begin { place: right }, 0),
        write(right, 0, 9, 0),
        read(0, 0, 9),
        read(16, 0, 7),
        plain(Call::Leave { place: right }, 0),
        plain(Call::Read { number: 0 }, 40),
        // Block 0 was given up, but its tree blocks lie there, and the top one lies over every block.
        plain(Call::Open, 0),
        read(0, 51, 0),
        read(16, 51, 0),
        plain(Call::Shut, 0),
    ]
}

// The whole records of block 16 in the story, and what the refusal at the top of the tree carries.
fn compare_records(rt: &impl Abort, entries: &[Entry]) {
    // Row, and SHA-256 of the record: of a write over 17 blocks of zeros, and of a read when block 16 is full of 7
    let table = [
        (
            17,
            [
                70, 228, 143, 190, 36, 71, 151, 126, 200, 241, 171, 38, 208, 161, 123, 201, 215,
                157, 230, 187, 134, 49, 71, 241, 232, 181, 227, 176, 172, 45, 219, 64,
            ],
        ),
        (
            18,
            [
                180, 16, 64, 156, 237, 69, 61, 172, 0, 75, 116, 53, 94, 202, 164, 4, 152, 10, 255,
                20, 84, 1, 9, 137, 180, 5, 247, 54, 220, 33, 36, 167,
            ],
        ),
    ];
    for (at, digest) in table {
        let entry = entries.get(at).expect(rt, "a row is missing");
        assert_eq!(rt; sha256(&entry.log), digest, "the record of row {at}");
    }
    let entry = entries.get(31).expect(rt, "a row is missing");
    assert_eq!(rt; numbers(&entry.answer), (51, Some([2, 1, 0, 0, 0, 0])));
    assert!(rt; entry.log.iter().all(|byte| *byte == 0));
}

fn play_story<D: Device + Drop, T: Device + Drop>(
    rt: &impl Abort,
    heap: Global,
    store: D,
    tree: T,
) -> Result<(), Fail> {
    let rows = story();
    let mut entries = entries_of(heap, &rows)?;
    let mut volume = Volume::keyed(store, tree, KEY, 7);
    let mut register = Register::blank();
    assert_eq!(rt; volume.format(&mut register), Ok(()));
    let mut slips = [None, None];
    volume.replay(&mut register, &mut slips, &mut entries);
    let [left, right] = slips;
    expect_empty(rt, left);
    expect_empty(rt, right);
    compare(rt, &entries, &rows);
    compare_records(rt, &entries);
    // The root of 17 blocks, all zero but the last, which is full of 7.
    assert_eq!(rt; (register.blocks, register.kind), (17, 2));
    let (image, zeros) = register.root.split_at(8);
    assert_eq!(rt; image, [50, 51, 40, 98, 176, 190, 96, 124].as_slice());
    assert_eq!(rt; zeros, [0; 24].as_slice());
    Ok(())
}

#[test]
fn a_story(rt: HostRuntime) -> Result<(), Fail> {
    let (mut data, mut tree) = ([[3; 512]; 17], [[4; 512]; 3]);
    play_story(
        &rt,
        rt.alloc(),
        Memory::new(data.as_flattened_mut()),
        Memory::new(tree.as_flattened_mut()),
    )
}

// Tries the slip of another volume, which lies at the right place. It stays there each time.
fn slips_of_another() -> [Row; 12] {
    let (left, right) = (0, 1);
    [
        plain(writing(right, 0), 40),
        plain(Call::Keep { place: right }, 40),
        plain(Call::Open, 0),
        // None is out yet.
        plain(writing(right, 0), 43),
        plain(Call::Begin { place: right }, 255),
        plain(Call::Begin { place: left }, 0),
        // One is out, but not this one. It is looked at before the areas.
        sized(writing(right, 9), 511, 2047, 43),
        plain(Call::Keep { place: right }, 43),
        plain(Call::Leave { place: right }, 43),
        write(left, 0, 5, 0),
        plain(Call::Leave { place: left }, 0),
        plain(Call::Leave { place: right }, 40),
    ]
}

// Leaves a volume with its slip.
fn give_back<D: Device, T: Device>(
    rt: &impl Abort,
    volume: &mut Volume<D, T, SipHash>,
    slip: Option<Slip>,
) {
    match slip {
        None => panic!(rt; "no slip is left"),
        Some(slip) => match volume.leave(slip) {
            Ok(()) => {}
            Err(Unspent { refusal, slip }) => panic!(rt;
                "slip {} is not taken: {}",
                slip.number(),
                refusal.number()
            ),
        },
    }
}

fn try_slips<D: Device + Drop, T: Device + Drop>(
    rt: &impl Abort,
    heap: Global,
    (store, tree): (D, T),
    (other_store, other_tree): (D, T),
) -> Result<(), Fail> {
    let rows = slips_of_another();
    let mut entries = entries_of(heap, &rows)?;
    let mut volume = Volume::keyed(store, tree, KEY, 7);
    let mut other = Volume::keyed(other_store, other_tree, KEY, 8);
    let (mut register, mut other_register) = (Register::blank(), Register::blank());
    assert_eq!(rt; volume.format(&mut register), Ok(()));
    assert_eq!(rt; other.format(&mut other_register), Ok(()));
    assert_eq!(rt; other.open(&other_register), Ok(()));
    let right = match other.begin() {
        Ok(slip) => slip,
        Err(refusal) => panic!(rt; "no slip is given out: {}", refusal.number()),
    };
    assert_eq!(rt; right.number(), 8);
    let mut slips = [None, Some(right)];
    volume.replay(&mut register, &mut slips, &mut entries);
    let [left, right] = slips;
    expect_empty(rt, left);
    give_back(rt, &mut other, right);
    compare(rt, &entries, &rows);
    Ok(())
}

#[test]
fn slip_of_another_volume(rt: HostRuntime) -> Result<(), Fail> {
    let (mut data, mut tree) = ([3; 512], [4; 512]);
    let (mut other_data, mut other_tree) = ([3; 512], [4; 512]);
    try_slips(
        &rt,
        rt.alloc(),
        (Memory::new(&mut data), Memory::new(&mut tree)),
        (Memory::new(&mut other_data), Memory::new(&mut other_tree)),
    )
}

// A volume of 17 blocks is formatted on devices with other bytes.
fn formatted<D: Device + Drop, T: Device + Drop>(rt: &impl Abort, store: D, tree: T) -> Register {
    let mut volume = Volume::keyed(store, tree, KEY, 7);
    let mut register = Register::blank();
    assert_eq!(rt; volume.format(&mut register), Ok(()));
    register
}

fn format_answer<D: Device + Drop, T: Device + Drop>(store: D, tree: T) -> (u8, usize) {
    let mut volume = Volume::keyed(store, tree, KEY, 7);
    let mut register = Register::blank();
    let answer = volume.format(&mut register);
    let (number, _) = numbers(&Some(answer));
    (number, register.blocks)
}

#[test]
fn sizes_of_volumes(rt: HostRuntime) -> Result<(), Fail> {
    let mut data = vec![in rt.alloc(); 3; 4097 * 512]?;
    let mut tree = vec![in rt.alloc(); 4; 273 * 512]?;
    // Blocks of the data and of the tree device, the number of format's answer, and what the register then has for the number of blocks
    let table = [
        (0, 0, 20, 0),
        (1, 0, 21, 0),
        (1, 1, 0, 1),
        (4096, 272, 21, 0),
        (4096, 273, 0, 4096),
        (4097, 273, 20, 0),
    ];
    for (data_blocks, tree_blocks, answer, blocks) in table {
        let answered = format_answer(
            Offset::new(0, data_blocks, Memory::new(&mut data)),
            Offset::new(0, tree_blocks, Memory::new(&mut tree)),
        );
        assert_eq!(rt;
            answered,
            (answer, blocks),
            "{data_blocks} and {tree_blocks}"
        );
    }
    Ok(())
}

// The tree over 17 blocks of zeros is three blocks, and the tree device has one more.
#[test]
fn format_lays_out(rt: HostRuntime) {
    let (mut data, mut tree) = ([[3; 512]; 17], [[4; 512]; 4]);
    let register = formatted(
        &rt,
        Memory::new(data.as_flattened_mut()),
        Memory::new(tree.as_flattened_mut()),
    );
    for block in &data {
        assert_eq!(rt; block, &[0; 512]);
    }
    // SHA-256 of the three tree blocks
    assert_eq!(rt;
        sha256(tree[..3].as_flattened()),
        [
            184, 196, 13, 37, 58, 169, 112, 158, 84, 220, 68, 227, 155, 57, 110, 96, 79, 159, 202,
            209, 33, 104, 203, 69, 64, 152, 220, 94, 3, 50, 246, 174,
        ]
    );
    assert_eq!(rt; tree[3], [4; 512]);
    assert_eq!(rt; (register.blocks, register.kind), (17, 2));
    let (image, zeros) = register.root.split_at(8);
    assert_eq!(rt; image, [185, 2, 255, 52, 33, 35, 252, 243].as_slice());
    assert_eq!(rt; zeros, [0; 24].as_slice());
}

#[test]
fn look_reads(rt: HostRuntime) -> Result<(), Fail> {
    let (mut data, mut tree) = ([[3; 512]; 17], [[4; 512]; 3]);
    let good = formatted(
        &rt,
        Memory::new(data.as_flattened_mut()),
        Memory::new(tree.as_flattened_mut()),
    );
    // Blocks and kind of a register, blocks of the tree device, the number to look for, and the number of the answer
    let table = [
        (17, 2, 3, 16, 0),
        (17, 2, 3, 17, 10),
        (17, 1, 3, 16, 24),
        (16, 2, 3, 16, 23),
        (16, 1, 0, 16, 24),
        (17, 2, 2, 16, 21),
        (17, 2, 0, 17, 21),
    ];
    let hash = SipHash::new(KEY);
    for (blocks, kind, tree_blocks, number, answer) in table {
        let Ok(register) = Register::from_parts(blocks, kind, good.root) else {
            return Err(Fail::new("a register is refused"));
        };
        let (mut block, mut log) = ([1; 512], [255; 2048]);
        let looked = look(
            &mut Sealed::new(data.as_flattened()),
            &mut Offset::new(0, tree_blocks, Sealed::new(tree.as_flattened())),
            &hash,
            &register,
            number,
            &mut block,
            &mut log,
        );
        let (answered, _) = numbers(&Some(looked));
        assert_eq!(rt; answered, answer);
        assert_eq!(rt; block, [if answer == 0 { 0 } else { 1 }; 512]);
    }
    Ok(())
}

fn open_blank<D: Device + Drop, T: Device + Drop>(store: D, tree: T) -> Result<(), Refusal> {
    let mut volume = Volume::keyed(store, tree, KEY, 7);
    volume.open(&Register::blank())
}

// A register that was never formatted is looked at before its kind and the counts.
#[test]
fn never_formatted(rt: HostRuntime) {
    let (mut data, mut tree) = ([3; 512], [4; 512]);
    let opened = open_blank(Memory::new(&mut data), Memory::new(&mut tree));
    assert_eq!(rt; opened, Err(Refusal::NeverFormatted));
    let (mut block, mut log) = ([1; 511], [255; 2047]);
    let looked = look(
        &mut Sealed::new(&data),
        &mut Sealed::new(&tree),
        &SipHash::new(KEY),
        &Register::blank(),
        9,
        &mut block,
        &mut log,
    );
    assert_eq!(rt; looked, Err(Refusal::NeverFormatted));
}

// Data block 2 flips and data block 5 refuses; block 3 of the card that the tree lies on refuses, which is tree block 2, at level 0.
fn on_bad_blocks() -> [Row; 9] {
    let left = 0;
    [
        plain(Call::Open, 0),
        plain(Call::Begin { place: left }, 0),
        read(2, 52, 0),
        read(5, 52, 0),
        read(16, 51, 0),
        write(left, 16, 7, 51),
        write(left, 5, 7, 53),
        read(0, 0, 0),
        plain(Call::Keep { place: left }, 0),
    ]
}

// What these refusals carry: side, level, block, and cause, place and climbed of the fault.
const FAILURES: [Option<[usize; 6]>; 9] = [
    None,
    None,
    Some([1, 0, 2, 0, 0, 0]),
    Some([1, 0, 5, 3, 5, 0]),
    Some([2, 0, 2, 3, 3, 1]),
    Some([2, 0, 2, 3, 3, 1]),
    Some([1, 0, 5, 3, 5, 0]),
    None,
    None,
];

fn bad_blocks_over<D: Device + Drop, T: Device + Drop>(
    rt: &impl Abort,
    heap: Global,
    store: D,
    tree: T,
) -> Result<(), Fail> {
    let rows = on_bad_blocks();
    let mut entries = entries_of(heap, &rows)?;
    let mut volume = Volume::keyed(store, tree, KEY, 7);
    let mut register = Register::blank();
    assert_eq!(rt; volume.format(&mut register), Ok(()));
    let mut slips = [None, None];
    volume.replay(&mut register, &mut slips, &mut entries);
    let [left, right] = slips;
    expect_empty(rt, left);
    expect_empty(rt, right);
    compare(rt, &entries, &rows);
    for (entry, failure) in entries.iter().zip(FAILURES) {
        let (number, carried) = numbers(&entry.answer);
        assert_eq!(rt; carried, failure, "of the refusal {number}");
    }
    Ok(())
}

#[test]
fn bad_blocks(rt: HostRuntime) -> Result<(), Fail> {
    let (mut data, mut tree) = ([[0; 512]; 17], [[0; 512]; 4]);
    let on_data = [
        Listed {
            block: 2,
            manner: Manner::Flips,
        },
        Listed {
            block: 5,
            manner: Manner::Refuses,
        },
    ];
    let on_tree = [Listed {
        block: 3,
        manner: Manner::Refuses,
    }];
    bad_blocks_over(
        &rt,
        rt.alloc(),
        Crooked::new(&on_data, Memory::new(data.as_flattened_mut())),
        Offset::new(
            1,
            3,
            Crooked::new(&on_tree, Memory::new(tree.as_flattened_mut())),
        ),
    )
}

// A hash under which every block has one image.
struct Constant;

impl Hash for Constant {
    const KIND: u8 = 200;

    ghost KIND = { 200 };

    const LENGTH: usize = 1;

    ghost LENGTH = { 1 };

    ghost image = { λ h block. 5 ∷ replicate 31 0 };

    ghost numbered = { Prim.search rules };

    ghost sized = { Prim.search rules };

    ghost cell = { unfold bytes in λ h block. bytes_cell 1 31 5 refl };

    fn image_of(&self, _block: &[u8; 512]) -> [u8; 32] {
        let mut cell = [0; 32];
        cell[0] = 5;
        cell
    }
}

// The record of a path with one tree block.
fn record_of(block: &[u8; 512], tree_block: &[u8; 512]) -> [u8; 2048] {
    let mut log = [0; 2048];
    log[..512].copy_from_slice(block);
    log[512..1024].copy_from_slice(tree_block);
    log
}

// Three blocks of zeros have one tree block, with 5 at the front of its first three cells.
#[test]
fn extract_shows(rt: HostRuntime) -> Result<(), Fail> {
    let Some(geometry) = Geometry::new(3) else {
        return Err(Fail::new("3 is refused"));
    };
    let contents = Contents::zeros(rt.alloc(), geometry)?;
    let mut top = [0; 512];
    top[0] = 5;
    top[32] = 5;
    top[64] = 5;
    let (zeros, false_block) = ([0; 512], [6; 512]);
    // The number, the data block and the tree block of the record, and what is shown: the true and the recorded block
    let table = [
        (1, zeros, top, None),
        (
            1,
            false_block,
            top,
            Some(Pair {
                truth: zeros,
                recorded: false_block,
            }),
        ),
        // The tree block comes first.
        (
            1,
            false_block,
            zeros,
            Some(Pair {
                truth: top,
                recorded: zeros,
            }),
        ),
        (3, false_block, top, None),
    ];
    for (number, block, tree_block, shown) in table {
        let log = record_of(&block, &tree_block);
        assert_eq!(rt; extract(&Constant, &contents, number, &log), shown);
        assert_eq!(rt; extract(&Constant, &contents, number, &log[1..]), None);
    }
    Ok(())
}

// A cache over a card that refuses block 1 holds it back: neither format nor keep is accepted, and the slip is handed back.
fn hold_back<D: Device + Drop, T: Device + Drop>(
    rt: &impl Abort,
    heap: Global,
    store: D,
    tree: T,
) -> Result<(), Fail> {
    let left = 0;
    let rows = [
        plain(Call::Open, 0),
        plain(Call::Begin { place: left }, 0),
        plain(Call::Keep { place: left }, 44),
        plain(Call::Begin { place: left }, 255),
        // Block 1 is read from the cache.
        read(1, 0, 0),
        plain(Call::Leave { place: left }, 0),
    ];
    let mut entries = entries_of(heap, &rows)?;
    let mut volume = Volume::keyed(Cache::new(store), tree, KEY, 7);
    let mut register = Register::blank();
    assert_eq!(rt; volume.format(&mut register), Err(Refusal::NotClear));
    assert_eq!(rt; (register.blocks, register.kind), (0, 0));
    // The root of three blocks of zeros.
    let mut root = [0; 32];
    root[..8].copy_from_slice(&[243, 0, 173, 100, 186, 208, 216, 102]);
    let Ok(mut register) = Register::from_parts(3, 2, root) else {
        return Err(Fail::new("a register is refused"));
    };
    let mut slips = [None, None];
    volume.replay(&mut register, &mut slips, &mut entries);
    let [left, right] = slips;
    expect_empty(rt, left);
    expect_empty(rt, right);
    compare(rt, &entries, &rows);
    Ok(())
}

#[test]
fn held_back(rt: HostRuntime) -> Result<(), Fail> {
    let (mut data, mut tree) = ([[3; 512]; 3], [4; 512]);
    let listed = [Listed {
        block: 1,
        manner: Manner::Refuses,
    }];
    hold_back(
        &rt,
        rt.alloc(),
        Crooked::new(&listed, Memory::new(data.as_flattened_mut())),
        Memory::new(&mut tree),
    )
}
