// Small piles over memories. What is expected was worked out by hand from what each layer is said to do.
use device::cache::Cache;
use device::crooked::{Crooked, Listed, Manner};
use device::device::Device;
use device::either::Either;
use device::fault::{Cause, Fault};
use device::memory::Memory;
use device::mirror::Mirror;
use device::offset::Offset;
use device::sealed::Sealed;
use device::source::Source;
use std::test::Fail;

type Pair<'a> = Mirror<Memory<'a>, Memory<'a>>;

fn pair<'a>(first: &'a mut [u8], second: &'a mut [u8]) -> Pair<'a> {
    Mirror::new(Memory::new(first), Memory::new(second))
}

fn refusal(cause: Cause, place: usize, climbed: u8) -> Result<(), Fault> {
    Err(Fault {
        cause,
        place,
        climbed,
    })
}

#[test]
fn numbers_of_causes(rt: HostRuntime) {
    assert_eq!(rt; Cause::PastEnd.number(), 1);
    assert_eq!(rt; Cause::PastWays.number(), 2);
    assert_eq!(rt; Cause::Medium.number(), 3);
}

// Five ways and four are more than a source may have, so that no block is left.
#[test]
fn mirror_of_too_many_ways(rt: HostRuntime) {
    let [mut a, mut b, mut c, mut d, mut e] = [[7; 1024]; 5];
    let five = Mirror::new(
        Mirror::new(pair(&mut a, &mut b), pair(&mut c, &mut d)),
        Memory::new(&mut e),
    );
    let [mut f, mut g, mut h, mut i] = [[7; 1024]; 4];
    let four = Mirror::new(pair(&mut f, &mut g), pair(&mut h, &mut i));
    assert_eq!(rt; (five.blocks(), five.ways()), (2, 5));
    assert_eq!(rt; (four.blocks(), four.ways()), (2, 4));
    let mut nine = Mirror::new(five, four);
    assert_eq!(rt; (nine.blocks(), nine.ways()), (0, 8));
    let mut area = [7; 512];
    assert_eq!(rt; nine.read(0, 0, &mut area), refusal(Cause::PastEnd, 0, 0));
    assert_eq!(rt; area, [0; 512]);
    assert_eq!(rt; nine.write(0, &[9; 512]), refusal(Cause::PastEnd, 0, 0));
}

// Five ways and three are just as many as a source may have: the first's, then the second's.
#[test]
fn mirror_of_eight_ways(rt: HostRuntime) {
    let (mut a, mut b, mut c, mut d) = ([0; 1024], [1; 1024], [2; 1024], [3; 1024]);
    let (mut e, mut f, mut g, mut h) = ([4; 1024], [5; 1536], [6; 1536], [7; 1536]);
    let five = Mirror::new(
        Mirror::new(pair(&mut a, &mut b), pair(&mut c, &mut d)),
        Memory::new(&mut e),
    );
    let three = Mirror::new(Memory::new(&mut f), pair(&mut g, &mut h));
    let mut eight = Mirror::new(five, three);
    assert_eq!(rt; (eight.blocks(), eight.ways()), (2, 8));
    assert_eq!(rt; eight.write(1, &[9; 512]), Ok(()));
    let mut area = [7; 512];
    for (way, byte) in (0..8u8).enumerate() {
        assert_eq!(rt; eight.read(way, 0, &mut area), Ok(()));
        assert_eq!(rt; area, [byte; 512], "block 0 of way {way}");
        assert_eq!(rt; eight.read(way, 1, &mut area), Ok(()));
        assert_eq!(rt; area, [9; 512], "block 1 of way {way}");
    }
    assert_eq!(rt; eight.read(8, 1, &mut area), refusal(Cause::PastWays, 8, 0));
}

#[test]
fn offset_counts(rt: HostRuntime) {
    let bytes = [7; 4200];
    // Blocks below, start, count, and the blocks that there are then
    let table = [
        (8, 5, 10, 3),
        (8, 5, 3, 3),
        (8, 5, 2, 2),
        (8, 8, 1, 0),
        (8, 0, 10, 8),
        (5, 5, 10, 0),
        (4, 5, 10, 0),
        (8, usize::MAX, usize::MAX, 0),
    ];
    for (below, start, count, blocks) in table {
        let source = Offset::new(start, count, Offset::new(0, below, Sealed::new(&bytes)));
        assert_eq!(rt;
            (source.blocks(), source.ways()),
            (blocks, 1),
            "{count} from {start} of {below}"
        );
    }
}

#[test]
fn offset_blocks(rt: HostRuntime) {
    let mut card = [
        [0; 512], [1; 512], [2; 512], [3; 512], [4; 512], [5; 512], [6; 512], [7; 512],
    ];
    {
        let mut offset = Offset::new(5, 10, Memory::new(card.as_flattened_mut()));
        let mut area = [9; 512];
        for (number, byte) in (5..8u8).enumerate() {
            assert_eq!(rt; offset.read(0, number, &mut area), Ok(()));
            assert_eq!(rt; area, [byte; 512]);
        }
        assert_eq!(rt; offset.read(0, 3, &mut area), refusal(Cause::PastEnd, 3, 0));
        assert_eq!(rt; area, [0; 512]);
        assert_eq!(rt; offset.write(1, &[20; 512]), Ok(()));
        assert_eq!(rt; offset.write(3, &[21; 512]), refusal(Cause::PastEnd, 3, 0));
    }
    for (block, byte) in card.iter().zip([0, 1, 2, 3, 4, 5, 20, 7]) {
        assert_eq!(rt; block, &[byte; 512]);
    }
}

// Eight blocks fill the cache from block 8 down to block 1, and a ninth evicts the one that was written least; of equals, the lowest.
#[test]
fn evicted_block(rt: HostRuntime) {
    // How often block 1 is written, how often each of blocks 2 to 8, and the block that block 9 evicts
    let table = [
        (1, 1, 1),
        (2, 1, 2),
        (2, 2, 1),
        (254, 255, 1),
        (255, 254, 2),
        (255, 255, 1),
        // Counts stop at 255.
        (300, 255, 1),
    ];
    for (times, others, evicted) in table {
        let mut card = [[0; 512]; 16];
        {
            let mut cache = Cache::new(Memory::new(card.as_flattened_mut()));
            for byte in (1..9u8).rev() {
                for _ in 0..if byte == 1 { times } else { others } {
                    assert_eq!(rt; cache.write(usize::from(byte), &[byte; 512]), Ok(()));
                }
            }
            assert_eq!(rt; cache.write(9, &[9; 512]), Ok(()));
        }
        for (block, byte) in card.iter().zip(0..16u8) {
            let expected = if byte == evicted { byte } else { 0 };
            assert_eq!(rt;
                block,
                &[expected; 512],
                "block {byte} where block {evicted} is evicted"
            );
        }
    }
}

#[test]
fn settled_blocks(rt: HostRuntime) {
    let mut card = [[0; 512]; 4];
    {
        let mut cache = Cache::new(Memory::new(card.as_flattened_mut()));
        let mut area = [7; 512];
        assert_eq!(rt; cache.write(2, &[1; 512]), Ok(()));
        assert_eq!(rt; cache.write(0, &[3; 512]), Ok(()));
        assert_eq!(rt; cache.write(2, &[2; 512]), Ok(()));
        assert_eq!(rt; cache.read(0, 2, &mut area), Ok(()));
        assert_eq!(rt; area, [2; 512]);
        assert!(rt; cache.settle());
        assert_eq!(rt; cache.write(1, &[4; 512]), Ok(()));
    }
    // The last write is held, and lost with the cache.
    for (block, byte) in card.iter().zip([3, 0, 2, 0]) {
        assert_eq!(rt; block, &[byte; 512]);
    }
}

// The medium's fault climbs four layers; any other starts at the top.
#[test]
fn faults_through_four_layers(rt: HostRuntime) {
    let (mut first, mut second) = ([[5; 512]; 12], [[6; 512]; 9]);
    let listed = [Listed {
        block: 8,
        manner: Manner::Refuses,
    }];
    let crooked = Crooked::new(&listed, Memory::new(first.as_flattened_mut()));
    let mirror = Mirror::new(
        Offset::new(2, 20, crooked),
        Memory::new(second.as_flattened_mut()),
    );
    let mut pile = Cache::new(Offset::new(5, 20, mirror));
    assert_eq!(rt; (pile.blocks(), pile.ways()), (4, 2));
    let table = [
        (0, 0, Ok(()), 5),
        (0, 1, refusal(Cause::Medium, 8, 4), 0),
        (1, 1, Ok(()), 6),
        (0, 4, refusal(Cause::PastEnd, 4, 0), 0),
        (2, 1, refusal(Cause::PastWays, 2, 0), 0),
        // The number is looked at before the way.
        (2, 4, refusal(Cause::PastEnd, 4, 0), 0),
    ];
    for (way, number, answer, byte) in table {
        let mut area = [7; 512];
        assert_eq!(rt; pile.read(way, number, &mut area), answer);
        assert_eq!(rt; area, [byte; 512], "block {number} of way {way}");
    }
    assert_eq!(rt; pile.write(4, &[9; 512]), refusal(Cause::PastEnd, 4, 0));
    assert_eq!(rt; pile.write(1, &[9; 512]), Ok(()));
}

// Where both refuse, the fault is the first's.
#[test]
fn mirror_with_refusing_cards(rt: HostRuntime) {
    let (mut first, mut second) = ([[1; 512]; 4], [[2; 512]; 8]);
    let firsts = [1, 2].map(|block| Listed {
        block,
        manner: Manner::Refuses,
    });
    let seconds = [4, 5].map(|block| Listed {
        block,
        manner: Manner::Refuses,
    });
    {
        let mut mirror = Mirror::new(
            Crooked::new(&firsts, Memory::new(first.as_flattened_mut())),
            Offset::new(
                2,
                4,
                Crooked::new(&seconds, Memory::new(second.as_flattened_mut())),
            ),
        );
        assert_eq!(rt; mirror.write(0, &[9; 512]), Ok(()));
        assert_eq!(rt; mirror.write(1, &[9; 512]), Ok(()));
        assert_eq!(rt; mirror.write(2, &[9; 512]), refusal(Cause::Medium, 2, 1));
        assert_eq!(rt; mirror.write(3, &[9; 512]), Ok(()));
        let mut area = [7; 512];
        assert_eq!(rt; mirror.read(0, 2, &mut area), refusal(Cause::Medium, 2, 1));
        assert_eq!(rt; mirror.read(1, 2, &mut area), refusal(Cause::Medium, 4, 2));
    }
    for (block, byte) in first.iter().zip([9, 1, 1, 9]) {
        assert_eq!(rt; block, &[byte; 512]);
    }
    for (block, byte) in second.iter().zip([2, 2, 9, 9, 2, 2, 2, 2]) {
        assert_eq!(rt; block, &[byte; 512]);
    }
}

// A card that behaves badly beside a good one, under a cache.
#[test]
fn crooked_card_beside_a_good_one(rt: HostRuntime) {
    let mut flipped = [8; 512];
    flipped[0] = 9;
    // What way 0 answers and has once block 1 is written and put back
    let table = [
        (Manner::Refuses, refusal(Cause::Medium, 1, 2), [0; 512]),
        (Manner::Flips, Ok(()), flipped),
        (Manner::Keeps, Ok(()), [1; 512]),
    ];
    for (manner, answer, block) in table {
        let (mut first, mut second) = ([[1; 512]; 2], [[2; 512]; 2]);
        let listed = [Listed { block: 1, manner }];
        let mut pile = Cache::new(Mirror::new(
            Crooked::new(&listed, Memory::new(first.as_flattened_mut())),
            Memory::new(second.as_flattened_mut()),
        ));
        assert_eq!(rt; pile.write(1, &[8; 512]), Ok(()));
        assert!(rt; pile.settle(), "{manner:?}");
        let mut area = [7; 512];
        assert_eq!(rt; pile.read(0, 1, &mut area), answer);
        assert_eq!(rt; area, block, "{manner:?}");
        assert_eq!(rt; pile.read(1, 1, &mut area), Ok(()));
        assert_eq!(rt; area, [8; 512], "{manner:?}");
    }
}

// With no good card beside it, what it refuses stays held.
#[test]
fn crooked_card_alone(rt: HostRuntime) {
    let mut card = [[1; 512]; 3];
    let listed = [Listed {
        block: 1,
        manner: Manner::Refuses,
    }];
    {
        let mut cache = Cache::new(Crooked::new(&listed, Memory::new(card.as_flattened_mut())));
        assert_eq!(rt; cache.write(1, &[8; 512]), Ok(()));
        assert_eq!(rt; cache.write(2, &[9; 512]), Ok(()));
        assert!(rt; !cache.settle());
        assert!(rt; !cache.settle());
        let mut area = [7; 512];
        assert_eq!(rt; cache.read(0, 1, &mut area), Ok(()));
        assert_eq!(rt; area, [8; 512]);
    }
    for (block, byte) in card.iter().zip([1, 1, 9]) {
        assert_eq!(rt; block, &[byte; 512]);
    }
}

// A block that is refused when it is evicted is dropped, and no settle tells of it.
#[test]
fn dropped_block(rt: HostRuntime) {
    let mut card = [[1; 512]; 9];
    let listed = [Listed {
        block: 0,
        manner: Manner::Refuses,
    }];
    let mut cache = Cache::new(Crooked::new(&listed, Memory::new(card.as_flattened_mut())));
    for number in 0..9 {
        assert_eq!(rt; cache.write(number, &[8; 512]), Ok(()));
    }
    assert!(rt; cache.settle());
    let mut area = [7; 512];
    assert_eq!(rt; cache.read(0, 0, &mut area), refusal(Cause::Medium, 0, 1));
    assert_eq!(rt; area, [0; 512]);
}

// Of two entries for one block the first counts, and an entry past the sixteenth counts for nothing.
#[test]
fn listed_blocks(rt: HostRuntime) {
    let mut listed = [Listed {
        block: 0,
        manner: Manner::Refuses,
    }; 17];
    listed[1].manner = Manner::Flips;
    listed[15].block = 1;
    listed[16].block = 2;
    let mut card = [[4; 512]; 3];
    let mut crooked = Crooked::new(&listed, Memory::new(card.as_flattened_mut()));
    let answers = [
        refusal(Cause::Medium, 0, 0),
        refusal(Cause::Medium, 1, 0),
        Ok(()),
    ];
    let mut area = [7; 512];
    for (number, answer) in answers.iter().enumerate() {
        assert_eq!(rt;
            crooked.read(0, number, &mut area),
            *answer,
            "block {number}"
        );
        assert_eq!(rt; crooked.write(number, &[5; 512]), *answer, "block {number}");
    }
}

#[test]
fn sealed_sources(rt: HostRuntime) {
    let (blocks, part) = ([[1; 512], [2; 512], [3; 512]], [4; 700]);
    let mut area = [7; 512];
    let mut sealed = Sealed::new(&part);
    assert_eq!(rt; (sealed.blocks(), sealed.ways()), (1, 1));
    assert_eq!(rt; sealed.read(0, 1, &mut area), refusal(Cause::PastEnd, 1, 0));
    assert_eq!(rt; area, [0; 512]);
    assert_eq!(rt; sealed.read(0, 0, &mut area), Ok(()));
    assert_eq!(rt; area, [4; 512]);
    let mut mirror = Mirror::new(
        Offset::new(2, 9, Sealed::new(blocks.as_flattened())),
        sealed,
    );
    for (way, byte) in [3, 4].iter().enumerate() {
        assert_eq!(rt; mirror.read(way, 0, &mut area), Ok(()));
        assert_eq!(rt; area, [*byte; 512]);
    }
}

fn chosen<'a>(
    listed: &'a [Listed],
    whole: bool,
    bytes: &'a mut [u8],
) -> Either<Crooked<'a, Memory<'a>>, Offset<Crooked<'a, Memory<'a>>>> {
    let crooked = Crooked::new(listed, Memory::new(bytes));
    if whole {
        Either::First(crooked)
    } else {
        Either::Second(Offset::new(1, 2, crooked))
    }
}

// A choice is no layer: it lifts no fault.
#[test]
fn chosen_device(rt: HostRuntime) {
    let listed = [Listed {
        block: 2,
        manner: Manner::Refuses,
    }];
    // Whether the whole card was chosen, the blocks that it has, the number of the bad block, and how often its fault climbs
    for (whole, blocks, bad, climbed) in [(true, 4, 2, 0), (false, 2, 1, 1)] {
        let mut card = [[6; 512]; 4];
        let mut device = chosen(&listed, whole, card.as_flattened_mut());
        assert_eq!(rt; (device.blocks(), device.ways()), (blocks, 1));
        let mut area = [7; 512];
        assert_eq!(rt;
            device.read(0, bad, &mut area),
            refusal(Cause::Medium, 2, climbed)
        );
        assert_eq!(rt; area, [0; 512]);
        assert_eq!(rt;
            device.write(bad, &[9; 512]),
            refusal(Cause::Medium, 2, climbed)
        );
        assert_eq!(rt; device.write(0, &[9; 512]), Ok(()));
        assert_eq!(rt; device.read(0, 0, &mut area), Ok(()));
        assert_eq!(rt; area, [9; 512]);
        assert_eq!(rt;
            device.read(0, blocks, &mut area),
            refusal(Cause::PastEnd, blocks, 0)
        );
        assert!(rt; device.settle());
    }
}
