// A box and what is done with it.
ghost use Rattle.bench.specs.Beside.{IsBlock};
ghost use Rattle.volume.specs.Replay.{Balance};
ghost use Rattle.volume.specs.View.{base, view};

use crate::line::Parts;
use crate::pile::Pile;
use crate::report::{Answer, Digest, add_areas, add_entry, add_register};
use crate::script::{Item, Look, Trial};
use crate::setup::{Bottoms, Half, HashChoice, Setup};
use crate::spend::{PLACES, report_left, spend_all};
use crate::stranger::beside;
use device::crooked::Crooked;
use device::device::Device;
use device::memory::Memory;
use device::sealed::Sealed;
use device::source::Source;
use digest::hash::Hash;
use digest::sha256::SaltedSha256;
use digest::siphash::SipHash;
use std::alloc::{AllocError, Global};
use volume::look::look;
use volume::refusal::Refusal;
use volume::register::Register;
use volume::slip::Slip;
use volume::volume::Volume;

type Region = Vec<[u8; 512]>;

// All cards of a box, in memory.
#[derive(Drop)]
struct Cards {
    store: Bottoms<Region>,
    tree: Bottoms<Region>,
}

// The register of the box at hand, and all that is told so far.
#[derive(Drop)]
struct Bench {
    register: Register,
    report: String,
}

fn regions(heap: Global, half: &Half) -> Result<Bottoms<Region>, AllocError> {
    Ok(Bottoms {
        first: half.cards.first.region(heap)?,
        second: half.cards.second.region(heap)?,
        third: half.cards.third.region(heap)?,
    })
}

fn lent(regions: &mut Bottoms<Region>) -> Bottoms<Memory<'_>> {
    Bottoms {
        first: Memory::new(regions.first.as_flattened_mut()),
        second: Memory::new(regions.second.as_flattened_mut()),
        third: Memory::new(regions.third.as_flattened_mut()),
    }
}

fn sealed(regions: &Bottoms<Region>) -> Bottoms<Sealed<'_>> {
    Bottoms {
        first: Sealed::new(regions.first.as_flattened()),
        second: Sealed::new(regions.second.as_flattened()),
        third: Sealed::new(regions.third.as_flattened()),
    }
}

// A line for each card that has blocks.
fn report_cards(
    side: &str,
    regions: &Bottoms<Region>,
    report: &mut String,
) -> Result<(), AllocError> {
    report_card(side, 1, &regions.first, report)?;
    report_card(side, 2, &regions.second, report)?;
    report_card(side, 3, &regions.third, report)
}

fn report_card(
    side: &str,
    number: u8,
    region: &[[u8; 512]],
    report: &mut String,
) -> Result<(), AllocError> {
    if region.is_empty() {
        return Ok(());
    }
    let digest = Digest::of(region.as_flattened());
    writeln!(report, "card {side} {number}: {digest}")
}

// What stands on one side of a box.
fn pile_over<A: Source + Drop>(half: &Half, lent: Bottoms<A>) -> Pile<Crooked<'_, A>> {
    half.order.over(half.crooked(lent))
}

fn add_counts<S: Source>(name: &str, source: &S, report: &mut String) -> Result<(), AllocError> {
    let blocks = source.blocks();
    let ways = source.ways();
    write!(report, "{name} {blocks} blocks, {ways} ways")
}

fn report_box<S: Source, U: Source>(
    number: u32,
    store: &S,
    tree: &U,
    report: &mut String,
) -> Result<(), AllocError> {
    write!(report, "box {number}: ")?;
    add_counts("data", store, report)?;
    write!(report, "; ")?;
    add_counts("tree", tree, report)?;
    writeln!(report)
}

fn play_item<D: Device, T: Device, H: Hash>(
    volume: &mut Volume<D, T, H>,
    pool: &mut [Option<Slip>; PLACES],
    item: &mut Item,
    bench: &mut Bench,
) -> Result<(), AllocError>
    ensures { let view = view (base D.Source.own T.Source.own D.Device.own T.Device.own H.Hash.own) in Balance (view volume.old) pool.old pool.new (view volume.new) }
{
    let Bench { register, report } = bench;
    match item {
        Item::Format => {
            let answer = volume.format(register);
            writeln!(report, "format: {}", Answer(answer))?;
        }
        Item::Register(parts) => {
            let answer = set(register, *parts);
            writeln!(report, "register: {}", Answer(answer))?;
        }
        Item::Calls(list) => {
            volume.replay(register, pool, list);
            for entry in list.iter() {
                add_entry(entry, report)?;
            }
        }
    }
    add_register(register, report)
}

// Sets the register, if any may have these parts.
fn set(register: &mut Register, parts: Parts) -> Result<(), Refusal> {
    let Parts { blocks, kind, root } = parts;
    *register = Register::from_parts(blocks, kind, root)?;
    Ok(())
}

fn play_items<D: Device, T: Device, H: Hash>(
    volume: &mut Volume<D, T, H>,
    pool: &mut [Option<Slip>; PLACES],
    items: &mut [Item],
    bench: &mut Bench,
) -> Result<(), AllocError>
    ensures { let view = view (base D.Source.own T.Source.own D.Device.own T.Device.own H.Hash.own) in Balance (view volume.old) pool.old pool.new (view volume.new) }
{
    for item in items.iter_mut() {
        play_item(volume, pool, item, bench)?;
    }
    report_left(pool, &mut bench.report)
}

// Plays all items on a volume over these devices. Slips may be out until the end, so nothing is given up before they are spent.
fn play_over<D: Device + Drop, T: Device + Drop, E: Device + Drop, H: Hash + Drop>(
    setup: &Setup,
    items: &mut [Item],
    hash: H,
    devices: (D, T),
    ground: (E, E),
    bench: &mut Bench,
) -> Result<(), AllocError>
    requires store { IsBlock (E.Source.meaning ground.0) }
    requires tree { IsBlock (E.Source.meaning ground.1) }
{
    let (store, tree) = devices;
    report_box(setup.number, &store, &tree, &mut bench.report)?;
    let mut volume = Volume::new(store, tree, hash, setup.number);
    let (mut companion, mut pool) = beside(ground, setup.stranger);
    let played = play_items(&mut volume, &mut pool, items, bench);
    spend_all(&mut volume, &mut companion, pool);
    played
}

// The cards are of any type, since the check does not cover a type argument that has both a cache and a `Memory` in it. Each side's
// pile is made in a function of its own: the check does not cover two of them in one, as their types are long.
fn play_on_tree<D: Device + Drop, A: Device + Drop, H: Hash + Drop>(
    setup: &Setup,
    items: &mut [Item],
    hash: H,
    store: D,
    tree: Bottoms<A>,
    ground: (A, A),
    bench: &mut Bench,
) -> Result<(), AllocError>
    requires store { IsBlock (A.Source.meaning ground.0) }
    requires tree { IsBlock (A.Source.meaning ground.1) }
{
    let tree = pile_over(&setup.tree, tree);
    play_over(setup, items, hash, (store, tree), ground, bench)
}

fn play_on<A: Device + Drop, H: Hash + Drop>(
    trial: &mut Trial,
    hash: H,
    store: Bottoms<A>,
    tree: Bottoms<A>,
    ground: (A, A),
    bench: &mut Bench,
) -> Result<(), AllocError>
    requires store { IsBlock (A.Source.meaning ground.0) }
    requires tree { IsBlock (A.Source.meaning ground.1) }
{
    let Trial {
        setup,
        items,
        looks: _,
    } = trial;
    let store = pile_over(&setup.store, store);
    play_on_tree(setup, items, hash, store, tree, ground, bench)
}

fn play_cards<H: Hash + Drop>(
    trial: &mut Trial,
    hash: H,
    cards: &mut Cards,
    bench: &mut Bench,
) -> Result<(), AllocError> {
    let mut store_beside = [0; 512];
    let mut tree_beside = [0; 512];
    let ground = (
        Memory::new(&mut store_beside),
        Memory::new(&mut tree_beside),
    );
    let store = lent(&mut cards.store);
    let tree = lent(&mut cards.tree);
    play_on(trial, hash, store, tree, ground, bench)
}

// Looks at the cards through piles that are made anew, so that no cache holds anything.
fn look_on<A: Source + Drop, H: Hash>(
    trial: &mut Trial,
    hash: &H,
    store: Bottoms<A>,
    tree: Bottoms<A>,
    bench: &mut Bench,
) -> Result<(), AllocError> {
    let Trial {
        setup,
        items: _,
        looks,
    } = trial;
    let mut store = pile_over(&setup.store, store);
    let mut tree = pile_over(&setup.tree, tree);
    let Bench { register, report } = bench;
    for entry in looks.iter_mut() {
        let Look { number, block, log } = entry;
        let answer = look(&mut store, &mut tree, hash, register, *number, block, log);
        write!(report, "look {number}: {}", Answer(answer))?;
        add_areas(block, log, report)?;
    }
    Ok(())
}

fn play_under<H: Hash + Copy>(
    heap: Global,
    trial: &mut Trial,
    hash: H,
    bench: &mut Bench,
) -> Result<(), AllocError> {
    let mut cards = Cards {
        store: regions(heap, &trial.setup.store)?,
        tree: regions(heap, &trial.setup.tree)?,
    };
    bench.register = Register::blank();
    play_cards(trial, hash, &mut cards, bench)?;
    report_cards("data", &cards.store, &mut bench.report)?;
    report_cards("tree", &cards.tree, &mut bench.report)?;
    let store = sealed(&cards.store);
    let tree = sealed(&cards.tree);
    look_on(trial, &hash, store, tree, bench)
}

// Sets up a box, plays what is done with it, and reports that.
fn play(heap: Global, trial: &mut Trial, bench: &mut Bench) -> Result<(), AllocError> {
    match trial.setup.hash {
        HashChoice::Sha256 { salt } => play_under(heap, trial, SaltedSha256::new(salt), bench),
        HashChoice::SipHash { key } => play_under(heap, trial, SipHash::new(key), bench),
    }
}

// What is printed of a script.
pub(crate) fn play_all(heap: Global, script: &mut [Trial]) -> Result<String, AllocError> {
    let mut bench = Bench {
        register: Register::blank(),
        report: String::new(heap),
    };
    for trial in script.iter_mut() {
        play(heap, trial, &mut bench)?;
    }
    let Bench {
        register: _,
        report,
    } = bench;
    Ok(report)
}
