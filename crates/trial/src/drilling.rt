// A tray on cards that go bad.
ghost use Rattle.std.specs.Prelude.{◌≡◌, ◌++◌, ◌∷◌, [], ℕ, IfOk, OnOk, List, MatchOption, map, length, string_bytes};
ghost use Rattle.geometry.specs.Geometry.{total};
ghost use Rattle.label.specs.Label.{sheet_volume};
ghost use Rattle.trial.specs.Cards.{AreBlank};
ghost use Rattle.trial.specs.Drill.{AllRan, DrilledUnder, Formatted, Played, Ran, Tallied, VolumeOver, Written, at_first, bad_line, heading, last_of, listed, manner_word, run_text, runs};
ghost use Rattle.trial.specs.Good.{GoodCard};
ghost use Rattle.trial.specs.Lists.{asked, read_list};
ghost use Rattle.trial.specs.Trial.{card_device, card_source};
ghost use Rattle.volume.specs.declared.entry.Entry.{Entry};

use crate::cards::{Cards, Regions};
use crate::job::Job;
use crate::list::{reads, writes};
use crate::reads::{Tally, all_accepted};
use crate::stages::play;
use crate::stuck::Stuck;
use device::cache::Cache;
use device::crooked::{Crooked, Listed, Manner};
use device::device::Device;
use device::mirror::Mirror;
use device::piles::cached_mirror;
use digest::hash::Hash;
use label::load::load;
use std::alloc::{AllocError, Global};
use subscriber::sheet::Sheet;
use volume::entry::Entry;
use volume::register::Register;
use volume::volume::Volume;

// How the cards of a run are bad, each in one manner at data block 0 and at the last tree block: the first from the first list on, and
// the second, if at all, at the reads.
#[derive(Clone, Copy)]
struct Run {
    first: Manner,
    second: Option<Manner>,
}

// A manner, in one word.
fn word(manner: Manner) -> &'static str
    ensures { result.now ≡ manner_word manner }
{
    match manner {
        Manner::Refuses => "refuses",
        Manner::Flips => "flips",
        Manner::Keeps => "keeps",
    }
}

impl Run {
    const ALL: [Run; 6] = [
        Run {
            first: Manner::Refuses,
            second: None,
        },
        Run {
            first: Manner::Flips,
            second: None,
        },
        Run {
            first: Manner::Keeps,
            second: None,
        },
        Run {
            first: Manner::Refuses,
            second: Some(Manner::Refuses),
        },
        Run {
            first: Manner::Flips,
            second: Some(Manner::Flips),
        },
        Run {
            first: Manner::Keeps,
            second: Some(Manner::Refuses),
        },
    ];

    // The run before the reads.
    fn at_first(self) -> Run
        ensures { result ≡ at_first self }
    {
        Run {
            first: self.first,
            second: None,
        }
    }

    fn add_heading(self, report: &mut String) -> Result<(), AllocError>
        ensures { OnOk result (string_bytes report.new ≡ string_bytes report.old ++ heading self) }
    {
        let first = word(self.first);
        match self.second {
            Some(second) => {
                let second = word(second);
                writeln!(report, "card 1 {first}, card 2 {second} at the reads")
            }
            None => writeln!(report, "card 1 {first}"),
        }
    }
}

fn listed(block: usize, manner: Option<Manner>) -> Option<Listed>
    ensures { MatchOption result (listed block manner ≡ []) (λ entry. listed block manner ≡ entry ∷ []) }
{
    manner.map(|manner| Listed { block, manner })
}

fn last_tree_block<H>(job: &Job<H>) -> usize
    ensures { result ≡ last_of job.now.contents.now.blocks.items }
{
    job.contents.geometry().total().saturating_sub(1)
}

// Two regions as one, and a cache above them.
type Pile<A> = Cache<Mirror<A, A>>;

// The closed volume of a tray over two cards: a region for data and one for the tree on each.
fn volume_over<A: Device, H: Hash + Copy>(
    job: &Job<H>,
    store: (A, A),
    tree: (A, A),
) -> Volume<Pile<A>, Pile<A>, H>
    ensures { VolumeOver job.now.number job.now.hash store.0 store.1 tree.0 tree.1 result }
{
    let store = cached_mirror(store.0, store.1);
    let tree = cached_mirror(tree.0, tree.1);
    Volume::new(store, tree, job.hash, job.number)
}

// Each stage has a volume of its own, as after a power cut: what passes from one to the next is the register and what lies on the cards.
// The regions are of any type, since the check does not cover a type argument that has both a cache and a `Memory` in it.
fn format_on<A: Device + Drop, H: Hash + Copy>(
    job: &Job<H>,
    store: (A, A),
    tree: (A, A),
) -> Result<Register, Stuck>
    requires store { let blocks = length job.now.contents.now.blocks.items in GoodCard (A.meaning store.0) blocks × GoodCard (A.meaning store.1) blocks }
    requires tree { let blocks = length job.now.contents.now.blocks.items in GoodCard (A.meaning tree.0) (total blocks) × GoodCard (A.meaning tree.1) (total blocks) }
    ensures { IfOk result (λ r. Formatted A.Source.own A.Device.own H.Hash.own job.now.number job.now.hash (length job.now.contents.now.blocks.items) r) }
{
    let mut volume = volume_over(job, store, tree);
    let mut register = Register::blank();
    match volume.format(&mut register) {
        Ok(()) => Ok(register),
        Err(refusal) => Err(Stuck::Format(refusal)),
    }
}

fn play_on<A: Device + Drop, H: Hash + Copy>(
    job: &Job<H>,
    run: Run,
    store: (A, A),
    tree: (A, A),
    register: &mut Register,
    list: &mut [Entry],
)
    ensures { Played A.Source.own A.Device.own H.Hash.own job.now.number job.now.hash (last_of job.now.contents.now.blocks.items) run (map asked list.old) register.old list.new register.new }
{
    let last = last_tree_block(job);
    let first = Some(run.first);
    let (data_1, data_2) = (listed(0, first), listed(0, run.second));
    let (tree_1, tree_2) = (listed(last, first), listed(last, run.second));
    let data_1 = Crooked::new(data_1.as_slice(), store.0);
    let data_2 = Crooked::new(data_2.as_slice(), store.1);
    let tree_1 = Crooked::new(tree_1.as_slice(), tree.0);
    let tree_2 = Crooked::new(tree_2.as_slice(), tree.1);
    let mut volume = volume_over(job, (data_1, data_2), (tree_1, tree_2));
    play(&mut volume, register, list);
}

fn format_cards<H: Hash + Copy>(job: &Job<H>, cards: &mut Cards) -> Result<Register, Stuck>
    requires { AreBlank (length job.now.contents.now.blocks.items) cards.old }
    ensures { IfOk result (λ r. Formatted card_source card_device H.Hash.own job.now.number job.now.hash (length job.now.contents.now.blocks.items) r) }
{
    let Regions { data, tree } = cards.regions();
    format_on(job, data, tree)
}

fn play_cards<H: Hash + Copy>(
    job: &Job<H>,
    run: Run,
    cards: &mut Cards,
    register: &mut Register,
    list: &mut [Entry],
)
    ensures { Played card_source card_device H.Hash.own job.now.number job.now.hash (last_of job.now.contents.now.blocks.items) run (map asked list.old) register.old list.new register.new }
{
    let Regions { data, tree } = cards.regions();
    play_on(job, run, data, tree, register, list);
}

// Writes the block of each SIM, and keeps them.
fn write_cards<H: Hash + Copy>(
    job: &Job<H>,
    run: Run,
    cards: &mut Cards,
    register: &mut Register,
) -> Result<(), Stuck>
    ensures { OnOk result (Written card_source card_device H.Hash.own job.now.number job.now.hash (last_of job.now.contents.now.blocks.items) run job.now.sims.now register.old register.new) }
{
    let mut list = writes(job.heap, job.sims)?;
    play_cards(job, run.at_first(), cards, register, &mut list);
    all_accepted(&list)
}

// Reads every block.
fn read_cards<H: Hash + Copy>(
    job: &Job<H>,
    run: Run,
    cards: &mut Cards,
    register: &mut Register,
) -> Result<Tally, Stuck>
    ensures { let written = job.now.contents.now.blocks.items in IfOk result (λ t. (answered : List Entry) × Played card_source card_device H.Hash.own job.now.number job.now.hash (last_of written) run (read_list (length written)) register.old answered register.new × Tallied written answered t) }
{
    let mut list = reads(job.heap, job.contents.blocks.len())?;
    play_cards(job, run, cards, register, &mut list);
    Tally::of(job.heap, &list, &job.contents.blocks)
}

// A run on new cards. With one bad card no read may be refused.
fn run_through<H: Hash + Copy>(job: &Job<H>, run: Run) -> Result<Tally, Stuck>
    ensures { let written = job.now.contents.now.blocks.items in IfOk result (λ t. (answered : List Entry) × Ran card_source card_device H.Hash.own job.now.number job.now.hash job.now.sims.now written run answered × Tallied written answered t) }
{
    let mut cards = Cards::blank(job.heap, job.contents.geometry())?;
    let mut register = format_cards(job, &mut cards)?;
    write_cards(job, run, &mut cards, &mut register)?;
    let tally = read_cards(job, run, &mut cards, &mut register)?;
    if run.second.is_none() {
        tally.all_right()?;
    }
    Ok(tally)
}

fn add_tally(run: Run, tally: &Tally, report: &mut String) -> Result<(), AllocError>
    ensures { OnOk result ((written : List (List ℕ)) (answered : List Entry) → Tallied written answered tally.now → string_bytes report.new ≡ string_bytes report.old ++ run_text run answered) }
{
    let right = tally.right;
    let refused = tally.refused.len();
    run.add_heading(report)?;
    writeln!(report, "reads: {right} right, {refused} refused")?;
    tally.add_refused(report)?;
    Ok(())
}

// Plays a run and reports it.
fn report_run<H: Hash + Copy>(job: &Job<H>, run: Run, report: &mut String) -> Result<(), Stuck>
    ensures { OnOk result ((answered : List Entry) × Ran card_source card_device H.Hash.own job.now.number job.now.hash job.now.sims.now job.now.contents.now.blocks.items run answered × (string_bytes report.new ≡ string_bytes report.old ++ run_text run answered)) }
{
    let tally = run_through(job, run)?;
    add_tally(run, &tally, report)?;
    Ok(())
}

// The line that names the bad blocks, and then every run.
fn report<H: Hash + Copy>(job: &Job<H>) -> Result<String, Stuck>
    ensures { let written = job.now.contents.now.blocks.items in IfOk result (λ t. (rest : List ℕ) × (string_bytes t ≡ bad_line (last_of written) ++ rest) × AllRan card_source card_device H.Hash.own job.now.number job.now.hash job.now.sims.now written runs rest) }
{
    let mut report = String::new(job.heap);
    writeln!(report, "bad blocks: data 0, tree {}", last_tree_block(job))?;
    for run in &Run::ALL {
        report_run(job, *run, &mut report)?;
    }
    Ok(report)
}

pub(crate) fn drill_under<H: Hash + Copy>(
    heap: Global,
    sheet: &Sheet,
    hash: H,
) -> Result<String, Stuck>
    ensures { IfOk result (λ t. DrilledUnder H.Hash.own hash sheet.now (string_bytes t)) }
{
    let contents = load(heap, sheet)?;
    let sims = &contents.blocks[..sheet.sims.len()];
    let job = Job {
        heap,
        number: sheet.tray.value,
        hash,
        sims,
        contents: &contents,
    };
    let text = report(&job)?;
    Ok(text)
}
