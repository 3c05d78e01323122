// A script as it is read: boxes, and what is done with each.
use crate::line::{Lengths, Line, Parts, UNTOUCHED};
use crate::setup::{HashChoice, Setup, Spot};
use crate::wrong::Wrong;
use device::crooked::Listed;
use std::alloc::{AllocError, Global};
use volume::entry::{Call, Entry};

// What is done with a volume, one after the other.
#[derive(Drop)]
pub(crate) enum Item {
    Format,
    // Sets the register, if any may have these parts.
    Register(Parts),
    // Calls that are played as one list. It ends with a keep, so that the register is shown after each.
    Calls(Vec<Entry>),
}

// A read of the cards when the volume is gone.
#[derive(Drop)]
pub(crate) struct Look {
    pub(crate) number: usize,
    pub(crate) block: Vec<u8>,
    pub(crate) log: Vec<u8>,
}

#[derive(Drop)]
pub(crate) struct Trial {
    pub(crate) setup: Setup,
    pub(crate) items: Vec<Item>,
    pub(crate) looks: Vec<Look>,
}

fn area(heap: Global, byte: u8, length: usize) -> Result<Vec<u8>, AllocError> {
    vec![in heap; byte; length]
}

impl Look {
    fn new(heap: Global, number: usize, lengths: Lengths) -> Result<Look, AllocError> {
        Ok(Look {
            number,
            block: area(heap, UNTOUCHED, lengths.block)?,
            log: area(heap, UNTOUCHED, lengths.record_area)?,
        })
    }
}

fn entry(heap: Global, call: Call, byte: u8, lengths: Lengths) -> Result<Entry, AllocError> {
    Ok(Entry {
        call,
        block: area(heap, byte, lengths.block)?,
        log: area(heap, UNTOUCHED, lengths.record_area)?,
        answer: None,
    })
}

// Whether the list goes on after its last call.
fn goes_on(list: &[Entry]) -> bool {
    match list.last() {
        Some(entry) => !matches!(entry.call, Call::Keep { .. }),
        None => true,
    }
}

impl Trial {
    fn new(heap: Global, number: u32, hash: HashChoice) -> Trial {
        Trial {
            setup: Setup::new(heap, number, hash),
            items: Vec::new(heap),
            looks: Vec::new(heap),
        }
    }

    // The box as long as it is being set up, which ends with the first call.
    fn being_set_up(&mut self) -> Result<&mut Setup, Wrong> {
        if self.items.is_empty() && self.looks.is_empty() {
            Ok(&mut self.setup)
        } else {
            Err(Wrong::AfterCall)
        }
    }

    fn add_bad(&mut self, spot: Spot, listed: Listed) -> Result<(), Wrong> {
        let card = self.being_set_up()?.card(spot);
        if !card.has_room() {
            return Err(Wrong::TooManyBad);
        }
        card.bad.push(listed)?;
        Ok(())
    }

    fn add_item(&mut self, item: Item) -> Result<(), Wrong> {
        if !self.looks.is_empty() {
            return Err(Wrong::AfterLook);
        }
        self.items.push(item)?;
        Ok(())
    }

    // A call goes to the list before it, if that goes on.
    fn add_call(&mut self, heap: Global, entry: Entry) -> Result<(), Wrong> {
        if self.looks.is_empty()
            && let Some(Item::Calls(list)) = self.items.last_mut()
            && goes_on(list)
        {
            list.push(entry)?;
            return Ok(());
        }
        let mut list = Vec::new(heap);
        list.push(entry)?;
        self.add_item(Item::Calls(list))
    }

    fn add(&mut self, heap: Global, line: Line) -> Result<(), Wrong> {
        match line {
            // It starts a trial of its own.
            Line::Box { .. } => {}
            Line::Stranger { number } => self.being_set_up()?.stranger = Some(number),
            Line::Pile { side, order } => self.being_set_up()?.half(side).order = order,
            Line::Card { spot, blank } => self.being_set_up()?.card(spot).blank = blank,
            Line::Bad { spot, listed } => self.add_bad(spot, listed)?,
            Line::Format => self.add_item(Item::Format)?,
            Line::Register(parts) => self.add_item(Item::Register(parts))?,
            Line::Call {
                call,
                byte,
                lengths,
            } => self.add_call(heap, entry(heap, call, byte, lengths)?)?,
            Line::Look { number, lengths } => {
                self.looks.push(Look::new(heap, number, lengths)?)?;
            }
        }
        Ok(())
    }
}

// Takes in one more line.
pub(crate) fn read_line(heap: Global, script: &mut Vec<Trial>, text: &str) -> Result<(), Wrong> {
    let Some(line) = Line::of_text(text)? else {
        return Ok(());
    };
    if let Line::Box { number, hash } = line {
        script.push(Trial::new(heap, number, hash))?;
    }
    let trial = script.last_mut().ok_or(Wrong::NoBox)?;
    trial.add(heap, line)
}
