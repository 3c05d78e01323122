// What a box is made of.
use crate::pile::Order;
use device::crooked::{Crooked, Listed};
use device::source::{MOST_BLOCKS, Source};
use std::alloc::{AllocError, Global};
use volume::refusal::Side;

// The most bad blocks that a card may have: a crooked card looks at no more.
const MOST_BAD: usize = 16;

#[derive(Clone, Copy)]
pub(crate) enum HashChoice {
    Sha256 { salt: [u8; 16] },
    SipHash { key: [u8; 16] },
}

// How many blocks a card has, and the byte that fills them at first.
#[derive(Clone, Copy)]
pub(crate) struct Blank {
    pub(crate) blocks: usize,
    pub(crate) fill: u8,
}

#[derive(Drop)]
pub(crate) struct Card {
    pub(crate) blank: Blank,
    pub(crate) bad: Vec<Listed>,
}

// Three of whatever stands at the bottom of one side.
#[derive(Drop)]
pub(crate) struct Bottoms<A> {
    pub(crate) first: A,
    pub(crate) second: A,
    pub(crate) third: A,
}

#[derive(Clone, Copy)]
pub(crate) enum Slot {
    First,
    Second,
    Third,
}

// One card of a box.
#[derive(Clone, Copy)]
pub(crate) struct Spot {
    pub(crate) side: Side,
    pub(crate) slot: Slot,
}

// One side of a box.
#[derive(Drop)]
pub(crate) struct Half {
    pub(crate) order: Order,
    pub(crate) cards: Bottoms<Card>,
}

#[derive(Drop)]
pub(crate) struct Setup {
    pub(crate) number: u32,
    pub(crate) hash: HashChoice,
    // The number of a volume beside the box, whose slip lies in place 0.
    pub(crate) stranger: Option<u32>,
    pub(crate) store: Half,
    pub(crate) tree: Half,
}

impl Blank {
    // No more blocks than a device may have.
    pub(crate) fn of(blocks: usize, fill: u8) -> Option<Blank> {
        if blocks > MOST_BLOCKS {
            return None;
        }
        Some(Blank { blocks, fill })
    }
}

impl Card {
    // A card without blocks, until its line says otherwise.
    fn absent(heap: Global) -> Card {
        Card {
            blank: Blank { blocks: 0, fill: 0 },
            bad: Vec::new(heap),
        }
    }

    // Whether it can have one more bad block.
    pub(crate) fn has_room(&self) -> bool {
        self.bad.len() < MOST_BAD
    }

    // The card's blocks, as they are at first.
    pub(crate) fn region(&self, heap: Global) -> Result<Vec<[u8; 512]>, AllocError> {
        let block = [self.blank.fill; 512];
        vec![in heap; block; self.blank.blocks]
    }
}

impl Half {
    fn new(heap: Global) -> Half {
        Half {
            order: Order::CARD,
            cards: Bottoms {
                first: Card::absent(heap),
                second: Card::absent(heap),
                third: Card::absent(heap),
            },
        }
    }

    // What is lent as the three cards, with their bad blocks.
    pub(crate) fn crooked<A: Source>(&self, lent: Bottoms<A>) -> Bottoms<Crooked<'_, A>> {
        let Bottoms {
            first,
            second,
            third,
        } = lent;
        Bottoms {
            first: Crooked::new(&self.cards.first.bad, first),
            second: Crooked::new(&self.cards.second.bad, second),
            third: Crooked::new(&self.cards.third.bad, third),
        }
    }
}

impl Setup {
    pub(crate) fn new(heap: Global, number: u32, hash: HashChoice) -> Setup {
        Setup {
            number,
            hash,
            stranger: None,
            store: Half::new(heap),
            tree: Half::new(heap),
        }
    }

    pub(crate) fn half(&mut self, side: Side) -> &mut Half {
        match side {
            Side::Data => &mut self.store,
            Side::Tree => &mut self.tree,
        }
    }

    pub(crate) fn card(&mut self, spot: Spot) -> &mut Card {
        let cards = &mut self.half(spot.side).cards;
        match spot.slot {
            Slot::First => &mut cards.first,
            Slot::Second => &mut cards.second,
            Slot::Third => &mut cards.third,
        }
    }
}
