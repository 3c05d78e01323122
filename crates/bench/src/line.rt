// What one line of a script says.
use crate::pile::{Order, Part};
use crate::setup::{Blank, HashChoice, Slot, Spot};
use crate::wrong::Wrong;
use device::crooked::{Listed, Manner};
use hex::FromHex;
use std::str::SplitWhitespace;
use volume::entry::Call;
use volume::refusal::Side;

// The bytes of a block and of a record.
const BLOCK: usize = 512;

const RECORD: usize = 2048;

// The longest area that a script may ask for.
const MOST_BYTES: usize = 65536;

// What areas are filled with before a call, so that it shows whether the call has left them as they were.
pub(crate) const UNTOUCHED: u8 = 255;

// The lengths of a call's areas.
#[derive(Clone, Copy)]
pub(crate) struct Lengths {
    pub(crate) block: usize,
    pub(crate) record_area: usize,
}

impl Lengths {
    const RIGHT: Lengths = Lengths {
        block: BLOCK,
        record_area: RECORD,
    };

    const NONE: Lengths = Lengths {
        block: 0,
        record_area: 0,
    };
}

// What a register is to be set to.
#[derive(Clone, Copy)]
pub(crate) struct Parts {
    pub(crate) blocks: usize,
    pub(crate) kind: u8,
    pub(crate) root: [u8; 32],
}

#[derive(Clone, Copy)]
pub(crate) enum Line {
    Box {
        number: u32,
        hash: HashChoice,
    },
    Stranger {
        number: u32,
    },
    Pile {
        side: Side,
        order: Order,
    },
    Card {
        spot: Spot,
        blank: Blank,
    },
    Bad {
        spot: Spot,
        listed: Listed,
    },
    Format,
    Register(Parts),
    // The byte fills the block that is written.
    Call {
        call: Call,
        byte: u8,
        lengths: Lengths,
    },
    Look {
        number: usize,
        lengths: Lengths,
    },
}

// The form of a line that begins with this word.
fn form_of(word: &str) -> Option<&'static str> {
    match word {
        "box" => Some(
            "box NUMBER sha256 SALT, or box NUMBER siphash KEY, with 32 hexadecimal digits",
        ),
        "stranger" => Some("stranger NUMBER"),
        "data" => Some("data PILE, or data PILE START COUNT where there is an offset in it"),
        "tree" => Some("tree PILE, or tree PILE START COUNT where there is an offset in it"),
        "card" => Some("card data|tree 1|2|3 BLOCKS [BYTE], with 65536 blocks at most"),
        "bad" => Some("bad data|tree 1|2|3 BLOCK refuses|flips|keeps"),
        "format" => Some("format"),
        "register" => Some("register BLOCKS KIND ROOT, with 64 hexadecimal digits"),
        "open" => Some("open"),
        "begin" => Some("begin PLACE"),
        "read" => Some("read NUMBER [block LENGTH] [record LENGTH], with lengths of 65536 at most"),
        "write" => Some(
            "write PLACE NUMBER BYTE [block LENGTH] [record LENGTH], with lengths of 65536 at most",
        ),
        "keep" => Some("keep PLACE"),
        "leave" => Some("leave PLACE"),
        "shut" => Some("shut"),
        "look" => Some("look NUMBER [block LENGTH] [record LENGTH], with lengths of 65536 at most"),
        _ => None,
    }
}

impl Line {
    // What a line says; nothing, if it has no word but a comment.
    pub(crate) fn of_text(text: &str) -> Result<Option<Line>, Wrong> {
        let text = match text.split_once('#') {
            Some((before, _)) => before,
            None => text,
        };
        let mut words = text.split_whitespace();
        let Some(first) = words.next() else {
            return Ok(None);
        };
        let form = form_of(first).ok_or(Wrong::Word)?;
        let line = Line::of_words(first, &mut words).ok_or(Wrong::Form(form))?;
        match words.next() {
            Some(_) => Err(Wrong::Form(form)),
            None => Ok(Some(line)),
        }
    }

    fn of_words(first: &str, words: &mut SplitWhitespace<'_>) -> Option<Line> {
        match first {
            "box" => box_line(words),
            "stranger" => Some(Line::Stranger {
                number: words.next()?.parse().ok()?,
            }),
            "data" => pile_line(Side::Data, words),
            "tree" => pile_line(Side::Tree, words),
            "card" => card_line(words),
            "bad" => bad_line(words),
            "format" => Some(Line::Format),
            "register" => register_line(words),
            "look" => Some(Line::Look {
                number: words.next()?.parse().ok()?,
                lengths: areas_of(words)?,
            }),
            _ => call_line(first, words),
        }
    }
}

fn hash(words: &mut SplitWhitespace<'_>) -> Option<HashChoice> {
    let name = words.next()?;
    let bytes = <[u8; 16]>::from_hex(words.next()?).ok()?;
    match name {
        "sha256" => Some(HashChoice::Sha256 { salt: bytes }),
        "siphash" => Some(HashChoice::SipHash { key: bytes }),
        _ => None,
    }
}

fn box_line(words: &mut SplitWhitespace<'_>) -> Option<Line> {
    Some(Line::Box {
        number: words.next()?.parse().ok()?,
        hash: hash(words)?,
    })
}

fn pile_line(side: Side, words: &mut SplitWhitespace<'_>) -> Option<Line> {
    let name = words.next()?;
    let part = match words.next() {
        None => None,
        Some(start) => Some(Part::new(start.parse().ok()?, words.next()?.parse().ok()?)),
    };
    let order = Order::of_name(name, part)?;
    Some(Line::Pile { side, order })
}

fn spot(words: &mut SplitWhitespace<'_>) -> Option<Spot> {
    let side = match words.next()? {
        "data" => Side::Data,
        "tree" => Side::Tree,
        _ => return None,
    };
    let slot = match words.next()? {
        "1" => Slot::First,
        "2" => Slot::Second,
        "3" => Slot::Third,
        _ => return None,
    };
    Some(Spot { side, slot })
}

fn card_line(words: &mut SplitWhitespace<'_>) -> Option<Line> {
    let spot = spot(words)?;
    let blocks = words.next()?.parse().ok()?;
    let fill = match words.next() {
        None => 0,
        Some(byte) => byte.parse().ok()?,
    };
    let blank = Blank::of(blocks, fill)?;
    Some(Line::Card { spot, blank })
}

fn bad_line(words: &mut SplitWhitespace<'_>) -> Option<Line> {
    let spot = spot(words)?;
    let block = words.next()?.parse().ok()?;
    let manner = match words.next()? {
        "refuses" => Manner::Refuses,
        "flips" => Manner::Flips,
        "keeps" => Manner::Keeps,
        _ => return None,
    };
    let listed = Listed { block, manner };
    Some(Line::Bad { spot, listed })
}

fn register_line(words: &mut SplitWhitespace<'_>) -> Option<Line> {
    Some(Line::Register(Parts {
        blocks: words.next()?.parse().ok()?,
        kind: words.next()?.parse().ok()?,
        root: <[u8; 32]>::from_hex(words.next()?).ok()?,
    }))
}

// A call that a list may have.
fn call_line(first: &str, words: &mut SplitWhitespace<'_>) -> Option<Line> {
    let call = match first {
        "open" => Call::Open,
        "begin" => Call::Begin {
            place: words.next()?.parse().ok()?,
        },
        "keep" => Call::Keep {
            place: words.next()?.parse().ok()?,
        },
        "leave" => Call::Leave {
            place: words.next()?.parse().ok()?,
        },
        "shut" => Call::Shut,
        "read" => return read_line(words),
        "write" => return write_line(words),
        _ => return None,
    };
    Some(Line::Call {
        call,
        byte: 0,
        lengths: Lengths::NONE,
    })
}

fn read_line(words: &mut SplitWhitespace<'_>) -> Option<Line> {
    let number = words.next()?.parse().ok()?;
    Some(Line::Call {
        call: Call::Read { number },
        byte: UNTOUCHED,
        lengths: areas_of(words)?,
    })
}

fn write_line(words: &mut SplitWhitespace<'_>) -> Option<Line> {
    let place = words.next()?.parse().ok()?;
    let number = words.next()?.parse().ok()?;
    Some(Line::Call {
        call: Call::Write { place, number },
        byte: words.next()?.parse().ok()?,
        lengths: areas_of(words)?,
    })
}

fn length(words: &mut SplitWhitespace<'_>) -> Option<usize> {
    let length = words.next()?.parse().ok()?;
    if length > MOST_BYTES {
        return None;
    }
    Some(length)
}

// The lengths of both areas, where they are not those that a call wants.
fn areas_of(words: &mut SplitWhitespace<'_>) -> Option<Lengths> {
    let mut lengths = Lengths::RIGHT;
    let mut next = words.next();
    if let Some("block") = next {
        lengths.block = length(words)?;
        next = words.next();
    }
    if let Some("record") = next {
        lengths.record_area = length(words)?;
        next = words.next();
    }
    match next {
        Some(_) => None,
        None => Some(lengths),
    }
}
