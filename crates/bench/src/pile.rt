// The order of the layers on one side of a box, and the pile in that order over the side's cards.
use crate::setup::Bottoms;
use device::cache::Cache;
use device::either::Either;
use device::mirror::Mirror;
use device::offset::Offset;
use device::source::Source;

// The blocks that an offset shows.
#[derive(Clone, Copy)]
pub(crate) struct Part {
    start: usize,
    count: usize,
}

// The orders, each named from the top down. All offsets of one are of the same part.
#[derive(Clone, Copy)]
pub(crate) enum Order {
    Single(Single),
    Cached(Cached),
    Offset(Part, Shifted),
    Mirrored(Mirrored),
    // A cache over a mirror of three cards, the first two of which are a mirror themselves.
    ThreeCards,
}

// What stands over one card.
#[derive(Clone, Copy)]
pub(crate) enum Single {
    Card,
    Cache,
    Offset(Part),
    CacheOffset(Part),
}

// What stands under a cache.
#[derive(Clone, Copy)]
pub(crate) enum Cached {
    Mirror,
    OffsetMirror(Part),
    MirrorOffset(Part),
}

// What stands under an offset.
#[derive(Clone, Copy)]
pub(crate) enum Shifted {
    Mirror,
    CacheMirror,
    MirrorCache,
}

// What stands under each half of a mirror.
#[derive(Clone, Copy)]
pub(crate) enum Mirrored {
    Card,
    Cache,
    Offset(Part),
    OffsetCache(Part),
    CacheOffset(Part),
}

type OneCard<A> = Either<Either<A, Cache<A>>, Either<Offset<A>, Cache<Offset<A>>>>;

type CacheOnTop<A> = Either<
    Cache<Mirror<A, A>>,
    Either<Cache<Offset<Mirror<A, A>>>, Cache<Mirror<Offset<A>, Offset<A>>>>,
>;

type OffsetOnTop<A> = Either<
    Offset<Mirror<A, A>>,
    Either<Offset<Cache<Mirror<A, A>>>, Offset<Mirror<Cache<A>, Cache<A>>>>,
>;

type MirrorOnTop<A> = Either<
    Either<Mirror<A, A>, Mirror<Cache<A>, Cache<A>>>,
    Either<
        Mirror<Offset<A>, Offset<A>>,
        Either<
            Mirror<Offset<Cache<A>>, Offset<Cache<A>>>,
            Mirror<Cache<Offset<A>>, Cache<Offset<A>>>,
        >,
    >,
>;

type ThreeCards<A> = Cache<Mirror<Mirror<A, A>, A>>;

// A pile in any order that has a name.
pub(crate) type Pile<A> = Either<
    Either<OneCard<A>, ThreeCards<A>>,
    Either<CacheOnTop<A>, Either<OffsetOnTop<A>, MirrorOnTop<A>>>,
>;

impl Part {
    pub(crate) fn new(start: usize, count: usize) -> Part {
        Part { start, count }
    }

    fn of<D: Source>(self, below: D) -> Offset<D> {
        Offset::new(self.start, self.count, below)
    }
}

impl Single {
    fn over<A: Source>(self, card: A) -> OneCard<A> {
        match self {
            Single::Card => Either::First(Either::First(card)),
            Single::Cache => Either::First(Either::Second(Cache::new(card))),
            Single::Offset(part) => Either::Second(Either::First(part.of(card))),
            Single::CacheOffset(part) => {
                Either::Second(Either::Second(Cache::new(part.of(card))))
            }
        }
    }
}

impl Cached {
    fn over<A: Source>(self, first: A, second: A) -> CacheOnTop<A> {
        match self {
            Cached::Mirror => Either::First(Cache::new(Mirror::new(first, second))),
            Cached::OffsetMirror(part) => {
                let offset = part.of(Mirror::new(first, second));
                Either::Second(Either::First(Cache::new(offset)))
            }
            Cached::MirrorOffset(part) => {
                let mirror = Mirror::new(part.of(first), part.of(second));
                Either::Second(Either::Second(Cache::new(mirror)))
            }
        }
    }
}

impl Shifted {
    fn over<A: Source>(self, part: Part, first: A, second: A) -> OffsetOnTop<A> {
        match self {
            Shifted::Mirror => Either::First(part.of(Mirror::new(first, second))),
            Shifted::CacheMirror => {
                let cache = Cache::new(Mirror::new(first, second));
                Either::Second(Either::First(part.of(cache)))
            }
            Shifted::MirrorCache => {
                let mirror = Mirror::new(Cache::new(first), Cache::new(second));
                Either::Second(Either::Second(part.of(mirror)))
            }
        }
    }
}

impl Mirrored {
    fn over<A: Source>(self, first: A, second: A) -> MirrorOnTop<A> {
        match self {
            Mirrored::Card => Either::First(Either::First(Mirror::new(first, second))),
            Mirrored::Cache => {
                let mirror = Mirror::new(Cache::new(first), Cache::new(second));
                Either::First(Either::Second(mirror))
            }
            Mirrored::Offset(part) => {
                let mirror = Mirror::new(part.of(first), part.of(second));
                Either::Second(Either::First(mirror))
            }
            Mirrored::OffsetCache(part) => {
                let (first, second) = (Cache::new(first), Cache::new(second));
                let mirror = Mirror::new(part.of(first), part.of(second));
                Either::Second(Either::Second(Either::First(mirror)))
            }
            Mirrored::CacheOffset(part) => {
                let (first, second) = (part.of(first), part.of(second));
                let mirror = Mirror::new(Cache::new(first), Cache::new(second));
                Either::Second(Either::Second(Either::Second(mirror)))
            }
        }
    }
}

impl Order {
    pub(crate) const CARD: Order = Order::Single(Single::Card);

    // The order of this name. Offsets want a part, and what has none has no offset.
    pub(crate) fn of_name(name: &str, part: Option<Part>) -> Option<Order> {
        match part {
            Some(part) => Order::with_offset(name, part),
            None => Order::without_offset(name),
        }
    }

    fn without_offset(name: &str) -> Option<Order> {
        match name {
            "card" => Some(Order::CARD),
            "cache" => Some(Order::Single(Single::Cache)),
            "mirror" => Some(Order::Mirrored(Mirrored::Card)),
            "mirror(cache,cache)" => Some(Order::Mirrored(Mirrored::Cache)),
            "cache(mirror)" => Some(Order::Cached(Cached::Mirror)),
            "cache(mirror(mirror,card))" => Some(Order::ThreeCards),
            _ => None,
        }
    }

    fn with_offset(name: &str, part: Part) -> Option<Order> {
        match name {
            "offset" => Some(Order::Single(Single::Offset(part))),
            "cache(offset)" => Some(Order::Single(Single::CacheOffset(part))),
            "cache(offset(mirror))" => Some(Order::Cached(Cached::OffsetMirror(part))),
            "cache(mirror(offset,offset))" => Some(Order::Cached(Cached::MirrorOffset(part))),
            "offset(mirror)" => Some(Order::Offset(part, Shifted::Mirror)),
            "offset(cache(mirror))" => Some(Order::Offset(part, Shifted::CacheMirror)),
            "offset(mirror(cache,cache))" => Some(Order::Offset(part, Shifted::MirrorCache)),
            "mirror(offset,offset)" => Some(Order::Mirrored(Mirrored::Offset(part))),
            "mirror(offset(cache),offset(cache))" => {
                Some(Order::Mirrored(Mirrored::OffsetCache(part)))
            }
            "mirror(cache(offset),cache(offset))" => {
                Some(Order::Mirrored(Mirrored::CacheOffset(part)))
            }
            _ => None,
        }
    }

    // The pile in this order. What it has no place for is let go.
    pub(crate) fn over<A: Source + Drop>(self, cards: Bottoms<A>) -> Pile<A> {
        let Bottoms {
            first,
            second,
            third,
        } = cards;
        match self {
            Order::Single(single) => Either::First(Either::First(single.over(first))),
            Order::ThreeCards => {
                let mirror = Mirror::new(Mirror::new(first, second), third);
                Either::First(Either::Second(Cache::new(mirror)))
            }
            Order::Cached(cached) => Either::Second(Either::First(cached.over(first, second))),
            Order::Offset(part, shifted) => {
                let offset = shifted.over(part, first, second);
                Either::Second(Either::Second(Either::First(offset)))
            }
            Order::Mirrored(mirrored) => {
                let mirror = mirrored.over(first, second);
                Either::Second(Either::Second(Either::Second(mirror)))
            }
        }
    }
}
