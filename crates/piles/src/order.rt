// The orders in which offset, mirror and cache are piled on two cards.
use device::cache::Cache;
use device::device::Device;
use device::either::Either;
use device::mirror::Mirror;
use device::offset::Offset;
use std::fmt;

// Where the blocks of a pile begin on a card, and how many they are.
const START: usize = 4;

const COUNT: usize = 12;

// Named from the top down.
#[derive(Clone, Copy)]
pub(crate) enum Order {
    CacheMirrorOffset,
    CacheOffsetMirror,
    MirrorCacheOffset,
    MirrorOffsetCache,
    OffsetCacheMirror,
    OffsetMirrorCache,
}

type CacheOnTop<A, B> = Either<Cache<Mirror<Offset<A>, Offset<B>>>, Cache<Offset<Mirror<A, B>>>>;

type MirrorOnTop<A, B> = Either<
    Mirror<Cache<Offset<A>>, Cache<Offset<B>>>,
    Mirror<Offset<Cache<A>>, Offset<Cache<B>>>,
>;

type OffsetOnTop<A, B> = Either<Offset<Cache<Mirror<A, B>>>, Offset<Mirror<Cache<A>, Cache<B>>>>;

// A pile on two cards, in any order.
pub(crate) type Pile<A, B> = Either<CacheOnTop<A, B>, Either<MirrorOnTop<A, B>, OffsetOnTop<A, B>>>;

impl Order {
    pub(crate) const ALL: [Order; 6] = [
        Order::CacheMirrorOffset,
        Order::CacheOffsetMirror,
        Order::MirrorCacheOffset,
        Order::MirrorOffsetCache,
        Order::OffsetCacheMirror,
        Order::OffsetMirrorCache,
    ];

    // The pile in this order on two cards.
    pub(crate) fn over<A: Device, B: Device>(self, first: A, second: B) -> Pile<A, B> {
        match self {
            Order::CacheMirrorOffset => {
                let mirror = Mirror::new(part(first), part(second));
                Either::First(Either::First(Cache::new(mirror)))
            }
            Order::CacheOffsetMirror => {
                let offset = part(Mirror::new(first, second));
                Either::First(Either::Second(Cache::new(offset)))
            }
            Order::MirrorCacheOffset => {
                let mirror = Mirror::new(Cache::new(part(first)), Cache::new(part(second)));
                Either::Second(Either::First(Either::First(mirror)))
            }
            Order::MirrorOffsetCache => {
                let mirror = Mirror::new(part(Cache::new(first)), part(Cache::new(second)));
                Either::Second(Either::First(Either::Second(mirror)))
            }
            Order::OffsetCacheMirror => {
                let offset = part(Cache::new(Mirror::new(first, second)));
                Either::Second(Either::Second(Either::First(offset)))
            }
            Order::OffsetMirrorCache => {
                let offset = part(Mirror::new(Cache::new(first), Cache::new(second)));
                Either::Second(Either::Second(Either::Second(offset)))
            }
        }
    }
}

impl fmt::Display for Order {
    fn fmt<W: fmt::Write>(&self, f: &mut fmt::Formatter<W>) -> fmt::Result {
        let name = match self {
            Order::CacheMirrorOffset => "cache(mirror(offset, offset))",
            Order::CacheOffsetMirror => "cache(offset(mirror))",
            Order::MirrorCacheOffset => "mirror(cache(offset), cache(offset))",
            Order::MirrorOffsetCache => "mirror(offset(cache), offset(cache))",
            Order::OffsetCacheMirror => "offset(cache(mirror))",
            Order::OffsetMirrorCache => "offset(mirror(cache, cache))",
        };
        write!(f, "{name}")
    }
}

fn part<D: Device>(below: D) -> Offset<D> {
    Offset::new(START, COUNT, below)
}
