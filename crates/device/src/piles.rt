// Offset, mirror and cache, piled in any order.
ghost use Rattle.std.specs.Prelude.{◌≡◌, replicate, None};
ghost use Rattle.device.specs.Cache.{cache_below, cache_lines, cache_over};
ghost use Rattle.device.specs.Mirror.{mirror_of, mirror_over};
ghost use Rattle.device.specs.Piles.{PilesKeep, SaysDevice, SaysSource, cache, mirror, offset, one, other, pile_device, pile_source};

use crate::cache::Cache;
use crate::device::Device;
use crate::mirror::Mirror;
use crate::offset::Offset;
use crate::source::Source;

// The usual pile: two devices as one, with a cache above them. Over any two devices every pile of offsets, mirrors and caches keeps to what a
// device means; and what a pile means is what the impls of its layers say, here those of an offset, a cache and a mirror.
pub fn cached_mirror<A: Device, B: Device>(first: A, second: B) -> Cache<Mirror<A, B>>
    ensures lines { cache_lines result ≡ replicate 8 None }
    ensures below { cache_below result ≡ mirror_of first second }
    ensures means { (pile_source A.Source.own B.Source.own (cache (mirror one other))).meaning result ≡ cache_over (replicate 8 None) (mirror_over (A.meaning first) (B.meaning second)) }
    ensures every_pile { PilesKeep A.Source.own B.Source.own A.Device.own B.Device.own }
    ensures source { let own = ⟦<Offset<Cache<Mirror<A, B>>> as Source>⟧ in SaysSource own.meaning own.reads (pile_source A.Source.own B.Source.own (offset (cache (mirror one other)))) }
    ensures device { let own = ⟦<Offset<Cache<Mirror<A, B>>> as Device>⟧ in SaysDevice own.writes own.settles (pile_device A.Source.own B.Source.own A.Device.own B.Device.own (offset (cache (mirror one other)))) }
{
    Cache::new(Mirror::new(first, second))
}
