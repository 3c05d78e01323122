// A list of calls carried out on a volume, with a pool of slips.
ghost use Rattle.std.specs.Prelude.{◌≡◌, ◌<◌, length, slice_set, None, Some, MatchBool, MatchOption};
ghost use Rattle.volume.specs.Slips.{slip_at};

use crate::entry::{Call, Entry};
use crate::refusal::Refusal;
use crate::register::Register;
use crate::slip::{Slip, Unspent};
use crate::volume::Volume;
use device::cache::Cache;
use device::device::Device;
use device::mirror::Mirror;
use device::offset::Offset;
use digest::hash::Hash;
use std::mem;

// The slip at a place, where there is one.
fn shown(slips: &[Option<Slip>], place: usize) -> Option<&Slip>
    ensures { MatchOption result (slip_at slips.now place ≡ None) (λ s. slip_at slips.now place ≡ Some s.now) }
{
    match slips.get(place) {
        Some(Some(slip)) => Some(slip),
        _ => None,
    }
}

// Whether there is such a place, and it is empty.
fn is_free(slips: &[Option<Slip>], place: usize) -> bool
    ensures { MatchBool result ((place < length slips.now) × (slip_at slips.now place ≡ None)) ((place < length slips.now) × (slip_at slips.now place ≡ None) → ⊥) }
{
    matches!(slips.get(place), Some(None))
}

// Takes the slip from a place, where there is one.
fn take(slips: &mut [Option<Slip>], place: usize) -> Option<Slip>
    ensures taken { result ≡ slip_at slips.old place }
    ensures rest { slips.new ≡ slice_set slips.old place None }
{
    if place >= slips.len() {
        return None;
    }
    slips[place].take()
}

// Puts a slip into an empty place.
fn lay(slips: &mut [Option<Slip>], place: usize, slip: Slip)
    requires inside { place < length slips.old }
    requires free { slip_at slips.old place ≡ None }
    ensures { slips.new ≡ slice_set slips.old place (Some slip) }
{
    // An assignment would let go what was there.
    if let Some(other) = mem::replace(&mut slips[place], Some(slip)) {
        other.spend();
    }
}

impl<D: Device, T: Device, H: Hash> Volume<D, T, H> {
    ghost use Rattle.volume.specs.declared.entry.Call.TheVariants.{Begin, Keep, Leave};
    ghost use Rattle.volume.specs.declared.register.Register.{Register};
    ghost use Rattle.device.specs.Piles.{cache, mirror, offset, one, other, pile_device, pile_source};
    ghost use Rattle.volume.specs.EveryPile.{LayerSays, WholePromise};
    ghost use Rattle.volume.specs.Replay.{Balance, Done, LeftOut, Replayed, Turn};
    ghost use Rattle.volume.specs.Slips.{slip_number};
    ghost use Rattle.volume.specs.Story as story;
    ghost use Rattle.volume.specs.Story.{state};
    ghost use Rattle.volume.specs.View.{base, view};

    // Carries out a list of calls, one after the other, with the slips of a pool. Each answer, area and record is in the list afterwards.
    // A call whose place holds no slip to spend is left out, and so is a begin whose place is not free, and either if there is no such
    // place: such a call has no answer. The calls that it made are a story, and of every story over every pile and under every hash the
    // promise holds.
    pub fn replay(
        &mut self,
        register: &mut Register,
        slips: &mut [Option<Slip>],
        entries: &mut [Entry],
    )
        ensures replayed { Replayed (base D.Source.own T.Source.own D.Device.own T.Device.own H.Hash.own) (state self.old register.old) slips.old entries.old entries.new slips.new (state self.new register.new) }
        ensures balance { let view = view (base D.Source.own T.Source.own D.Device.own T.Device.own H.Hash.own) in Balance (view self.old) slips.old slips.new (view self.new) }
        ensures promise { WholePromise D.Source.own T.Source.own D.Device.own T.Device.own H.Hash.own }
        ensures offset_says { let own = ⟦<Offset<D> as Device>⟧ in LayerSays (pile_source D.Source.own T.Source.own (offset one)) (pile_device D.Source.own T.Source.own D.Device.own T.Device.own (offset one)) own.meaning own.reads own.writes own.settles }
        ensures mirror_says { let own = ⟦<Mirror<D, T> as Device>⟧ in LayerSays (pile_source D.Source.own T.Source.own (mirror one other)) (pile_device D.Source.own T.Source.own D.Device.own T.Device.own (mirror one other)) own.meaning own.reads own.writes own.settles }
        ensures cache_says { let own = ⟦<Cache<D> as Device>⟧ in LayerSays (pile_source D.Source.own T.Source.own (cache one)) (pile_device D.Source.own T.Source.own D.Device.own T.Device.own (cache one)) own.meaning own.reads own.writes own.settles }
    {
        self.carry_out(register, slips, entries);
    }

    fn carry_out(
        &mut self,
        register: &mut Register,
        slips: &mut [Option<Slip>],
        entries: &mut [Entry],
    )
        ensures replayed { Replayed (base D.Source.own T.Source.own D.Device.own T.Device.own H.Hash.own) (state self.old register.old) slips.old entries.old entries.new slips.new (state self.new register.new) }
        ensures balance { let view = view (base D.Source.own T.Source.own D.Device.own T.Device.own H.Hash.own) in Balance (view self.old) slips.old slips.new (view self.new) }
    {
        for entry in entries.iter_mut() {
            self.step(register, slips, entry);
        }
    }

    // Makes one call, or leaves it out.
    fn step(&mut self, register: &mut Register, slips: &mut [Option<Slip>], entry: &mut Entry)
        ensures { Turn (base D.Source.own T.Source.own D.Device.own T.Device.own H.Hash.own) (state self.old register.old) slips.old entry.old entry.new slips.new (state self.new register.new) }
    {
        match entry.call {
            Call::Open => entry.answer = Some(self.open(register)),
            Call::Begin { place } => self.begin_at(slips, place, entry),
            Call::Read { number } => entry.answer = Some(self.read(
                number,
                &mut entry.block,
                &mut entry.log,
            )),
            Call::Write { place, number } => {
                entry.answer = match shown(slips, place) {
                    None => None,
                    Some(slip) => Some(self.write(slip, number, &entry.block, &mut entry.log)),
                };
            }
            Call::Keep { place } => self.keep_with(register, slips, place, entry),
            Call::Leave { place } => self.leave_with(slips, place, entry),
            Call::Shut => entry.answer = Some(self.shut()),
        }
    }

    // Begins, where the place is free for the slip.
    fn begin_at(&mut self, slips: &mut [Option<Slip>], place: usize, entry: &mut Entry)
        requires { entry.old.call ≡ Begin place }
        ensures { (r : Register) → Turn (base D.Source.own T.Source.own D.Device.own T.Device.own H.Hash.own) (state self.old r) slips.old entry.old entry.new slips.new (state self.new r) }
    {
        if !is_free(slips, place) {
            entry.answer = None;
            return;
        }
        match self.begin() {
            Ok(slip) => {
                lay(slips, place, slip);
                entry.answer = Some(Ok(()));
            }
            Err(refusal) => entry.answer = Some(Err(refusal)),
        }
    }

    // Keeps with the slip at this place, if there is one. Refused, the slip lies there again.
    #[tactic(auto, using(crate::proofs::Pools::laid_again))]
    fn keep_with(
        &mut self,
        register: &mut Register,
        slips: &mut [Option<Slip>],
        place: usize,
        entry: &mut Entry,
    )
        requires { entry.old.call ≡ Keep place }
        ensures { Turn (base D.Source.own T.Source.own D.Device.own T.Device.own H.Hash.own) (state self.old register.old) slips.old entry.old entry.new slips.new (state self.new register.new) }
    {
        let Some(slip) = take(slips, place) else {
            entry.answer = None;
            return;
        };
        match self.keep(slip, register) {
            Ok(()) => entry.answer = Some(Ok(())),
            Err(Unspent { refusal, slip }) => {
                lay(slips, place, slip);
                entry.answer = Some(Err(refusal));
            }
        }
    }

    // Leaves with the slip at this place, if there is one. Refused, the slip lies there again.
    #[tactic(auto, using(crate::proofs::Pools::laid_again))]
    fn leave_with(&mut self, slips: &mut [Option<Slip>], place: usize, entry: &mut Entry)
        requires { entry.old.call ≡ Leave place }
        ensures { (r : Register) → Turn (base D.Source.own T.Source.own D.Device.own T.Device.own H.Hash.own) (state self.old r) slips.old entry.old entry.new slips.new (state self.new r) }
    {
        let Some(slip) = take(slips, place) else {
            entry.answer = None;
            return;
        };
        match self.leave(slip) {
            Ok(()) => entry.answer = Some(Ok(())),
            Err(Unspent { refusal, slip }) => {
                lay(slips, place, slip);
                entry.answer = Some(Err(refusal));
            }
        }
    }
}
