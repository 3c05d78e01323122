// The stages of a trial, on a volume over any devices.
ghost use Rattle.std.specs.Prelude.{Ok};
ghost use Rattle.trial.specs.Played.{CarriedOut};
ghost use Rattle.trial.specs.Takes.{Takes};
ghost use Rattle.volume.specs.Calls.{LeaveStep};
ghost use Rattle.volume.specs.Slips.{slip_number};
ghost use Rattle.volume.specs.Story.{state};
ghost use Rattle.volume.specs.View.{base, view};

use device::device::Device;
use digest::hash::Hash;
use volume::entry::Entry;
use volume::register::Register;
use volume::slip::{Slip, Unspent};
use volume::volume::Volume;

// Carries out a list with an empty place for its slip. One that is left over, as where keep was refused, is given back to the volume.
pub(crate) fn play<D: Device, T: Device, H: Hash>(
    volume: &mut Volume<D, T, H>,
    register: &mut Register,
    list: &mut [Entry],
)
    ensures { CarriedOut (base D.Source.own T.Source.own D.Device.own T.Device.own H.Hash.own) (state volume.old register.old) list.old list.new (state volume.new register.new) }
{
    let mut slips = [None];
    volume.replay(register, &mut slips, list);
    let [slip] = slips;
    if let Some(slip) = slip {
        leave(volume, slip);
    }
}

// Leaves with a slip that the volume has out.
fn leave<D: Device, T: Device, H: Hash>(volume: &mut Volume<D, T, H>, slip: Slip)
    requires { Takes (view (base D.Source.own T.Source.own D.Device.own T.Device.own H.Hash.own) volume.old) slip }
    ensures { LeaveStep (base D.Source.own T.Source.own D.Device.own T.Device.own H.Hash.own) volume.old (slip_number slip) (Ok tt) volume.new }
{
    if let Err(
        Unspent {
            refusal: _,
            slip: _slip,
        },
    ) = volume.leave(slip)
    {
        unreachable!()
    }
}
