// The volume beside a box. Where a script asks for one, it is open, and its slip lies in place 0.
ghost use Rattle.std.specs.Prelude.{◌≡◌};
ghost use Rattle.bench.specs.Beside.{HasOut, IsBlock, Lent, Stands, pool_of};
ghost use Rattle.volume.specs.Slips.{slip_with};
ghost use Rattle.volume.specs.View.{base, view};

use crate::spend::PLACES;
use device::device::Device;
use digest::hash::Hash;
use digest::siphash::SipHash;
use volume::register::Register;
use volume::slip::Slip;
use volume::volume::Volume;

// The volume over one sound block for data and one for the tree, and the pool with which the box begins.
pub(crate) fn beside<D: Device, T: Device>(
    devices: (D, T),
    asked: Option<u32>,
) -> (Volume<D, T, SipHash>, [Option<Slip>; PLACES])
    requires store { IsBlock (D.Source.meaning devices.0) }
    requires tree { IsBlock (T.Source.meaning devices.1) }
    ensures lent { Lent (view (base D.Source.own T.Source.own D.Device.own T.Device.own ⟦<SipHash as Hash>⟧) result.0) result.1 }
    ensures pool { result.1 ≡ pool_of asked }
{
    let (store, tree) = devices;
    let Some(number) = asked else {
        let idle = Volume::keyed(store, tree, [0; 16], 0);
        return (idle, [None, None, None, None]);
    };
    let mut companion = Volume::keyed(store, tree, [0; 16], number);
    let slip = stranger(&mut companion);
    (companion, [Some(slip), None, None, None])
}

// The slip of the volume beside the box. Its devices are sound, so no call is refused.
fn stranger<D: Device, T: Device, H: Hash>(companion: &mut Volume<D, T, H>) -> Slip
    requires { Stands (view (base D.Source.own T.Source.own D.Device.own T.Device.own H.Hash.own) companion.old) }
    ensures out { HasOut (view (base D.Source.own T.Source.own D.Device.own T.Device.own H.Hash.own) companion.new) result }
    ensures slip { result ≡ slip_with companion.old.number }
{
    let mut register = Register::blank();
    let Ok(()) = companion.format(&mut register) else {
        unreachable!()
    };
    let Ok(()) = companion.open(&register) else {
        unreachable!()
    };
    let Ok(slip) = companion.begin() else {
        unreachable!()
    };
    slip
}
