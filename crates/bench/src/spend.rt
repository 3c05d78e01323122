// The slips that a script leaves over. None may be let go, so each goes back to a volume that takes it.
ghost use Rattle.bench.specs.Spent.{Balanced, NoneOut, Owed, Spent};
ghost use Rattle.volume.specs.View.{base, view};

use device::device::Device;
use digest::hash::Hash;
use std::alloc::AllocError;
use volume::slip::{Slip, Unspent};
use volume::volume::Volume;

// How many places there are for slips. There are never more slips than volumes.
pub(crate) const PLACES: usize = 4;

// A line for each slip that is left.
pub(crate) fn report_left(
    pool: &[Option<Slip>; PLACES],
    report: &mut String,
) -> Result<(), AllocError> {
    for (place, held) in pool.iter().enumerate() {
        if let Some(slip) = held {
            let number = slip.number();
            writeln!(report, "place {place}: left over, number {number}")?;
        }
    }
    Ok(())
}

// Leaves with every slip that is left.
pub(crate) fn spend_all<D: Device, T: Device, H: Hash, E: Device, U: Device, G: Hash>(
    volume: &mut Volume<D, T, H>,
    companion: &mut Volume<E, U, G>,
    pool: [Option<Slip>; PLACES],
)
    requires { Balanced (view (base D.Source.own T.Source.own D.Device.own T.Device.own H.Hash.own) volume.old) (view (base E.Source.own U.Source.own E.Device.own U.Device.own G.Hash.own) companion.old) pool }
    ensures { NoneOut (view (base D.Source.own T.Source.own D.Device.own T.Device.own H.Hash.own) volume.new) (view (base E.Source.own U.Source.own E.Device.own U.Device.own G.Hash.own) companion.new) }
{
    let [first, second, third, fourth] = pool;
    spend(volume, companion, first);
    spend(volume, companion, second);
    spend(volume, companion, third);
    spend(volume, companion, fourth);
}

// Leaves with a slip. For each number there are as many slips as volumes that have one out, so one of the two takes it.
fn spend<D: Device, T: Device, H: Hash, E: Device, U: Device, G: Hash>(
    volume: &mut Volume<D, T, H>,
    companion: &mut Volume<E, U, G>,
    held: Option<Slip>,
)
    requires { Owed (view (base D.Source.own T.Source.own D.Device.own T.Device.own H.Hash.own) volume.old) (view (base E.Source.own U.Source.own E.Device.own U.Device.own G.Hash.own) companion.old) held }
    ensures { let v = view (base D.Source.own T.Source.own D.Device.own T.Device.own H.Hash.own) in let w = view (base E.Source.own U.Source.own E.Device.own U.Device.own G.Hash.own) in Spent (v volume.old) (w companion.old) held (v volume.new) (w companion.new) }
{
    let Some(slip) = held else {
        return;
    };
    let Err(Unspent { refusal: _, slip }) = volume.leave(slip) else {
        return;
    };
    if let Err(
        Unspent {
            refusal: _,
            slip: _slip,
        },
    ) = companion.leave(slip)
    {
        unreachable!()
    }
}
