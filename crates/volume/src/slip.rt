// The token that stands beside an open volume while it may be written.
ghost use Rattle.std.specs.Prelude.{◌≡◌, true};
ghost use Rattle.volume.specs.Slips.{slip_number, slip_with};

use crate::refusal::Refusal;

// What binds a slip. Whoever lets a bond go has to prove that it is undone, and that of a slip never is. So a slip could not be let go if
// it were `Drop`.
struct Bond<const UNDONE: bool>;

impl<const UNDONE: bool> Drop for Bond<UNDONE> {
    fn drop(self)
        requires { UNDONE ≡ true }
    {
        let Self = self;
    }
}

impl<const UNDONE: bool> Bond<UNDONE> {
    fn undo(self) {
        let Self = self;
    }
}

// A slip, with the number of the volume that gave it out. It is not `Drop`, so nobody can let it go: only keep and leave take it.
pub struct Slip {
    number: u32,
    bond: Bond<false>,
}

impl Slip {
    pub(crate) fn of(number: u32) -> Slip
        ensures { result ≡ slip_with number }
    {
        Slip { number, bond: Bond }
    }

    // What becomes of a slip that has been taken.
    pub(crate) fn spend(self) {
        let Slip { number: _, bond } = self;
        bond.undo();
    }

    pub fn number(&self) -> u32
        ensures { result ≡ slip_number self.now }
    {
        self.number
    }
}

// A slip that was not taken, and why.
pub struct Unspent {
    pub refusal: Refusal,
    pub slip: Slip,
}
