// Why a device refuses.
ghost use Rattle.std.specs.Prelude.{◌≡◌, ◌≤◌};
ghost use Rattle.device.specs.Faults.{past_end, past_ways, refused, higher};

#[derive(Clone, Copy, PartialEq, Eq, Debug)]
pub enum Cause {
    // The number is past the device's last block; the place is the number.
    PastEnd = 1,
    // The way is past the device's ways; the place is the way.
    PastWays = 2,
    // The medium refuses; the place is its own number of the block.
    Medium = 3,
}

impl Cause {
    ghost use Rattle.device.specs.Faults.{cause_number};

    pub fn number(self) -> u8
        ensures value { result ≡ cause_number self }
        ensures range { (1 ≤ result) × (result ≤ 3) }
    {
        self as u8
    }
}

// A source's or a device's refusal.
#[derive(Clone, Copy, PartialEq, Eq, Debug)]
pub struct Fault {
    pub cause: Cause,
    pub place: usize,
    // How many layers have passed the fault up since it started, at most 255.
    pub climbed: u8,
}

impl Fault {
    pub fn past_end(number: usize) -> Fault
        ensures { result ≡ past_end number }
    {
        Fault {
            cause: Cause::PastEnd,
            place: number,
            climbed: 0,
        }
    }

    pub fn past_ways(way: usize) -> Fault
        ensures { result ≡ past_ways way }
    {
        Fault {
            cause: Cause::PastWays,
            place: way,
            climbed: 0,
        }
    }

    pub fn refused(number: usize) -> Fault
        ensures { result ≡ refused number }
    {
        Fault {
            cause: Cause::Medium,
            place: number,
            climbed: 0,
        }
    }

    // The fault as the layer above passes it up.
    pub fn higher(self) -> Fault
        ensures { result ≡ higher self }
    {
        Fault {
            climbed: self.climbed.saturating_add(1),
            ..self
        }
    }
}
