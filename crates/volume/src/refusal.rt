// Why a call of the volume is refused.
ghost use Rattle.std.specs.Prelude.{◌≡◌};

use device::fault::Fault;

// One of the volume's two devices.
#[derive(Clone, Copy, PartialEq, Eq, Debug)]
pub enum Side {
    Data = 1,
    Tree = 2,
}

// Where a call got stuck on a device, and why.
#[derive(Clone, Copy, PartialEq, Eq, Debug)]
pub struct Failed {
    pub side: Side,
    // The level of the tree block; 0 for a data block.
    pub level: usize,
    // The block's number on that device.
    pub block: usize,
    // The fault of the last way; none where its bytes did not match.
    pub fault: Option<Fault>,
}

#[derive(Clone, Copy, PartialEq, Eq, Debug)]
pub enum Refusal {
    // The volume is closed.
    Closed,
    // The volume is open.
    Opened,
    // A slip is out.
    SlipOut,
    // The slip has another number, or none is out.
    WrongSlip,
    // No register may have these parts.
    WrongParts,
    // The register was never formatted.
    NeverFormatted,
    // The register's kind is not the hash's.
    OtherKind,
    // The data device has no block, or more than a volume may have.
    DataCount,
    // The register is for another number of data blocks.
    OtherCount,
    // The tree device has fewer blocks than the tree.
    TreeCount,
    // The block area has another length than a block.
    BlockArea,
    // The record area has another length than a record.
    RecordArea,
    // There is no block of this number.
    PastLast,
    // No way of a tree block passes.
    TreeBlock(Failed),
    // No way of the data block passes.
    DataBlock(Failed),
    // A device refused a write.
    Unwritten(Failed),
    // Something is still held back after settling.
    NotClear,
}

impl Side {
    ghost use Rattle.volume.specs.Refusals.{side_number};

    pub fn number(self) -> u8
        ensures { result ≡ side_number self }
    {
        self as u8
    }
}

impl Failed {
    ghost use Rattle.volume.specs.Refusals.{fault_numbers};

    // The cause, place and climbed of the device fault; all zero where the bytes did not match.
    pub fn fault_numbers(self) -> (u8, usize, u8)
        ensures { result ≡ fault_numbers self.fault }
    {
        match self.fault {
            Some(fault) => (fault.cause.number(), fault.place, fault.climbed),
            None => (0, 0, 0),
        }
    }
}

impl Refusal {
    ghost use Rattle.volume.specs.Refusals.{reason, stuck_in};

    // Where the call got stuck, and why, where a device is to blame.
    pub fn failed(self) -> Option<Failed>
        ensures { stuck_in result ≡ (reason self).stuck }
    {
        match self {
            Refusal::TreeBlock(failed) | Refusal::DataBlock(failed) | Refusal::Unwritten(failed) =>
                Some(failed),
            _ => None,
        }
    }

    pub fn number(self) -> u8
        ensures { result ≡ (reason self).number }
    {
        match self {
            Refusal::Closed => 40,
            Refusal::Opened => 41,
            Refusal::SlipOut => 42,
            Refusal::WrongSlip => 43,
            Refusal::WrongParts => 25,
            Refusal::NeverFormatted => 22,
            Refusal::OtherKind => 24,
            Refusal::DataCount => 20,
            Refusal::OtherCount => 23,
            Refusal::TreeCount => 21,
            Refusal::BlockArea => 11,
            Refusal::RecordArea => 12,
            Refusal::PastLast => 10,
            Refusal::TreeBlock(_) => 51,
            Refusal::DataBlock(_) => 52,
            Refusal::Unwritten(_) => 53,
            Refusal::NotClear => 44,
        }
    }
}
