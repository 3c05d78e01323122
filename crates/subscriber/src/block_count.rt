// How many blocks a tray has.
ghost use Rattle.std.specs.Prelude.{◌≤◌};

// How many blocks a tray has, 1 to 4096.
#[derive(Clone, Copy, PartialEq, Eq, Debug)]
pub struct BlockCount {
    pub value: u16,
    ghost low: { 1 ≤ value },
    ghost high: { value ≤ 4096 },
}
