// The number of a tray, and its hash.
ghost use Rattle.std.specs.Prelude.{◌≤◌};

// The number of a tray, 1 to 4294967295. It, the number of blocks and the sequence number are types of their own, each as wide as its
// values: one generic type over their bounds would hold all in 64 bits, and read no plainer.
#[derive(Clone, Copy, PartialEq, Eq, Debug)]
pub struct TrayNumber {
    pub value: u32,
    ghost low: { 1 ≤ value },
}

// The hash of a tray, with what makes it this tray's own.
#[derive(Clone, Copy)]
pub enum HashChoice {
    // SHA-256 of a salt and then the block. The salt is no secret.
    Sha256 { salt: [u8; 16] },
    // SipHash-2-4 under a key. Who knows the key can make other blocks with the same image.
    SipHash { key: [u8; 16] },
}
