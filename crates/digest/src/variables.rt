// The eight words that SHA-256 works on.
ghost use Rattle.std.specs.Prelude.{◌≡◌};
ghost use Rattle.digest.specs.Sha256.{digest, initial};

// The working variables a to h; a hash value has its words H0 to H7 in their place. Passed by value, so that they stay in registers.
#[derive(Clone, Copy)]
pub(crate) struct Variables {
    pub(crate) a: u32,
    pub(crate) b: u32,
    pub(crate) c: u32,
    pub(crate) d: u32,
    pub(crate) e: u32,
    pub(crate) f: u32,
    pub(crate) g: u32,
    pub(crate) h: u32,
}

impl Variables {
    // The hash value before a message.
    #[tactic(auto, unfolding(crate::specs::Roots::H0, crate::specs::Sha256::initial))]
    pub(crate) fn initial() -> Variables
        ensures { result ≡ initial }
    {
        Variables {
            a: 0x6a09e667,
            b: 0xbb67ae85,
            c: 0x3c6ef372,
            d: 0xa54ff53a,
            e: 0x510e527f,
            f: 0x9b05688c,
            g: 0x1f83d9ab,
            h: 0x5be0cd19,
        }
    }

    // The digest that a hash value is.
    pub(crate) fn digest(self) -> [u8; 32]
        ensures { result ≡ digest self }
    {
        let mut bytes = [0u8; 32];
        bytes[0..4].copy_from_slice(&self.a.to_be_bytes());
        bytes[4..8].copy_from_slice(&self.b.to_be_bytes());
        bytes[8..12].copy_from_slice(&self.c.to_be_bytes());
        bytes[12..16].copy_from_slice(&self.d.to_be_bytes());
        bytes[16..20].copy_from_slice(&self.e.to_be_bytes());
        bytes[20..24].copy_from_slice(&self.f.to_be_bytes());
        bytes[24..28].copy_from_slice(&self.g.to_be_bytes());
        bytes[28..32].copy_from_slice(&self.h.to_be_bytes());
        bytes
    }
}
