// What a hash is to the tree and the volume above it.
ghost use Rattle.std.specs.Prelude.{◌≡◌, ℕ, ◌≤◌, List};
ghost use Rattle.digest.specs.Cell.{IsCell};

// A block is 512 bytes on every device, and its image, a cell, 32 bytes in every tree.
pub trait Hash {
    // The number that names this hash on a label, and in the trusted register of a volume, 1 to 255. It is no enum, since
    // any crate may add a hash.
    const KIND: u8;

    // The two numbers as clauses and laws name them.
    ghost KIND: { ℕ };

    // How many bytes of a cell carry the hash, 1 to 32; the others are zero.
    const LENGTH: usize;

    ghost LENGTH: { ℕ };

    // The cell of a block: the same each time for one hash value.
    ghost image: { Self → List ℕ → List ℕ };

    fn image_of(&self, block: &[u8; 512]) -> [u8; 32]
        ensures { result ≡ image self.now block.now };

    ghost numbered: { (1 ≤ KIND) × (KIND ≤ 255) };

    ghost sized: { (1 ≤ LENGTH) × (LENGTH ≤ 32) };

    ghost cell: { (h : Self) (block : List ℕ) → IsCell LENGTH (image h block) };

    final fn kind_number() -> u8
        ensures { result ≡ KIND }
    {
        Self::KIND
    }

    final fn cell_length() -> usize
        ensures { result ≡ LENGTH }
    {
        Self::LENGTH
    }
}
