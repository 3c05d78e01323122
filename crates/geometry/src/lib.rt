// The numbers of the tree over N data blocks: how many levels, how wide, where each starts, and where a block's image stands.
#![tactic(auto)]

ghost use Rattle.std.specs.Prelude.{◌≡◌, ◌<◌, ◌≤◌, MatchOption};
ghost use Rattle.geometry.specs.Geometry.{width, levels, above, start, total, place};

// The most data blocks that a volume has.
pub const MOST: usize = 4096;

// The numbers of a tree over 1 to 4096 data blocks; no other can be made. A level is a plain number that each call looks at: a type of
// its own would have to carry these numbers along, and read no plainer.
#[derive(Clone, Copy)]
pub struct Geometry {
    // The number N of data blocks.
    pub blocks: usize,
    ghost least: { 1 ≤ blocks },
    ghost most: { blocks ≤ 4096 },
}

impl Geometry {
    // The numbers for so many blocks, or `None` where there is no such tree: one way to fail, as at the library's `NonZero::new`.
    pub fn new(blocks: usize) -> Option<Geometry>
        ensures { MatchOption result ((1 ≤ blocks) × (blocks ≤ 4096) → ⊥) (λ g. g.blocks ≡ blocks) }
    {
        if (1..=MOST).contains(&blocks) {
            Some(Geometry { blocks })
        } else {
            None
        }
    }

    // The number of levels: four bits of the highest block number to a level, and one level at least.
    #[tactic(auto, using(crate::proofs::Numbers::levels_from_bits))]
    pub fn levels(&self) -> usize
        ensures { result ≡ levels self.now.blocks }
    {
        // The cast is proved to lose nothing.
        let bits = (usize::BITS - (self.blocks - 1).leading_zeros()) as usize;
        bits.div_ceil(4).max(1)
    }

    // How many blocks a level has.
    pub fn width(&self, level: usize) -> Option<usize>
        ensures { MatchOption result (levels self.now.blocks ≤ level) (λ w. (level < levels self.now.blocks) × (w ≡ width self.now.blocks level)) }
    {
        if level < self.levels() {
            Some(self.width_of(level))
        } else {
            None
        }
    }

    // The number on the tree device of a level's first block: all levels above it come first.
    pub fn start(&self, level: usize) -> Option<usize>
        ensures { MatchOption result (levels self.now.blocks ≤ level) (λ s. (level < levels self.now.blocks) × (s ≡ start self.now.blocks level)) }
    {
        if level < self.levels() {
            Some(self.upper_blocks(level + 1))
        } else {
            None
        }
    }

    // How many blocks the tree has.
    pub fn total(&self) -> usize
        ensures { result ≡ total self.now.blocks }
    {
        self.upper_blocks(0)
    }

    // The place of data block `block` at a level: the tree block's number on the tree device, and the cell in it. A pair, as its
    // definition is, so that one equation says both.
    #[tactic(auto, using(crate::proofs::Numbers::levels_most, crate::proofs::Numbers::above_most, crate::proofs::Numbers::place_shifted, std::proofs::lemmas::Nat::shr_le))]
    pub fn place(&self, level: usize, block: usize) -> Option<(usize, usize)>
        ensures { MatchOption result ((level < levels self.now.blocks) × (block < self.now.blocks) → ⊥) (λ p. (level < levels self.now.blocks) × (block < self.now.blocks) × (p ≡ place self.now.blocks level block)) }
    {
        if level < self.levels() && block < self.blocks {
            let start = self.upper_blocks(level + 1);
            // The cell counts within the level; each level below it took four bits of the block number.
            let cell = block >> (4 * level);
            Some((start + cell / 16, cell % 16))
        } else {
            None
        }
    }

    #[tactic(auto, using(crate::proofs::Numbers::levels_most, crate::proofs::Numbers::width_shifted))]
    fn width_of(&self, level: usize) -> usize
        requires { level < levels self.now.blocks }
        ensures { result ≡ width self.now.blocks level }
    {
        ((self.blocks - 1) >> (4 * level + 4)) + 1
    }

    // How many blocks this level and those above it have.
    fn upper_blocks(&self, level: usize) -> usize
        requires { level ≤ levels self.now.blocks }
        ensures { result ≡ above self.now.blocks level }
    {
        (level..self.levels()).map(|l| self.width_of(l)).sum()
    }
}
