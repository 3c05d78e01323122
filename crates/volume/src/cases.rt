// Worked cases of the rules, small enough to be counted by hand.
ghost use Rattle.std.specs.Prelude.{◌≡◌, ◌≤◌, ◌∷◌, []};
ghost use Rattle.geometry.specs.Geometry.{total};
ghost use Rattle.volume.specs.Cases.{WorkedCases};

use geometry::Geometry;

// How many blocks the tree has, over 1, 16, 17, 256, 257 and 4096 data blocks. The rules of the tree's places, of offsets, mirrors and
// caches are worked out on cases too.
pub fn worked_cases() -> [usize; 6]
    ensures totals { result ≡ 1 ∷ 1 ∷ 3 ∷ 17 ∷ 20 ∷ 273 ∷ [] }
    ensures cases { WorkedCases }
{
    [
        total_over(1),
        total_over(16),
        total_over(17),
        total_over(256),
        total_over(257),
        total_over(4096),
    ]
}

fn total_over(blocks: usize) -> usize
    requires least { 1 ≤ blocks }
    requires most { blocks ≤ 4096 }
    ensures { result ≡ total blocks }
{
    let Some(geometry) = Geometry::new(blocks) else {
        unreachable!()
    };
    geometry.total()
}
