// Worked out by hand from the rules in docs/TREE.md, and by libsodium where images are compared.
use digest::siphash::SipHash;
use geometry::Geometry;
use std::test::Fail;
use tree::contents::{Contents, PastEnd};
use tree::layout::Tree;

#[test]
fn sizes(rt: HostRuntime) -> Result<(), Fail> {
    // N, levels, blocks of the tree, start of level 0
    let table = [
        (1, 1, 1, 0),
        (16, 1, 1, 0),
        (17, 2, 3, 1),
        (64, 2, 5, 1),
        (256, 2, 17, 1),
        (257, 3, 20, 3),
        (4096, 3, 273, 17),
    ];
    for (blocks, levels, total, start) in table {
        let Some(geometry) = Geometry::new(blocks) else {
            return Err(Fail::new("a size in range is refused"));
        };
        assert_eq!(rt; geometry.blocks, blocks);
        assert_eq!(rt; geometry.levels(), levels);
        assert_eq!(rt; geometry.total(), total);
        assert_eq!(rt; geometry.start(0), Some(start));
        assert_eq!(rt; geometry.width(levels - 1), Some(1));
        assert_eq!(rt; geometry.width(levels), None);
    }
    assert!(rt; Geometry::new(0).is_none());
    assert!(rt; Geometry::new(4097).is_none());
    Ok(())
}

#[test]
fn places(rt: HostRuntime) -> Result<(), Fail> {
    let Some(geometry) = Geometry::new(257) else {
        return Err(Fail::new("257 is refused"));
    };
    assert_eq!(rt; geometry.place(0, 256), Some((19, 0)));
    assert_eq!(rt; geometry.place(1, 256), Some((2, 0)));
    assert_eq!(rt; geometry.place(2, 256), Some((0, 1)));
    assert_eq!(rt; geometry.place(0, 255), Some((18, 15)));
    assert_eq!(rt; geometry.place(3, 256), None);
    assert_eq!(rt; geometry.place(0, 257), None);
    Ok(())
}

// The images on the way up from data block 256 stand at its places, in the tree block and in the cell.
#[test]
fn images_at_their_places(rt: HostRuntime) -> Result<(), Fail> {
    let Some(geometry) = Geometry::new(257) else {
        return Err(Fail::new("257 is refused"));
    };
    let mut contents = Contents::zeros(rt.alloc(), geometry)?;
    assert_eq!(rt; contents.put(256, &[7; 512]), Ok(()));
    let hash = SipHash::new([0, 1, 2, 3, 4, 5, 6, 7, 8, 9, 10, 11, 12, 13, 14, 15]);
    let tree = Tree::over(rt.alloc(), &hash, &contents)?;
    let images = [
        [126, 112, 24, 170, 85, 61, 153, 81],
        [39, 210, 144, 113, 176, 212, 248, 77],
        [97, 165, 69, 175, 15, 125, 148, 67],
    ];
    for (level, image) in images.iter().enumerate() {
        let Some((number, cell)) = geometry.place(level, 256) else {
            return Err(Fail::new("a block that is there has no place"));
        };
        let Some(block) = tree.blocks.get(number) else {
            return Err(Fail::new("a place is past the end"));
        };
        let (cells, _) = block.as_chunks::<32>();
        let Some(found) = cells.get(cell) else {
            return Err(Fail::new("a tree block has too few cells"));
        };
        assert_eq!(rt; &found[..8], image.as_slice());
        assert_eq!(rt; &found[8..], [0; 24].as_slice());
    }
    Ok(())
}

#[test]
fn contents_of_three_blocks(rt: HostRuntime) -> Result<(), Fail> {
    let Some(geometry) = Geometry::new(3) else {
        return Err(Fail::new("3 is refused"));
    };
    let mut contents = Contents::zeros(rt.alloc(), geometry)?;
    let block = [7; 512];
    assert_eq!(rt; contents.put(1, &block), Ok(()));
    assert_eq!(rt; contents.put(3, &block), Err(PastEnd { at: 3 }));
    assert_eq!(rt;
        contents.blocks.as_slice(),
        [[0; 512], block, [0; 512]].as_slice()
    );
    assert_eq!(rt; contents.geometry().blocks, 3);
    Ok(())
}
