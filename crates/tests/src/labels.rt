// Reports of labels, and cards; what is expected was worked out by oracle/label.py, and the digests of its cards by Python's hashlib.
use digest::sha256::sha256;
use label::{images, label};
use std::test::Fail;

const END: &str =
    "tree: levels 3, blocks 273\nlabel: kind 2, root 12cb019418774507000000000000000000000000000000000000000000000000\n";

// The largest volume, with one SIM in each of its blocks.
#[test]
fn largest_volume(rt: HostRuntime) -> Result<(), Fail> {
    let mut sheet = String::new(rt.alloc());
    sheet.push_str("tray 1\nhash siphash 000102030405060708090a0b0c0d0e0f\nblocks 4096\n")?;
    for _ in 0..4096 {
        sheet.push_str("sim 901700000000001 3 4711\n")?;
    }
    let report = label(rt.alloc(), sheet.as_bytes())?;
    assert!(rt; report.as_str().ends_with(END));
    Ok(())
}

// The digest of the data card, which no hash changes.
const VOLUME: &str = "bf43c733d70453384d3de480a59956cfc5d79681fefd8fe70adade97fdb7e0ab";

// A hash of a sheet, how the report ends under it, and the digest of the tree card.
const CARDS: [(&str, &str, &str); 2] = [
    (
        "sha256",
        "label: kind 1, root 769a049a8edbe5f9a009c2966b691d1f1fc5325f4953a52c2c1bce9f8dc19abc\n",
        "604f3ec1569a577c46cc8de11dbda7b0e59baabc190afe409d0d580454480634",
    ),
    (
        "siphash",
        "label: kind 2, root d966ee133b10a8d5000000000000000000000000000000000000000000000000\n",
        "c496b273040e5cad567defd01a073dde65def373d1f3ef1a1c8c43c3b835cfe3",
    ),
];

#[test]
fn cards(rt: HostRuntime) -> Result<(), Fail> {
    for (hash, end, tree) in &CARDS {
        let sheet = format!(in rt.alloc();
            "tray 42\nhash {hash} 000102030405060708090a0b0c0d0e0f\nblocks 300\nsim 901700000000001 3 4711\nsim 89490200001234567890 65535 281474976710655\n"
        )?;
        let images = images(rt.alloc(), sheet.as_bytes())?;
        assert!(rt; images.report.as_str().ends_with(*end), "{}", *hash);
        let digest = hex::encode(rt.alloc(), sha256(images.volume.as_flattened()))?;
        assert_eq!(rt; digest.as_str(), VOLUME, "{}", *hash);
        let digest = hex::encode(rt.alloc(), sha256(images.tree.as_flattened()))?;
        assert_eq!(rt; digest.as_str(), *tree, "{}", *hash);
    }
    Ok(())
}
