// A tray on a box in memory. The digests are Python's hashlib over what oracle/trial.py prints, which knows no volume.
use digest::sha256::sha256;
use std::alloc::{AllocError, Global};
use std::test::Fail;
use trial::failure::Failure;
use trial::{drill, load};

// A sheet, and the digests of what is printed of its load and of its drill.
const TRIALS: [(&str, &str, &str); 2] = [
    (
        "tray 42\nhash siphash 000102030405060708090a0b0c0d0e0f\nblocks 64\nsim 901700000000001 3 4711\nsim 901700000000002 3 0\n",
        "704f2dbe676e54cc62724b16dfa56d62e797ef6763005dadb0c39fc3d214c640",
        "79e68bde6bd091280d74a792b684a31f1468d151d265e6748893900c49180512",
    ),
    (
        "tray 7\nhash sha256 000102030405060708090a0b0c0d0e0f\nblocks 3\nsim 901700000000001 3 4711\nsim 901700000000002 3 0\nsim 901700000000003 4 5\n",
        "0e4bcfb40d4ec3435e84e7f63a2bce84e8da4ebb4cd26d47e43b21253980d930",
        "3cc5dc8ad4a10318e9a37d20ae5e282a0cd7623bc79c5eef6c261264d29219de",
    ),
];

fn digest_of(heap: Global, text: &str) -> Result<String, AllocError> {
    hex::encode(heap, sha256(text.as_bytes()))
}

#[test]
fn loads_and_drills(rt: HostRuntime) -> Result<(), Fail> {
    let heap = rt.alloc();
    for (sheet, loaded, drilled) in &TRIALS {
        let text = load(heap, sheet.as_bytes())?;
        let digest = digest_of(heap, text.as_str())?;
        assert_eq!(rt; digest.as_str(), *loaded);
        let text = drill(heap, sheet.as_bytes())?;
        let digest = digest_of(heap, text.as_str())?;
        assert_eq!(rt; digest.as_str(), *drilled);
    }
    Ok(())
}

#[test]
fn bad_sheet(rt: HostRuntime) -> Result<(), Fail> {
    let heap = rt.alloc();
    let Err(failure) = load(heap, b"tray 42\nsim 1\n") else {
        return Err(Fail::new("a bad sheet is loaded"));
    };
    let text = format!(in heap; "{failure}")?;
    assert!(rt; text.as_str().starts_with("line 2: "), "{text}");
    assert_eq!(rt;
        drill(heap, b"tray 42\nsim 1\n").err(),
        Some(Failure::Sheet(failure))
    );
    Ok(())
}
