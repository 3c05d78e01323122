// Both hashes over blocks, and the example that the authors of SipHash work through.
use digest::hash::Hash;
use digest::sha256::SaltedSha256;
use digest::siphash::{SipHash, siphash_2_4};
use std::test::Fail;

// The authors' key, and a salt.
const BYTES: [u8; 16] = [0, 1, 2, 3, 4, 5, 6, 7, 8, 9, 10, 11, 12, 13, 14, 15];

#[test]
fn published_example(rt: HostRuntime) {
    assert_eq!(rt; siphash_2_4(&BYTES, &BYTES[0..15]), 0xa129ca6149be45e5);
}

// Two blocks, and their cells by Python's hashlib and by libsodium.
#[test]
fn images(rt: HostRuntime) -> Result<(), Fail> {
    let mut counted = [0u8; 512];
    for (i, byte) in counted.iter_mut().enumerate() {
        *byte = (i % 256) as u8;
    }
    let cases = [
        (
            [0u8; 512],
            "c4db08f53b17da1e2a3a2a941678b126137192adc7b8e4910c3c85e311da9d54",
            "bc675b1c54ab278c000000000000000000000000000000000000000000000000",
        ),
        (
            counted,
            "a7533261af4b51efadd0209ba0c57c8543ec2371f5d5c764555d2c99ed6b593f",
            "0eda5ae5c3573b88000000000000000000000000000000000000000000000000",
        ),
    ];
    for (block, sha, sip) in &cases {
        let cell = hex::encode(rt.alloc(), SaltedSha256::new(BYTES).image_of(block))?;
        assert_eq!(rt; cell.as_str(), *sha);
        let cell = hex::encode(rt.alloc(), SipHash::new(BYTES).image_of(block))?;
        assert_eq!(rt; cell.as_str(), *sip);
    }
    Ok(())
}

#[test]
fn kinds(rt: HostRuntime) {
    assert_eq!(rt;
        (SaltedSha256::kind_number(), SaltedSha256::cell_length()),
        (1, 32)
    );
    assert_eq!(rt; (SipHash::kind_number(), SipHash::cell_length()), (2, 8));
}
