// A SIM's block, worked out by hand from the rules in docs/SHEET.md.
use sim::Sim;
use sim::block::{decode, encode};
use sim::identity::Identity;
use sim::sequence::Sequence;
use std::test::Fail;

#[test]
fn block_and_back(rt: HostRuntime) -> Result<(), Fail> {
    let Some(identity) = Identity::new(b"901700000000001") else {
        return Err(Fail::new("a good identity is refused"));
    };
    let Some(sequence) = Sequence::new(4711) else {
        return Err(Fail::new("a good sequence number is refused"));
    };
    let sim = Sim {
        identity,
        key: 259,
        sequence,
    };
    let block = encode(&sim);
    assert_eq!(rt; &block[0..15], b"901700000000001".as_slice());
    assert_eq!(rt;
        &block[15..32],
        [0, 0, 0, 0, 0, 3, 1, 0, 0, 0x67, 0x12, 0, 0, 0, 0, 0, 0].as_slice()
    );
    assert_eq!(rt; decode(&block), Some(sim));
    // a byte that has to be zero, and one that has to be a digit
    for i in [0, 15, 22, 23, 30, 31, 32, 511] {
        let mut wrong = block;
        if let Some(b) = wrong.get_mut(i) {
            *b = 1;
        }
        assert_eq!(rt; decode(&wrong), None);
    }
    assert!(rt; Identity::new(b"12345").is_none());
    assert!(rt; Identity::new(b"123456789012345678901").is_none());
    assert!(rt; Identity::new(b"12345x").is_none());
    assert!(rt; Sequence::new(281474976710656).is_none());
    Ok(())
}
