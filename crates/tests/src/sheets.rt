// Sheets and what is said of them, by the rules in docs/SHEET.md.
use sim::Sim;
use std::alloc::Global;
use std::process::Abort;
use std::test::Fail;
use subscriber::read::read_sheet;
use subscriber::tray::HashChoice;

// A bad sheet, and the line that its reader sees.
const REFUSALS: [(&str, &str); 42] = [
    (
        "tray 1\nslot 2\n",
        "line 2: the first word is none of tray, hash, blocks and sim",
    ),
    (
        " # tray 1\n",
        "line 1: the first word is none of tray, hash, blocks and sim",
    ),
    ("tray\n", "line 1: wrong number of words (tray NUMBER)"),
    (
        "hash sha256 ",
        "line 1: wrong number of words (hash sha256 SALT or hash siphash KEY)",
    ),
    (
        "hash siphash",
        "line 1: wrong number of words (hash sha256 SALT or hash siphash KEY)",
    ),
    (
        "blocks 1 2",
        "line 1: wrong number of words (blocks NUMBER)",
    ),
    (
        "sim 901700000000001 3",
        "line 1: wrong number of words (sim IDENTITY KEY-INDEX SEQUENCE-NUMBER)",
    ),
    (
        "\r\n# a tray\ntray 1a",
        "line 3: tray number is not written in decimal digits",
    ),
    (
        "blocks +1",
        "line 1: number of blocks is not written in decimal digits",
    ),
    (
        "sim 901700000000001 -1 0",
        "line 1: key index is not written in decimal digits",
    ),
    (
        "sim 901700000000001 3 0x1",
        "line 1: sequence number is not written in decimal digits",
    ),
    (
        "tray 0",
        "line 1: tray number out of range (1 to 4294967295)",
    ),
    (
        "tray 4294967296",
        "line 1: tray number out of range (1 to 4294967295)",
    ),
    (
        "tray 18446744073709551617",
        "line 1: tray number out of range (1 to 4294967295)",
    ),
    (
        "blocks 0",
        "line 1: number of blocks out of range (1 to 4096)",
    ),
    (
        "blocks 4097",
        "line 1: number of blocks out of range (1 to 4096)",
    ),
    (
        "sim 901700000000001 65536 0",
        "line 1: key index out of range (0 to 65535)",
    ),
    (
        "sim 901700000000001 3 281474976710656",
        "line 1: sequence number out of range (0 to 281474976710655)",
    ),
    (
        "sim 12345 0 0",
        "line 1: identity is not 6 to 20 digits long",
    ),
    (
        "sim 123456789012345678901 0 0",
        "line 1: identity is not 6 to 20 digits long",
    ),
    (
        "sim 12345a 0 0",
        "line 1: identity has something else than decimal digits",
    ),
    (
        "hash md5 000102030405060708090a0b0c0d0e0f",
        "line 1: unknown hash (sha256 or siphash)",
    ),
    (
        "hash SHA256 000102030405060708090a0b0c0d0e0f",
        "line 1: unknown hash (sha256 or siphash)",
    ),
    (
        "hash sha256 000102030405060708090a0b0c0d0e0",
        "line 1: salt or key is not 32 hexadecimal digits long",
    ),
    (
        "hash sha256 0x0102030405060708090a0b0c0d0e0f",
        "line 1: salt or key has something else than hexadecimal digits",
    ),
    (
        "hash siphash 000102030405060708090a0b0c0d0e0",
        "line 1: salt or key is not 32 hexadecimal digits long",
    ),
    (
        "hash siphash 000102030405060708090a0b0c0d0e0f0",
        "line 1: salt or key is not 32 hexadecimal digits long",
    ),
    (
        "hash siphash 000102030405060708090a0b0c0d0e0g",
        "line 1: salt or key has something else than hexadecimal digits",
    ),
    ("", "line 1: tray is missing"),
    ("tray 1\n\n", "line 3: hash is missing"),
    (
        "tray 1\nhash siphash 000102030405060708090a0b0c0d0e0f",
        "line 3: blocks is missing",
    ),
    (
        "blocks 1\nsim 123456 0 0\ntray 1",
        "line 2: tray is missing",
    ),
    ("tray 1\ntray 1", "line 2: tray stands twice"),
    (
        "hash siphash 000102030405060708090a0b0c0d0e0f\nhash siphash 000102030405060708090a0b0c0d0e0f",
        "line 2: hash stands twice",
    ),
    (
        "hash sha256 000102030405060708090a0b0c0d0e0f\nhash siphash 000102030405060708090a0b0c0d0e0f",
        "line 2: hash stands twice",
    ),
    ("blocks 1\nblocks 2", "line 2: blocks stands twice"),
    (
        "tray 1\nblocks 1\nhash siphash 000102030405060708090a0b0c0d0e0f\nsim 123456 0 0\ntray 1",
        "line 5: tray stands after the first sim",
    ),
    (
        "tray 1\nblocks 1\nhash siphash 000102030405060708090a0b0c0d0e0f\nsim 123456 0 0\nhash siphash 000102030405060708090a0b0c0d0e0f",
        "line 5: hash stands after the first sim",
    ),
    (
        "tray 1\nblocks 1\nhash siphash 000102030405060708090a0b0c0d0e0f\nsim 123456 0 0\nblocks 1",
        "line 5: blocks stands after the first sim",
    ),
    (
        "tray 1\nblocks 1\nhash siphash 000102030405060708090a0b0c0d0e0f\nsim 123456 0 0\nsim 123456 0 0",
        "line 5: more SIMs than blocks",
    ),
    (
        "sim 12345a 0 0\nslot",
        "line 1: identity has something else than decimal digits",
    ),
    (
        "tray 1 # first\n",
        "line 1: wrong number of words (tray NUMBER)",
    ),
];

#[test]
fn refusals(rt: HostRuntime) -> Result<(), Fail> {
    for (text, told) in &REFUSALS {
        let Err(error) = read_sheet(rt.alloc(), text.as_bytes()) else {
            panic!(rt; "a bad sheet is read: {}", *text);
        };
        assert_eq!(rt; error.to_string(rt.alloc())?.as_str(), *told, "{}", *text);
    }
    Ok(())
}

// Compares a SIM of a sheet with what the sheet has.
fn check_sim(
    rt: &impl Abort,
    heap: Global,
    sim: &Sim,
    identity: &str,
    key: u16,
    sequence: u64,
) -> Result<(), Fail> {
    assert_eq!(rt; sim.identity.to_string(heap)?.as_str(), identity);
    assert_eq!(rt; sim.key, key);
    assert_eq!(rt; sim.sequence.value, sequence);
    Ok(())
}

#[test]
fn good_sheet(rt: HostRuntime) -> Result<(), Fail> {
    let text =
        "# a tray\r\nblocks 0064\r\n\thash  siphash\t000102030405060708090A0b0c0d0e0f \r\n\r\ntray 42\nsim 901700000000001 3 4711\n \nsim 89490200001234567890 65535 281474976710655";
    let sheet = read_sheet(rt.alloc(), text.as_bytes())?;
    assert_eq!(rt; sheet.tray.value, 42);
    assert_eq!(rt; sheet.blocks.value, 64);
    let HashChoice::SipHash { key } = sheet.hash else {
        return Err(Fail::new("another hash"));
    };
    assert_eq!(rt; key, [0, 1, 2, 3, 4, 5, 6, 7, 8, 9, 10, 11, 12, 13, 14, 15]);
    let [first, second] = sheet.sims.as_slice() else {
        return Err(Fail::new("not two SIMs"));
    };
    check_sim(&rt, rt.alloc(), first, "901700000000001", 3, 4711)?;
    check_sim(
        &rt,
        rt.alloc(),
        second,
        "89490200001234567890",
        65535,
        281474976710655,
    )
}
