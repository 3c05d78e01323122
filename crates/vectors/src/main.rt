// Runs the hashes against the vectors that were published with them.
#![tactic(auto)]

mod suite;
mod tally;
mod vector;

use anyhow::anyhow;
use std::fs;
use suite::Suite;

// Says how many vectors of a hash agree, and fails where one does not.
fn report(rt: &HostRuntime, suite: Suite) -> anyhow::Result<()> {
    let hash = suite.name();
    let file = suite.file();
    let Ok(text) = fs::read_to_string(rt, file) else {
        return Err(anyhow!(format!(in rt.alloc(); "{file} cannot be read")?));
    };
    let tally = vector::tally(rt.alloc(), suite, text.as_str())?;
    let total = tally.total;
    let agree = tally.agree;
    println!(rt; "{hash}: {agree} of {total} published vectors agree")?;
    match tally.fault {
        None => Ok(()),
        Some(fault) => Err(anyhow!(format!(in rt.alloc(); "{hash}: {fault}")?)),
    }
}

fn main(rt: HostRuntime) -> anyhow::Result<()> {
    report(&rt, Suite::SipHash24)?;
    report(&rt, Suite::Sha256)
}
