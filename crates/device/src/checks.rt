// What every source looks at first, itself: the number, then the way.
ghost use Rattle.std.specs.Prelude.{◌≡◌, IsErr};
ghost use Rattle.device.specs.Checks.{number_check, read_check};
ghost use Rattle.device.specs.Zeros.{zeros};

use crate::fault::Fault;

pub(crate) fn check_number(blocks: usize, number: usize) -> Result<(), Fault>
    ensures { result ≡ number_check blocks number }
{
    if number < blocks {
        Ok(())
    } else {
        Err(Fault::past_end(number))
    }
}

// For a read: a refusal blanks the area.
#[tactic(auto, unfolding(crate::specs::Zeros::zeros))]
pub(crate) fn check_read(
    blocks: usize,
    ways: usize,
    way: usize,
    number: usize,
    area: &mut [u8; 512],
) -> Result<(), Fault>
    ensures answer { result ≡ read_check blocks ways way number }
    ensures blank { IsErr result → area.new ≡ zeros }
{
    let checked = check_both(blocks, ways, way, number);
    if checked.is_err() {
        *area = [0; 512];
    }
    checked
}

fn check_both(blocks: usize, ways: usize, way: usize, number: usize) -> Result<(), Fault>
    ensures { result ≡ read_check blocks ways way number }
{
    check_number(blocks, number)?;
    if way < ways {
        Ok(())
    } else {
        Err(Fault::past_ways(way))
    }
}
