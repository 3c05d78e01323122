// The reader of a sheet.
ghost use Rattle.std.specs.Prelude.{IfOk};
ghost use Rattle.subscriber.specs.Answer.{plain_sheet, Answers};
ghost use Rattle.subscriber.specs.Sheet.{sheet_of, Listed};

use crate::cause::SheetError;
use crate::reading::Reading;
use crate::sheet::Sheet;
use crate::text::Lines;
use std::alloc::Global;

// Reads a sheet, or says which line is refused and why.
#[tactic(auto, using(crate::proofs::Lines::lines_fit), unfolding(crate::specs::Sheet::sheet_of))]
pub fn read_sheet(heap: Global, text: &[u8]) -> Result<Sheet, SheetError>
    ensures answer { Answers (sheet_of text.now) result }
    ensures listed { IfOk result (λ s. Listed text.now (plain_sheet s)) }
{
    let mut reading = Reading::new(heap);
    let mut last = 0;
    for (i, line) in (Lines { text }).enumerate() {
        reading.take_line(line).map_err(|fault| fault.at(i + 1))?;
        last = i + 1;
    }
    // A header that is missing is reported at the line after the last.
    match reading.finish() {
        Ok(sheet) => Ok(sheet),
        Err(cause) => Err(SheetError::Bad {
            line: last + 1,
            cause,
        }),
    }
}
