ghost use Rattle.std.specs.Prelude.{◌≡◌};
ghost use Rattle.bist_text.specs.Lines.{plain_line};
ghost use Rattle.fault_syntax.specs.inner.LineReading.{Says};
ghost use Rattle.fault_syntax.specs.LineReading.{LineGives};

use crate::fault::FaultFault;
use crate::reader::{ReadItem, Refusal, read_item};
use crate::words::{AllowedNames, Form};
use bist_text::Line;

/// Reads the text of a line, without its line feed.
fn line_item(text: &[u8], set: AllowedNames) -> Result<ReadItem, Refusal>
    ensures { Says set text.now result }
{
    read_item(text, Form::Listed(set))
}

/// Reads the item of a line of a list that may have these names. A line that ended too early can't be continued at
/// its line feed.
pub fn read_line(line: &Line<'_>, set: AllowedNames) -> Result<ReadItem, FaultFault>
    ensures { LineGives set (plain_line line.now) result }
{
    let number = line.number;
    match line_item(line.text, set) {
        Ok(item) => Ok(item),
        Err(Refusal::Unexpected(byte)) => Err(FaultFault::Unexpected { line: number, byte }),
        Err(Refusal::Truncated) if line.ended => Err(FaultFault::Unexpected {
            line: number,
            byte: line.text.len(),
        }),
        Err(Refusal::Truncated) => Err(FaultFault::Truncated { line: number }),
    }
}
