ghost use Rattle.std.specs.Prelude.{◌≡◌, ◌↔◌, Ok, Err, false};
ghost use Rattle.bist_text.specs.Machine.{scan};
ghost use Rattle.fault_core.specs.Primitive.{Primitive};
ghost use Rattle.fault_syntax.specs.inner.Answers.{fault_at, JudgesAt, GivesPrim};
ghost use Rattle.fault_syntax.specs.Answers.{ReadsPrim};
ghost use Rattle.fault_syntax.specs.Brief.{read_parts_of};
ghost use Rattle.fault_syntax.specs.inner.Places.{step, value, start};
ghost use Rattle.fault_syntax.specs.PrimText.{PrimParts, PrimText};

use crate::fault::FaultFault;
use crate::judge::judge;
use crate::reader::{ReadItem, ReadParts, Refusal, read_item};
use crate::words::Form;
use fault_core::{Prim, PrimFault};

fn at_line(fault: PrimFault, line: usize) -> FaultFault
    ensures { result ≡ fault_at line fault }
{
    match fault {
        PrimFault::NotAFault => FaultFault::NotAFault { line },
        PrimFault::TooManyOperations => FaultFault::TooManyOperations { line },
    }
}

/// The primitive of parts that were read on a line.
pub(crate) fn judge_at(parts: ReadParts, line: usize) -> Result<Prim, FaultFault>
    ensures { (text : PrimParts) → parts ≡ read_parts_of text → JudgesAt line text result }
{
    match judge(parts) {
        Ok(prim) => Ok(prim),
        Err(fault) => Err(at_line(fault, line)),
    }
}

fn scanned(bytes: &[u8]) -> Result<Prim, FaultFault>
    ensures { GivesPrim (scan (step Form.Single) (value Form.Single) bytes.now start 0) result }
{
    match read_item(bytes, Form::Single) {
        Ok(item) => match item {
            ReadItem::Primitive(parts) => judge_at(parts, 1),
            ReadItem::Nothing => unreachable!(),
            ReadItem::Named(_) => unreachable!(),
        },
        Err(Refusal::Unexpected(byte)) => Err(FaultFault::Unexpected { line: 1, byte }),
        Err(Refusal::Truncated) => Err(FaultFault::Truncated { line: 1 }),
    }
}

/// Reads a text that is one primitive with blanks round it. Its line is 1.
pub fn read_prim(bytes: &[u8]) -> Result<Prim, FaultFault>
    // A primitive is read exactly where the bytes are a text that stands for it.
    ensures ok { (p : Primitive) → (result ≡ Ok p) ↔ ReadsPrim bytes.now (Ok p) }

    // F1 to F4, exactly where they come first.
    ensures refused { (fault : FaultFault) → (result ≡ Err fault) ↔ ReadsPrim bytes.now (Err fault) }

    // A text has no two readings.
    ensures one_reading { (text : PrimParts) (other : PrimParts) → PrimText bytes.now text → PrimText bytes.now other → text ≡ other }
{
    scanned(bytes)
}
