ghost use Rattle.std.specs.Prelude.{◌≡◌, Some, None, MatchResult};
ghost use Rattle.march_core.specs.inner.Scan.{scan_of, StopsAt, refusal_of};
ghost use Rattle.march_core.specs.March.{all_ops};
ghost use Rattle.march_core.specs.Operation.{IsConsistent};
ghost use Rattle.march_core.specs.Building.{IsFilled, IsRefused};

use crate::element::Element;
use crate::fault::MarchFault;
use crate::operation::Op;

/// A read that expects another bit than was written last.
#[derive(Clone, Copy)]
struct WrongRead {
    op: usize,
    last: Option<bool>,
}

/// The bit that was written last after these operations, or the first read that expects another.
fn scan(mut last: Option<bool>, ops: &[Op]) -> Result<Option<bool>, WrongRead>
    ensures { MatchResult result (λ after. scan_of last ops.now ≡ Some after) (λ wrong. StopsAt last ops.now wrong.op wrong.last) }
{
    for (index, op) in ops.iter().enumerate() {
        match op.written() {
            Some(bit) => last = Some(bit),
            None => {
                if op.expected() != last {
                    return Err(WrongRead { op: index, last });
                }
            }
        }
    }
    Ok(last)
}

/// Names the refusal of a wrong read: whether anything was written before it decides.
fn refusal(element: usize, wrong: WrongRead) -> MarchFault
    ensures { result ≡ refusal_of element wrong.op wrong.last }
{
    match wrong.last {
        None => MarchFault::ReadBeforeWrite {
            element,
            op: wrong.op,
        },
        Some(_) => MarchFault::WrongExpect {
            element,
            op: wrong.op,
        },
    }
}

/// Whether each read expects what was written last; where one doesn't, the refusal of the first.
pub(crate) fn check_reads(elements: &[Element]) -> Result<(), MarchFault>
    requires { IsFilled elements.now }
    ensures { MatchResult result (λ _. IsConsistent (all_ops elements.now)) (λ fault. IsRefused elements.now fault) }
{
    let mut last = None;
    for (number, element) in elements.iter().enumerate() {
        match scan(last, element.ops()) {
            Ok(after) => last = after,
            Err(wrong) => return Err(refusal(number, wrong)),
        }
    }
    Ok(())
}
