ghost use Rattle.std.specs.Prelude.{◌≡◌, ◌<◌, ◌≤◌, ℕ, Bool, IsTrue, not, None, is_some, MatchOption, length};
ghost use Rattle.march_core.specs.March.{IsMarch};
ghost use Rattle.escape_array.specs.Escapes.{content_number};
ghost use Rattle.decoder_faults.specs.Detection.{DetectsAmong};
ghost use Rattle.decoder_faults.specs.Escapes.{addresses_of, IsVerdict, IsVerdictAt};
ghost use Rattle.decoder_faults.specs.Conditions.{meets, turns_up_and_down};
ghost use Rattle.decoder_faults.specs.Lines.{DetectsStuckLines};
ghost use Rattle.decoder_faults.specs.inner.Searching.{addresses_in, start_in, NoneBefore, IsLeastIn};

use crate::fault::DecoderFault;
use crate::pair::Cells;
use cell_machine::Pair;
use march_core::March;
use pair_tracker::{DeadEnds, word_through};

/// An array of two cells whose address decoder has a fault, its content (cell 0 first), and a direction word.
#[derive(Clone, Copy, PartialEq, Eq)]
pub struct DecoderEscape {
    pub fault: DecoderFault,
    /// The address x of the fault, 0 or 1.
    pub x: u8,
    /// The address y, the other one.
    pub y: u8,
    pub content: [bool; 2],
    /// Element `i` stands at bit `63-i`, with 1 for downward.
    pub directions: u64,
}

/// None exactly where the fault is caught at every two addresses, in every array of at least two cells, from every
/// content and for every choice of directions. For each single size from 2 the verdict is the same, and a fault that is
/// caught so is caught beside whatever else is wrong with the decoder: with `OtherCell` a stuck line is. Else the least
/// array of two cells that passes.
///
/// Single elements decide: it is None exactly where one of them catches the fault with x below y, and one with x above.
/// Each fault is caught where an element that goes up turns a bit, and one that goes down turns the other.
pub fn least_decoder_escape(march: &March, fault: DecoderFault) -> Option<DecoderEscape>
    ensures verdict { IsVerdict march.now fault result }
    ensures each_size { (size : ℕ) → 2 ≤ size → IsVerdictAt size march.now fault result }
    ensures among_others { result ≡ None → DetectsAmong march.now fault }
    ensures stuck_lines { fault ≡ DecoderFault.OtherCell → result ≡ None → DetectsStuckLines march.now }
    ensures by_elements { is_some result ≡ not (meets march.now fault) }
    ensures classic { (bit : Bool) → IsTrue (turns_up_and_down bit march.now) → result ≡ None }
{
    march.known();
    match least_in(march, fault, true) {
        Some(escape) => Some(escape),
        None => least_in(march, fault, false),
    }
}

/// The least escape by whether x has the lower address. The contents share what is found out of dead ends.
fn least_in(march: &March, fault: DecoderFault, is_below: bool) -> Option<DecoderEscape>
    ensures { MatchOption result (NoneBefore march.now fault is_below 4) (λ e. IsLeastIn march.now fault is_below e) }
{
    march.known();
    let cells = Cells { fault, is_below };
    let mut dead_ends = DeadEnds::unknown();
    for number in 0..4 {
        let content = content_of(number);
        let start = start_in(is_below, content);
        if let Some(directions) = word_through(&cells, march, &mut dead_ends, start) {
            return Some(escape_at(fault, is_below, content, directions));
        }
    }
    None
}

/// The content with this number: the bit of cell 0, then that of cell 1.
fn content_of(number: u8) -> [bool; 2]
    requires { number < 4 }
    ensures number { content_number result ≡ number }
    ensures each_cell { length result ≡ 2 }
{
    [number >= 2, number % 2 == 1]
}

/// The two cells of a content as a pair, cell x first.
fn start_in(is_below: bool, content: [bool; 2]) -> Pair
    ensures { result ≡ start_in is_below content }
{
    if is_below {
        Pair {
            a: content[0],
            v: content[1],
        }
    } else {
        Pair {
            a: content[1],
            v: content[0],
        }
    }
}

fn escape_at(
    fault: DecoderFault,
    is_below: bool,
    content: [bool; 2],
    directions: u64,
) -> DecoderEscape
    ensures fault { result.fault ≡ fault }
    ensures addresses { addresses_of result ≡ addresses_in is_below }
    ensures content { result.content ≡ content }
    ensures directions { result.directions ≡ directions }
{
    let (x, y) = if is_below { (0, 1) } else { (1, 0) };
    DecoderEscape {
        fault,
        x,
        y,
        content,
        directions,
    }
}
