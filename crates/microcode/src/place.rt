ghost use Rattle.std.specs.Prelude.{◌≡◌, ◌+◌, ◌<◌, List, Some, if◌then◌else◌, length, slice_get};
ghost use Rattle.march_core.specs.March.{MarchElement};
ghost use Rattle.microcode.specs.Places.{IsExtent};
ghost use Rattle.microcode.specs.Running.{IsAt, IsSomewhere, IsBehind};

use crate::code::Instr;

/// How often the parts of a march are gone through: an element at each word, a pause for so many cycles, and the whole in so
/// many runs.
#[derive(Clone, Copy)]
pub struct Extent {
    pub words: u32,
    pub pause: u32,
    pub runs: usize,
}

/// Where in a code its run stands: four digits, and the number of the element's first instruction.
#[derive(Clone, Copy)]
pub struct CodePlace {
    pub first: usize,
    pub oper: usize,
    pub visit: u32,
    pub element: usize,
    pub back: usize,
}

/// The first place.
pub const FIRST: CodePlace = CodePlace {
    first: 0,
    oper: 0,
    visit: 0,
    element: 0,
    back: 0,
};

/// The instruction of a place.
pub fn instr_at(code: &[Instr], place: CodePlace) -> Instr
    requires { place.first + place.oper < length code.now }
    ensures { slice_get code.now (place.first + place.oper) ≡ Some result }
{
    code[place.first + place.oper]
}

/// How many visits an element makes.
fn visits(extent: Extent, pause: bool) -> u32
    ensures { result ≡ (if pause then extent.pause else extent.words) }
{
    if pause { extent.pause } else { extent.words }
}

/// The place behind a place, unless the run ends there.
pub fn place_behind(code: &[Instr], extent: Extent, place: CodePlace) -> Option<CodePlace>
    requires extent { IsExtent extent }
    requires place { IsSomewhere code.now extent place }
    ensures { (march : List MarchElement) → IsAt march code.now extent place → IsBehind march code.now extent place result }
{
    let count = code.len();
    let instr = instr_at(code, place);
    let visits = visits(extent, instr.pause);
    if !instr.last {
        return Some(CodePlace {
            oper: place.oper + 1,
            ..place
        });
    }
    if place.visit + 1 < visits {
        return Some(CodePlace {
            oper: 0,
            visit: place.visit + 1,
            ..place
        });
    }
    let behind = place.first + place.oper + 1;
    if behind < count {
        return Some(CodePlace {
            first: behind,
            oper: 0,
            visit: 0,
            element: place.element + 1,
            back: place.back,
        });
    }
    if place.back + 1 < extent.runs {
        return Some(CodePlace {
            back: place.back + 1,
            ..FIRST
        });
    }
    None
}
