ghost use Rattle.std.specs.Prelude.{◌≡◌, ◌↔◌, List, Ok, Err};
ghost use Rattle.bist_text.specs.Machine.{scan};
ghost use Rattle.march_core.specs.March.{MarchElement};
ghost use Rattle.march_syntax.specs.Answers.{Reads};
ghost use Rattle.march_syntax.specs.inner.Answers.{Gives};
ghost use Rattle.march_syntax.specs.inner.Building.{CanAdd, Builds};
ghost use Rattle.march_syntax.specs.MarchText.{MarchText};
ghost use Rattle.march_syntax.specs.inner.Places.{step, value, start};

use crate::place::{Event, Place, is_end, next_move};
use march_core::{March, MarchBuilder, MarchFault};

/// Builds an event of the text, unless a limit was exceeded before; gives the first limit that was.
fn build(
    exceeded: Option<MarchFault>,
    builder: &mut MarchBuilder,
    event: Event,
) -> Option<MarchFault>
    requires { CanAdd exceeded event builder.old }
    ensures { Builds exceeded event builder.old result builder.new }
{
    if exceeded.is_some() {
        return exceeded;
    }
    match event {
        Event::Begins(order) => builder.element(order).err(),
        Event::Adds(op) => builder.op(op).err(),
        Event::Waits => builder.pause().err(),
        Event::Quiet | Event::Ends => None,
    }
}

/// Goes over the text once. A limit that is exceeded is answered only behind the whole text.
fn scanned(bytes: &[u8]) -> Result<March, MarchFault>
    ensures { Gives (scan step value bytes.now start 0) result }
{
    let mut place = Place::Start;
    let mut braced = false;
    let mut builder = MarchBuilder::new();
    let mut exceeded = None;
    for (i, byte) in bytes.iter().enumerate() {
        let Some(next) = next_move(place, braced, *byte) else {
            return Err(MarchFault::Unexpected { byte: i });
        };
        place = next.place;
        braced = next.braced;
        exceeded = build(exceeded, &mut builder, next.event);
    }
    if !is_end(place, braced) {
        return Err(MarchFault::Truncated);
    }
    match exceeded {
        Some(fault) => Err(fault),
        None => builder.finish(),
    }
}

/// Reads the text of a march. The grammar comes first, then the limits, then whether each element has
/// operations and each read expects what was written last.
pub fn read_march(bytes: &[u8]) -> Result<March, MarchFault>
    // A march is read exactly where the bytes are its text.
    ensures ok { (march : List MarchElement) → (result ≡ Ok march) ↔ Reads bytes.now (Ok march) }

    // M1 to M8, exactly where they come first, each with its place.
    ensures refused { (fault : MarchFault) → (result ≡ Err fault) ↔ Reads bytes.now (Err fault) }

    // A text has no two readings.
    ensures one_reading { (es : List MarchElement) (fs : List MarchElement) → MarchText bytes.now es → MarchText bytes.now fs → es ≡ fs }
{
    scanned(bytes)
}
