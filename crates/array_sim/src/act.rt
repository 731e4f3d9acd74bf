ghost use Rattle.std.specs.Prelude.{◌≡◌, ◌≢◌};
ghost use Rattle.array_sim.specs.Run.{act_of};

use fault_core::Act;
use march_core::Op;

/// An operation of a march as an act on a cell: the bit that a read expects plays no part.
pub fn act_of(op: Op) -> Act
    ensures value { result ≡ act_of op }
    ensures operates { result ≢ Act.Pause }
{
    match op {
        Op::W0 => Act::Write(false),
        Op::W1 => Act::Write(true),
        Op::R0 | Op::R1 => Act::Read,
    }
}
