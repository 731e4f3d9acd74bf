//! Why a module isn't run as a self-test.

ghost use Rattle.std.specs.Prelude.{IfNone, IfSome, map};
ghost use Rattle.verilog_tree.specs.Plain.{plain_port};
ghost use Rattle.self_test.specs.Refusals.{IsShort, IsTooLong, Refuses};
ghost use Rattle.self_test.specs.WrongPort.{ArePorts};

use crate::naming::wrong_port;
use march_core::March;
use memory_desc::Memory;
use verilog_tree::{Name, Port};
use word_march::cycle_count;

/// The longest run, in cycles.
const CYCLE_LIMIT: u64 = 2_000_000;

/// Why a module isn't run as a self-test.
#[derive(Clone, Copy, Debug, PartialEq, Eq)]
pub enum RunFault {
    /// B1: the run takes so many cycles, more than 2,000,000.
    TooLong { cycles: u64 },
    /// B2: this port is missing, goes another way or has another width; or else it is one too many.
    WrongPorts { name: Name },
}

/// How many cycles the self-test takes, if they are more than 2,000,000.
pub fn too_long(march: &March, memory: &Memory) -> Option<u64>
    ensures short { IfNone result (IsShort march.now memory.now) }
    ensures long { IfSome result (IsTooLong march.now memory.now) }
{
    let cycles = cycle_count(march, memory);
    if cycles > CYCLE_LIMIT {
        Some(cycles)
    } else {
        None
    }
}

/// Why a module with these ports isn't run, if it isn't: a test that is too long, and then a port that is not as a self-test has it.
pub fn refusal(ports: &[Port], march: &March, memory: &Memory) -> Option<RunFault>
    ensures refuses { Refuses march.now memory.now (map plain_port ports.now) result }
    ensures ports { IfNone result (ArePorts memory.now (map plain_port ports.now)) }
{
    if let Some(cycles) = too_long(march, memory) {
        return Some(RunFault::TooLong { cycles });
    }
    let name = wrong_port(ports, memory)?;
    Some(RunFault::WrongPorts { name })
}
