//! The name of a self-test module.
ghost use Rattle.std.specs.Prelude.{◌≡◌};
ghost use Rattle.self_test.specs.SelfTest.{module_name};

use arrayvec::ArrayString;
use memory_desc::Memory;
use verilog_tree::Name;

/// The name of the module of a memory.
pub fn module_of(memory: &Memory) -> Name
    ensures { result.bytes ≡ module_name memory.now.name }
{
    memory.known();
    let mut module = ArrayString::new();
    module.push_str(memory.name());
    module.push_str("_bist");
    module
}
