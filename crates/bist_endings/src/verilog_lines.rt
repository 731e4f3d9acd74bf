ghost use Rattle.std.specs.Prelude.{◌≡◌, ◌++◌, OnOk, codes};
ghost use Rattle.bist_endings.specs.Ending.{read_fault_text, names_text, tree_fault_text, verilog_text};

use crate::ending::VerilogRefusal;
use crate::lines::{put_numbered, put_two_numbers};
use bist_bits::NoMemory;
use bist_text::{put, put_between};
use verilog_tree::{Name, ReadFault, TreeFault};

/// Appends a text, a name and a line end.
fn put_named(line: &mut Vec<u8>, text: &[u8], name: &Name) -> Result<(), NoMemory>
    ensures { OnOk result (line.new.items ≡ line.old.items ++ (text.now ++ name.now.bytes ++ codes "\n")) }
{
    put_between(line, text, name.as_str().as_bytes(), b"\n")
}

/// Appends the line of a loop of wires.
fn put_loop(line: &mut Vec<u8>, names: &[Name]) -> Result<(), NoMemory>
    ensures { OnOk result (line.new.items ≡ line.old.items ++ (codes "verilog N7" ++ names_text names.now ++ codes "\n")) }
{
    put(line, b"verilog N7")?;
    for name in names {
        put_between(line, b" ", name.as_str().as_bytes(), b"")?;
    }
    put(line, b"\n")
}

/// Appends the line of a text that is no module's.
fn put_read_fault(line: &mut Vec<u8>, fault: ReadFault) -> Result<(), NoMemory>
    ensures { OnOk result (line.new.items ≡ line.old.items ++ (codes "verilog " ++ read_fault_text fault ++ codes "\n")) }
{
    match fault {
        ReadFault::Unexpected { byte } => put_numbered(line, b"verilog L1 byte ", byte),
        ReadFault::Truncated => put(line, b"verilog L2\n"),
        ReadFault::TooDeep { byte } => put_numbered(line, b"verilog L3 byte ", byte),
        ReadFault::LongName { byte } => put_numbered(line, b"verilog L4 byte ", byte),
        ReadFault::OutOfRange { byte } => put_numbered(line, b"verilog L5 byte ", byte),
        ReadFault::NoMemory => put(line, b"verilog no memory\n"),
    }
}

/// Appends the line of a module that can't be run.
fn put_tree_fault(line: &mut Vec<u8>, fault: TreeFault) -> Result<(), NoMemory>
    ensures { OnOk result (line.new.items ≡ line.old.items ++ (codes "verilog " ++ tree_fault_text fault ++ codes "\n")) }
{
    match fault {
        TreeFault::Unknown { name } => put_named(line, b"verilog N1 ", &name),
        TreeFault::Twice { name } => put_named(line, b"verilog N2 ", &name),
        TreeFault::Width { left, right } => {
            put_two_numbers(line, b"verilog N3 ", left as usize, b" ", right as usize)
        }
        TreeFault::TwoBlocks { name } => put_named(line, b"verilog N4 ", &name),
        TreeFault::NotAssignable { name } => put_named(line, b"verilog N5 ", &name),
        TreeFault::SelectRange { name } => put_named(line, b"verilog N6 ", &name),
        TreeFault::Loop { names } => put_loop(line, &names),
        TreeFault::NoMemory => put(line, b"verilog no memory\n"),
        TreeFault::Undriven { name } => put_named(line, b"verilog N9 ", &name),
        TreeFault::Clock { name } => put_named(line, b"verilog N10 ", &name),
    }
}

/// Appends the line of a text that gives no module that can be run beside the memory.
pub fn put_verilog(line: &mut Vec<u8>, refusal: VerilogRefusal) -> Result<(), NoMemory>
    ensures { OnOk result (line.new.items ≡ line.old.items ++ (codes "verilog " ++ verilog_text refusal ++ codes "\n")) }
{
    match refusal {
        VerilogRefusal::Read(fault) => put_read_fault(line, fault),
        VerilogRefusal::Tree(fault) => put_tree_fault(line, fault),
        VerilogRefusal::WrongPort { name } => put_named(line, b"verilog B2 ", &name),
    }
}
