//! What a design has beside its module. It is made while the module is borrowed, so that one owner alone drops a module.
ghost use Rattle.std.specs.Prelude.{◌≡◌, true, None, map, IfOk};
ghost use Rattle.verilog_tree.specs.Plain.{plain_module};
ghost use Rattle.verilog_tree.specs.Formed.{formed};
ghost use Rattle.verilog_tree.specs.Names.{declarations};
ghost use Rattle.verilog_tree.specs.Rules.{first_break};
ghost use Rattle.verilog_tree.specs.Seen.{declaration};
ghost use Rattle.verilog_cycle.specs.Seen.{plain_names};
ghost use Rattle.verilog_cycle.specs.Design.{AreNets};
ghost use Rattle.verilog_cycle.specs.inner.Parts.{ArePartsOf};

use crate::nets::all_of;
use crate::program::{Cells, Program};
use bist_bits::NoMemory;
use std::alloc::Global;
use verilog_tree::{Declared, Kind, Module, Name};

/// The parts of a design.
#[derive(Drop)]
pub(crate) struct Parts {
    pub nets: Vec<Name>,
    pub registers: Vec<Declared>,
    /// The inputs without the clock.
    pub inputs: Vec<Declared>,
    pub program: Program,
    pub cells: Cells,
}

impl Parts {
    /// Those of a module that breaks no rule, whose nets these are; its registers hold 0.
    pub(crate) fn build(
        alloc: Global,
        module: &Module,
        declared: &[Declared],
        nets: Vec<Name>,
    ) -> Result<Parts, NoMemory>
        requires well_formed { formed (plain_module «module».now) ≡ true }
        requires legal { first_break (plain_module «module».now) ≡ None }
        requires all { map declaration declared.now ≡ declarations (plain_module «module».now).ports (plain_module «module».now).items }
        requires nets { AreNets (plain_module «module».now) (plain_names nets.items) }
        ensures { IfOk result (ArePartsOf (plain_module «module».now)) }
    {
        let registers = all_of(alloc, declared, Kind::Register)?;
        let inputs = all_of(alloc, declared, Kind::Input)?;
        let program = Program::new(alloc, module, &registers, &inputs, &nets)?;
        let cells = Cells::new(
            alloc,
            program.places,
            registers.len(),
            program.outputs.len(),
        )?;
        Ok(Parts {
            nets,
            registers,
            inputs,
            program,
            cells,
        })
    }
}
