ghost use Rattle.std.specs.Prelude.{◌≡◌, ◌<◌, ◌≤◌, ◌⊎◌, true, Err, IfOk, IfErr, IsTrue, length};
ghost use Rattle.bist_host.specs.Files.{OnlyReads};
ghost use Rattle.verilog_tree.specs.Plain.{plain_module};
ghost use Rattle.verilog_tree.specs.Formed.{formed};
ghost use Rattle.verilog_tree.specs.Grammar.{Style as Written};
ghost use Rattle.verilog_tree.specs.Spells.{Text, all_limits};
ghost use Rattle.verilog_text.specs.Refusals.{IsFirstIn};
ghost use Rattle.verilog_cycle.specs.Design.{IsNew};
ghost use Rattle.bist_endings.specs.Words.{word};
ghost use Rattle.bist_inputs.specs.Inputs.{HasCause, IsOwnRefusal};
ghost use Rattle.verilog_read.specs.Style.{styled};
ghost use Rattle.bist_inputs.specs.Designs.{plain_tree, tree_of, GivesTree, GivesRunnable, GivesModule, InputModule};

use crate::inputs::read_input;
use bist_endings::{Refusal, VerilogRefusal};
use bist_host::Host;
use std::alloc::Global;
use verilog_cycle::{Design, elaborate};
use verilog_read::{Style, read_free, read_module};
use verilog_tree::{Module, ReadFault, TreeFault};

/// Reads the text of a module in its style.
fn read_text(alloc: Global, bytes: &[u8], style: Style) -> Result<Module, ReadFault>
    ensures spells { IfOk result (λ m. Text (styled style) all_limits bytes.now (plain_module m)) }
    ensures sizes { IfOk result (λ m. formed (plain_module m) ≡ true) }
    ensures fault { IfErr result (λ fault. (fault ≡ ReadFault.NoMemory) ⊎ IsFirstIn (styled style) bytes.now fault) }
{
    match style {
        Style::Parenthesised => read_module(alloc, bytes),
        Style::ByPrecedence => read_free(alloc, bytes),
    }
}

/// Why a text is refused; want of memory is no refusal of a text.
#[tactic(auto, unfolding(crate::specs::Designs::GivesTree))]
fn text_refusal(bytes: &[u8], fault: ReadFault) -> Refusal
    ensures answer { (y : Written) → (fault ≡ ReadFault.NoMemory) ⊎ IsFirstIn y bytes.now fault → GivesTree y bytes.now (Err result) }
    ensures own { IsOwnRefusal result }
{
    match fault {
        ReadFault::NoMemory => Refusal::NoMemory,
        _ => Refusal::Verilog(VerilogRefusal::Read(fault)),
    }
}

/// The module that a text spells.
#[tactic(auto, unfolding(crate::specs::Designs::GivesTree))]
fn give_tree(alloc: Global, bytes: &[u8], style: Style) -> Result<Module, Refusal>
    ensures answer { GivesTree (styled style) bytes.now (plain_tree result) }
    ensures own { IfErr result IsOwnRefusal }
    ensures sizes { IfOk result (λ m. formed (plain_module m) ≡ true) }
{
    match read_text(alloc, bytes, style) {
        Ok(module) => Ok(module),
        Err(fault) => Err(text_refusal(bytes, fault)),
    }
}

/// The design of a module, whose registers hold 0.
#[tactic(auto, using(crate::proofs::Designing::can_run, crate::proofs::Designing::own_new, crate::proofs::Designing::broken), unfolding(crate::specs::Designs::GivesRunnable))]
fn give_design(alloc: Global, module: Module) -> Result<Design, Refusal>
    requires { IsTrue (formed (plain_module «module»)) }
    ensures answer { GivesRunnable (plain_module «module») (tree_of result) }
    ensures own { IfErr result IsOwnRefusal }
    ensures new { IfOk result (λ design. IsNew design.tree design) }
{
    match elaborate(alloc, module) {
        Ok(design) => Ok(design),
        Err(TreeFault::NoMemory) => Err(Refusal::NoMemory),
        Err(fault) => Err(Refusal::Verilog(VerilogRefusal::Tree(fault))),
    }
}

/// The design of a text.
fn give_module(alloc: Global, bytes: &[u8], style: Style) -> Result<Design, Refusal>
    ensures answer { GivesModule (styled style) bytes.now (tree_of result) }
    ensures own { IfErr result IsOwnRefusal }
    ensures new { IfOk result (λ design. IsNew design.tree design) }
{
    let module = give_tree(alloc, bytes, style)?;
    give_design(alloc, module)
}

/// The design of the file that a word names, in this style, whose registers hold 0.
#[tactic(auto, using(crate::proofs::Causes::own_cause), unfolding(crate::specs::Designs::InputModule))]
pub fn read_design_input<H: Host>(
    alloc: Global,
    host: &mut H,
    words: &[&str],
    position: usize,
    style: Style,
) -> Result<Design, Refusal>
    requires { position < length words.now }
    ensures kept { OnlyReads (H.state host.old) (H.state host.new) }
    ensures answer { InputModule (styled style) (H.state host.old).files words.now position (tree_of result) }
    ensures new { IfOk result (λ design. IsNew design.tree design) }
    ensures cause { HasCause (H.state host.old) (H.state host.new) result }
{
    let bytes = read_input(host, words, position)?;
    give_module(alloc, &bytes, style)
}
