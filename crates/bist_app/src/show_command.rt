//! The command `show`: what was read in a file, in one form.

ghost use Rattle.std.specs.Prelude.{◌≡◌, [], true, IfOk, IfErr};
ghost use Rattle.bist_host.specs.Files.{OnlyReads};
ghost use Rattle.verilog_tree.specs.Fits.{fits};
ghost use Rattle.verilog_tree.specs.Plain.{plain_module};
ghost use Rattle.bist_endings.specs.Ending.{plain, done_of};
ghost use Rattle.bist_endings.specs.Conclude.{NamesWords};
ghost use Rattle.bist_endings.specs.Then.{SaysOwn};
ghost use Rattle.bist_inputs.specs.Inputs.{HasCause, IsOwnRefusal};
ghost use Rattle.bist_app.specs.Forms.{HasForm};
ghost use Rattle.bist_app.specs.declared.show_command.InputKind.{InputKind};
ghost use Rattle.bist_app.specs.Show.{kind_named, IsShowShape, shown, FitsText, ShowsModule, ShowsKind, DecidesShow, show_form};

use crate::shown_texts::{chip_text, list_text};
use bist_endings::{Effects, Refusal, VerilogRefusal};
use bist_host::Host;
use bist_inputs::{
    read_chip_input, read_design_input, read_list_input, read_march_input, read_memory_input,
};
use made_inputs::march_text;
use memory_desc::print_memory;
use std::alloc::Global;
use verilog_emit::emit;
use verilog_read::Style;
use verilog_tree::{Module, ReadFault, fits};

/// What a file is read as.
#[derive(Clone, Copy)]
pub enum InputKind {
    March,
    Memory,
    Faults,
    Chip,
    Module,
}

// The places of the words.
const KIND: usize = 1;
/// The word that names the file.
const FILE: usize = 2;

/// The kind of a name.
fn kind_named(name: &str) -> Option<InputKind>
    ensures { result ≡ kind_named name.now }
{
    match name {
        "march" => Some(InputKind::March),
        "memory" => Some(InputKind::Memory),
        "list" => Some(InputKind::Faults),
        "chip" => Some(InputKind::Chip),
        "module" => Some(InputKind::Module),
        _ => None,
    }
}

/// The kind that the words say, which are refused where they say none.
fn own_words(words: &[&str]) -> Result<InputKind, Refusal>
    requires { HasForm show_form words.now }
    ensures answer { SaysOwn (IsShowShape words.now) result }
    ensures own { IfErr result IsOwnRefusal }
{
    match kind_named(words[KIND]) {
        Some(kind) => Ok(kind),
        None => Err(Refusal::Usage),
    }
}

/// A text that is said, with no file.
fn said(alloc: Global, text: Vec<u8>) -> Effects
    ensures { done_of result ≡ shown text.items }
{
    Effects {
        found: false,
        outputs: Vec::new(alloc),
        line: text,
    }
}

/// Refuses a module whose text would nest too deep for the readers.
fn fit_text(module: &Module) -> Result<(), Refusal>
    ensures answer { FitsText (plain_module «module».now) result }
    ensures own { IfErr result IsOwnRefusal }
    ensures fits { IfOk result (λ _. fits (plain_module «module».now) ≡ true) }
{
    if fits(module) {
        return Ok(());
    }
    let fault = ReadFault::TooDeep { byte: 0 };
    Err(Refusal::Verilog(VerilogRefusal::Read(fault)))
}

/// A module as text, where that can be read again.
#[tactic(auto, unfolding(crate::specs::Show::LeavesShown))]
fn show_module(alloc: Global, module: &Module) -> Result<Effects, Refusal>
    ensures answer { ShowsModule (plain_module «module».now) (plain result) }
    ensures outputs { IfOk result (λ effects. (done_of effects).outputs ≡ []) }
    ensures own { IfErr result IsOwnRefusal }
{
    fit_text(module)?;
    let text = emit(alloc, module)?;
    Ok(said(alloc, text))
}

/// Reads the file as a module, as `check` does, and says it.
fn show_design<H: Host>(alloc: Global, words: &[&str], host: &mut H) -> Result<Effects, Refusal>
    requires { HasForm show_form words.now }
    ensures kept { OnlyReads (H.state host.old) (H.state host.new) }
    ensures answer { ShowsKind (H.state host.old).files words.now InputKind.Module (plain result) }
    ensures outputs { IfOk result (λ effects. (done_of effects).outputs ≡ []) }
    ensures cause { HasCause (H.state host.old) (H.state host.new) result }
{
    let design = read_design_input(alloc, host, words, FILE, Style::ByPrecedence)?;
    let effects = show_module(alloc, design.module());
    drop(design);
    effects
}

/// Reads the file as its kind, and says it.
#[tactic(auto, unfolding(crate::specs::Show::LeavesShown))]
fn show<H: Host>(
    alloc: Global,
    words: &[&str],
    host: &mut H,
    kind: InputKind,
) -> Result<Effects, Refusal>
    requires { HasForm show_form words.now }
    ensures kept { OnlyReads (H.state host.old) (H.state host.new) }
    ensures answer { ShowsKind (H.state host.old).files words.now kind (plain result) }
    ensures outputs { IfOk result (λ effects. (done_of effects).outputs ≡ []) }
    ensures cause { HasCause (H.state host.old) (H.state host.new) result }
{
    let text = match kind {
        InputKind::March => march_text(alloc, &read_march_input(host, words, FILE)?)?,
        InputKind::Memory => print_memory(alloc, &read_memory_input(host, words, FILE)?)?,
        InputKind::Faults => list_text(alloc, &read_list_input(alloc, host, words, FILE)?)?,
        InputKind::Chip => chip_text(alloc, &read_chip_input(host, words, FILE)?)?,
        InputKind::Module => return show_design(alloc, words, host),
    };
    Ok(said(alloc, text))
}

/// Says what is read in a file.
pub fn decide_show<H: Host>(alloc: Global, words: &[&str], host: &mut H) -> Result<Effects, Refusal>
    requires { HasForm show_form words.now }
    ensures kept { OnlyReads (H.state host.old) (H.state host.new) }
    ensures outputs { IfOk result (λ effects. NamesWords words.now (done_of effects).outputs) }
    ensures answer { DecidesShow (H.state host.old).files words.now (plain result) }
    ensures cause { HasCause (H.state host.old) (H.state host.new) result }
{
    let kind = own_words(words)?;
    show(alloc, words, host, kind)
}
