//! The list of every number: all static primitives, 21 times.

ghost use Rattle.std.specs.Prelude.{◌≡◌, Ok, IfOk, length};
ghost use Rattle.fault_syntax.specs.declared.fault.FaultFault.{FaultFault};
ghost use Rattle.dynamic_core.specs.Items.{ReadsItems};
ghost use Rattle.made_inputs.specs.MadeList.{made_text, made_items};

use bist_bits::NoMemory;
use bist_text::put;
use dynamic_core::{Item, read_items};
use fault_syntax::FaultFault;
use std::alloc::Global;

/// How many lines the list has.
const LINES: usize = 21;

/// The text of the list.
#[tactic(auto, using(crate::proofs::ListLaws::made_reads))]
pub fn list_text(alloc: Global) -> Result<Vec<u8>, NoMemory>
    ensures form { IfOk result (λ text. text.items ≡ made_text) }
    ensures read_back { IfOk result (λ text. ReadsItems text.items (Ok made_items)) }
{
    let mut text = Vec::new(alloc);
    for _line in 0..LINES {
        put(&mut text, b"all\n")?;
    }
    Ok(text)
}

/// What is wanting where the list isn't read: nothing but memory.
fn want_of(fault: FaultFault) -> NoMemory
    requires { fault ≡ FaultFault.NoMemory }
{
    match fault {
        FaultFault::NoMemory => NoMemory,
        _ => unreachable!(),
    }
}

/// The primitives of the list, from its text.
pub fn items_of_list(alloc: Global, text: &[u8]) -> Result<Vec<Item>, NoMemory>
    requires { text.now ≡ made_text }
    ensures value { IfOk result (λ items. items.items ≡ made_items) }
    ensures count { IfOk result (λ items. length items.items ≡ 1008) }
{
    match read_items(alloc, text) {
        Ok(items) => Ok(items),
        Err(fault) => Err(want_of(fault)),
    }
}
