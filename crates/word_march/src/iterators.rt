ghost use Rattle.std.specs.Prelude.{◌≡◌, ◌<◌, ◌^◌, All};
ghost use Rattle.word_march.specs.Commands.{word_ops, port_op, port_ops};

use crate::operations::{PortOp, WordOp};
use crate::place::{MarchPlace, operation_at, place_behind, run_start};
use march_core::March;
use memory_desc::Memory;
use std::marker::Model;

/// The word operations of a march on a memory, one after another.
#[derive(Drop)]
pub struct WordOps<'a> {
    march: &'a March,
    memory: &'a Memory,
    place: MarchPlace,
}

impl<'a> Model for WordOps<'a> {
    ghost use Rattle.std.specs.Prelude.{List};
    ghost use Rattle.word_march.specs.declared.operations.WordOp.{WordOp};
    ghost use Rattle.word_march.specs.Standing.{ops_left, IsPlace};

    ghost Value = { List WordOp };

    ghost view = { λ s. ops_left s.march.now s.memory.now s.place };

    ghost invariant = { λ s. IsPlace s.march.now s.memory.now s.place };
}

/// The word operations: the march in each background of the memory, one background after another, where an
/// element of order any goes upward and a pause does nothing.
#[tactic(auto, using(crate::proofs::Places::first_place, crate::proofs::Left::all_left))]
pub fn word_ops<'a>(march: &'a March, memory: &'a Memory) -> WordOps<'a>
    ensures { result ≡ word_ops march.now memory.now }
{
    march.known();
    memory.known();
    WordOps {
        march,
        memory,
        place: run_start(march, 0),
    }
}

impl<'a> Iterator for WordOps<'a> {
    ghost use Rattle.std.specs.Iterator.{YieldsFirst, item_count};

    type Item = WordOp;

    ghost next_gives = { YieldsFirst (λ s. s) };

    ghost remaining = { item_count (λ s. s) };

    fn next(&mut self) -> Option<WordOp> {
        if self.place.background == self.memory.backgrounds().len() {
            return None;
        }
        let operation = operation_at(self.march, self.memory, self.place);
        self.place = place_behind(self.march, self.memory, self.place);
        Some(operation)
    }
}

/// The commands at a memory's port, one after another.
#[derive(Drop)]
pub struct PortOps<'a> {
    march: &'a March,
    memory: &'a Memory,
    place: MarchPlace,
}

impl<'a> Model for PortOps<'a> {
    ghost use Rattle.std.specs.Prelude.{List, map};
    ghost use Rattle.word_march.specs.declared.operations.PortOp.{PortOp};
    ghost use Rattle.word_march.specs.Commands.{port_op};
    ghost use Rattle.word_march.specs.Standing.{ops_left, IsPlace};

    ghost Value = { List PortOp };

    ghost view = { λ s. map (port_op s.memory.now) (ops_left s.march.now s.memory.now s.place) };

    ghost invariant = { λ s. IsPlace s.march.now s.memory.now s.place };
}

/// The commands: the word operations, each at the logical address of its index, with its word as the memory inverts it.
#[tactic(auto, using(crate::proofs::Places::first_place, crate::proofs::Next::all_commands, crate::proofs::Words::commands_fit))]
pub fn port_ops<'a>(march: &'a March, memory: &'a Memory) -> PortOps<'a>
    ensures commands { result ≡ port_ops march.now memory.now }
    ensures words_fit { All (λ o. o.word < 2 ^ memory.now.bits) (port_ops march.now memory.now) }
{
    march.known();
    memory.known();
    PortOps {
        march,
        memory,
        place: run_start(march, 0),
    }
}

impl<'a> Iterator for PortOps<'a> {
    ghost use Rattle.std.specs.Iterator.{YieldsFirst, item_count};

    type Item = PortOp;

    ghost next_gives = { YieldsFirst (λ s. s) };

    ghost remaining = { item_count (λ s. s) };

    fn next(&mut self) -> Option<PortOp> {
        if self.place.background == self.memory.backgrounds().len() {
            return None;
        }
        let operation = operation_at(self.march, self.memory, self.place);
        self.place = place_behind(self.march, self.memory, self.place);
        Some(at_port(self.memory, operation))
    }
}

/// A word operation as a command at the port: its word is inverted as the memory stores it.
#[tactic(auto, using(crate::proofs::Next::index_fits))]
fn at_port(memory: &Memory, operation: WordOp) -> PortOp
    requires { operation.index < memory.now.words }
    ensures { result ≡ port_op memory.now operation }
{
    memory.known();
    PortOp {
        write: operation.write,
        addr: memory.scramble().logical_of(operation.index),
        word: operation.word ^ memory.polarity(),
    }
}
