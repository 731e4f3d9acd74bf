ghost use Rattle.std.specs.Prelude.{◌≡◌, ◌<◌, ◌≤◌, ◌%◌, ◌^◌, IfSome};
ghost use Rattle.word_device.specs.Ports.{addressed, stored_op, shown};
ghost use Rattle.word_device.specs.Boxes.{IsShape};
ghost use Rattle.word_device.specs.WayBack.{IsWayBack};

use crate::device::PortCmd;
use crate::shape::Shape;
use crate::way_back::WayBack;
use bist_bits::all_ones;
use word_march::WordOp;

/// The low `bits` bits of a word.
#[tactic(auto, using(std::proofs::lemmas::Nat::and_mask))]
pub(crate) fn low_bits(word: u64, bits: u8) -> u64
    requires { (1 ≤ bits) × (bits ≤ 64) }
    ensures { result ≡ word % 2 ^ bits }
{
    word & all_ones(bits)
}

/// The index of the word with this address, where there is one.
#[tactic(auto, unfolding(crate::specs::Ports::addressed))]
pub(crate) fn addressed(shape: &Shape, way: &WayBack, addr: u32) -> Option<u32>
    requires shape { IsShape shape.now }
    requires way { IsWayBack shape.now.scramble way.now }
    ensures index { result ≡ addressed shape.now addr }
    ensures within { IfSome result (λ k. k < shape.now.words) }
{
    let address = low_bits(u64::from(addr), shape.scramble.width()) as u32;
    let index = way.index_of(address);
    if index < shape.words {
        Some(index)
    } else {
        None
    }
}

/// The command on the stored word.
pub(crate) fn stored_op(shape: &Shape, cmd: &PortCmd, index: u32) -> WordOp
    requires { IsShape shape.now }
    ensures { result ≡ stored_op shape.now cmd.now index }
{
    WordOp {
        write: cmd.we,
        index,
        word: low_bits(cmd.wdata, shape.bits) ^ shape.polarity,
    }
}

/// What stands at the port as the answer: the stored word without the polarity, and 0 of a write.
pub(crate) fn shown(write: bool, polarity: u64, word: u64) -> u64
    ensures { result ≡ shown write polarity word }
{
    if write { 0 } else { word ^ polarity }
}
