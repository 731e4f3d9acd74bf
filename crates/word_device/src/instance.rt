ghost use Rattle.std.specs.Prelude.{◌≡◌, ◌<◌, ◌↔◌, if◌then◌else◌, IsTrue, IsOk, IfErr, is_some, length, Some};
ghost use Rattle.fault_core.specs.Primitive.{has_aggressor};
ghost use Rattle.fault_core.specs.Cells.{has_act};
ghost use Rattle.word_device.specs.Boxes.{FitsBox};
ghost use Rattle.word_device.specs.Chips.{bit_in, with_bit_in, bits_hold, closed_words, paused_words, falls_on, matches, plain_words, plain_reply, words_after, reply_to, FitsMemory};

use crate::bits::{has_bit, with_bit};
use crate::device::{BitPlace, DeviceFault, Planted};
use crate::shape::Shape;
use fault_core::{Act, Prim};
use word_march::WordOp;

fn bit_in(words: &[u64], at: BitPlace) -> bool
    requires word { at.word < length words.now }
    requires bit { at.bit < 64 }
    ensures { result ≡ bit_in words.now at }
{
    has_bit(words[at.word as usize], at.bit)
}

fn set_bit(words: &mut [u64], at: BitPlace, bit: bool)
    requires word { at.word < length words.old }
    requires bit { at.bit < 64 }
    ensures { words.new ≡ with_bit_in words.old at bit }
{
    words[at.word as usize] = with_bit(words[at.word as usize], at.bit, bit);
}

/// Whether every state of the instance holds.
fn do_states_hold(planted: &Planted, words: &[u64]) -> bool
    requires { FitsMemory planted.now (length words.now) 64 }
    ensures { result ≡ bits_hold planted.now words.now }
{
    if bit_in(words, planted.vic) != planted.prim.vic().state {
        return false;
    }
    match (planted.prim.agg(), planted.agg) {
        (Some(sense), Some(at)) => bit_in(words, at) == sense.state,
        _ => true,
    }
}

fn has_any_act(prim: &Prim) -> bool
    ensures { result ≡ has_act prim.now }
{
    match prim.agg() {
        Some(sense) => prim.vic().act.is_some() || sense.act.is_some(),
        None => prim.vic().act.is_some(),
    }
}

/// Closes the words: an instance without an act acts wherever its states hold.
#[tactic(auto, unfolding(crate::specs::Chips::closed_words))]
pub(crate) fn close(planted: &Planted, words: &mut [u64])
    requires { FitsMemory planted.now (length words.old) 64 }
    ensures { words.new ≡ closed_words planted.now words.old }
{
    if !has_any_act(&planted.prim) && do_states_hold(planted, words) {
        set_bit(words, planted.vic, planted.prim.after());
    }
}

/// The effect of the instance where the act was its own, and closing.
fn take_effect(planted: &Planted, words: &mut [u64], own: bool)
    requires { FitsMemory planted.now (length words.old) 64 }
    ensures { words.new ≡ closed_words planted.now
        (if own then with_bit_in words.old planted.now.vic planted.now.prim.after else words.old) }
{
    if own {
        set_bit(words, planted.vic, planted.prim.after());
    }
    close(planted, words);
}

/// A pause of the words: an instance whose act it is acts where its states hold.
#[tactic(auto, unfolding(crate::specs::Chips::paused_words))]
pub(crate) fn pause(planted: &Planted, words: &mut [u64])
    requires { FitsMemory planted.now (length words.old) 64 }
    ensures { words.new ≡ paused_words planted.now words.old }
{
    let retention = matches!(planted.prim.vic().act, Some(Act::Pause));
    let own = retention && do_states_hold(planted, words);
    take_effect(planted, words, own);
}

/// Whether what an operation does to the bit at its place is the act.
fn does_fall_on(act: Option<Act>, at: BitPlace, op: WordOp) -> bool
    requires { at.bit < 64 }
    ensures { result ≡ falls_on act at op }
{
    let done = if op.write {
        Act::Write(has_bit(op.word, at.bit))
    } else {
        Act::Read
    };
    at.word == op.index && act == Some(done)
}

/// Whether the operation is the act of the instance, on words where its states hold.
#[tactic(auto, unfolding(crate::specs::Chips::matches))]
fn does_match(planted: &Planted, words: &[u64], op: WordOp) -> bool
    requires { FitsMemory planted.now (length words.now) 64 }
    ensures { result ≡ matches planted.now words.now op }
{
    let falls_on_agg = match (planted.prim.agg(), planted.agg) {
        (Some(sense), Some(at)) => does_fall_on(sense.act, at, op),
        _ => false,
    };
    (falls_on_agg || does_fall_on(planted.prim.vic().act, planted.vic, op))
        && do_states_hold(planted, words)
}

/// One operation on words with nothing planted.
pub(crate) fn do_plainly(words: &mut [u64], op: WordOp) -> u64
    requires { op.index < length words.old }
    ensures words { words.new ≡ plain_words words.old op }
    ensures reply { result ≡ plain_reply words.old op }
{
    if op.write {
        words[op.index as usize] = op.word;
        0
    } else {
        words[op.index as usize]
    }
}

/// One operation on words with a planted instance: its reply.
#[tactic(auto, unfolding(crate::specs::Chips::words_after, crate::specs::Chips::reply_to))]
pub(crate) fn operate_planted(planted: &Planted, words: &mut [u64], op: WordOp) -> u64
    requires fits { FitsMemory planted.now (length words.old) 64 }
    requires within { op.index < length words.old }
    ensures words { words.new ≡ words_after (Some planted.now) words.old op }
    ensures reply { result ≡ reply_to (Some planted.now) words.old op }
{
    let own = does_match(planted, words, op);
    let plain = do_plainly(words, op);
    take_effect(planted, words, own);
    match planted.prim.answer() {
        Some(bit) if own => with_bit(plain, planted.vic.bit, bit),
        _ => plain,
    }
}

fn is_within(at: BitPlace, shape: &Shape) -> bool
    ensures { IsTrue result ↔ ((at.word < shape.now.words) × (at.bit < shape.now.bits)) }
{
    at.word < shape.words && at.bit < shape.bits
}

/// Whether the instance's places are in the shape, and in different words.
pub(crate) fn does_fit(planted: &Planted, shape: &Shape) -> bool
    requires { is_some planted.now.agg ≡ has_aggressor planted.now.prim }
    ensures { IsTrue result ↔ FitsMemory planted.now shape.now.words shape.now.bits }
{
    if !is_within(planted.vic, shape) {
        return false;
    }
    match planted.agg {
        Some(at) => is_within(at, shape) && at.word != planted.vic.word,
        None => true,
    }
}

/// The instance fits the shape, or is refused.
pub(crate) fn check_place(shape: &Option<Shape>, planted: &Planted) -> Result<(), DeviceFault>
    requires { is_some planted.now.agg ≡ has_aggressor planted.now.prim }
    ensures fits { IsOk result ↔ FitsBox shape.now planted.now }
    ensures bad_place { IfErr result (λ fault. fault ≡ DeviceFault.BadPlace) }
{
    match shape {
        Some(shape) if does_fit(planted, shape) => Ok(()),
        _ => Err(DeviceFault::BadPlace),
    }
}
