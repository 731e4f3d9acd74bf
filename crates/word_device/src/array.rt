ghost use Rattle.std.specs.Prelude.{◌≡◌, ◌<◌, ◌≤◌, if◌then◌else◌, length, map};
ghost use Rattle.std.specs.List.{range_with_len};
ghost use Rattle.word_device.specs.Chips.{words_after, reply_to};
ghost use Rattle.word_device.specs.Ports.{addressed, acted_at, answer_at, rested, idle_more};
ghost use Rattle.word_device.specs.Boxes.{IsShape, FitsPlanted, pattern};
ghost use Rattle.word_device.specs.WayBack.{IsWayBack};

use crate::device::{Device, DeviceFault, Planted, PortCmd};
use crate::instance::{check_place, close, do_plainly, operate_planted, pause};
use crate::pending::{no_answers, pass_on};
use crate::port::{addressed, low_bits, shown, stored_op};
use crate::shape::Shape;
use crate::way_back::WayBack;
use arrayvec::ArrayVec;
use std::alloc::Global;
use std::marker::Model;

/// A memory of words that tells its chip. A word takes 8 bytes.
#[derive(Drop)]
pub struct ArrayDevice {
    room: u32,
    shape: Option<Shape>,
    words: Vec<u64>,
    way: WayBack,
    planted: Option<Planted>,
    pending: ArrayVec<u64, 3>,
    idle: u32,
    alloc: Global,
}

impl Model for ArrayDevice {
    ghost use Rattle.word_device.specs.Boxes.{ArrayState, IsArray};
    ghost use Rattle.word_device.specs.WayBack.{LeadsBack};

    ghost Value = { ArrayState };

    ghost view = { λ s. record {
      room = s.room;
      shape = s.shape;
      chip = record { words = s.words.items; planted = s.planted; pending = s.pending.items; idle = s.idle };
    } };

    ghost invariant = { λ s. LeadsBack s.shape s.way
        × IsArray s.shape (record { words = s.words.items; planted = s.planted; pending = s.pending.items; idle = s.idle }) };
}

impl ArrayDevice {
    ghost use Rattle.std.specs.Prelude.{None, []};

    /// A memory with room for so many words, and without a shape. It takes no memory until `fit`.
    pub fn new(alloc: Global, room: u32) -> ArrayDevice
        ensures { result ≡ record { room = room; shape = None; chip = record { words = []; planted = None; pending = []; idle = 0 } } }
    {
        ArrayDevice {
            room,
            shape: None,
            words: Vec::new(alloc),
            way: WayBack {
                low: [0; 256],
                high: [0; 256],
            },
            planted: None,
            pending: ArrayVec::new(),
            idle: 0,
            alloc,
        }
    }
}

/// The words that a number stands for.
fn fill_words(words: &mut [u64], number: u64, bits: u8)
    requires { (1 ≤ bits) × (bits ≤ 64) }
    ensures { words.new ≡ map (pattern number bits) (range_with_len 0 (length words.old)) }
{
    for k in 0..words.len() {
        let mixed = number.wrapping_mul(2 * k as u64 + 1);
        words[k] = low_bits(mixed ^ (mixed >> 32), bits);
    }
}

/// A command that is enabled: its own answer.
#[tactic(auto, unfolding(crate::specs::Chips::words_after, crate::specs::Chips::reply_to))]
fn act(
    shape: &Shape,
    way: &WayBack,
    planted: &Option<Planted>,
    words: &mut [u64],
    cmd: &PortCmd,
) -> u64
    requires shape { IsShape shape.now }
    requires way { IsWayBack shape.now.scramble way.now }
    requires words { length words.old ≡ shape.now.words }
    requires fits { FitsPlanted planted.now (length words.old) 64 }
    ensures words { words.new ≡ acted_at shape.now planted.now words.old cmd.now (addressed shape.now cmd.now.addr) }
    ensures answer { result ≡ answer_at shape.now planted.now words.old cmd.now (addressed shape.now cmd.now.addr) }
{
    let Some(index) = addressed(shape, way, cmd.addr) else {
        return 0;
    };
    let op = stored_op(shape, cmd, index);
    let word = match planted {
        Some(instance) => operate_planted(instance, words, op),
        None => do_plainly(words, op),
    };
    shown(cmd.we, shape.polarity, word)
}

/// An idle cycle behind so many others: how many they are then, up to the pause.
fn rest(shape: &Shape, planted: &Option<Planted>, words: &mut [u64], idle: u32) -> u32
    requires shape { IsShape shape.now }
    requires idle { idle ≤ shape.now.pause }
    requires fits { FitsPlanted planted.now (length words.old) 64 }
    ensures words { words.new ≡ rested shape.now planted.now words.old idle }
    ensures count { result ≡ idle_more shape.now idle }
{
    let count = if idle < shape.pause {
        idle + 1
    } else {
        shape.pause
    };
    if count == shape.pause {
        if let Some(instance) = planted {
            pause(instance, words);
        }
    }
    count
}

impl Device for ArrayDevice {
    ghost use Rattle.word_device.specs.Boxes.{TellsChip};

    ghost told = { λ s. record { room = s.room; shape = s.shape; tells = TellsChip s.chip } };

    fn room(&self) -> u32 {
        self.room
    }

    fn fitted(&self) -> bool {
        self.shape.is_some()
    }

    fn fit(&mut self, shape: &Shape) -> Result<(), DeviceFault> {
        if shape.words > self.room {
            return Err(DeviceFault::TooBig);
        }
        match Vec::from_elem(self.alloc, 0, shape.words as usize) {
            Ok(words) => {
                self.words = words;
                self.shape = Some(shape.duplicate());
                self.way = WayBack::of(&shape.scramble);
                self.planted = None;
                self.pending = no_answers(shape.latency);
                self.idle = 0;
                Ok(())
            }
            Err(_) => Err(DeviceFault::NoMemory),
        }
    }

    fn plant(&mut self, planted: &Planted) -> Result<(), DeviceFault> {
        check_place(&self.shape, planted)?;
        close(planted, &mut self.words);
        self.planted = Some(*planted);
        Ok(())
    }

    fn fill(&mut self, number: u64) {
        let Some(shape) = &self.shape else {
            return;
        };
        fill_words(&mut self.words, number, shape.bits);
        if let Some(instance) = &self.planted {
            close(instance, &mut self.words);
        }
    }

    fn cycle(&mut self, cmd: &PortCmd) -> u64 {
        let Some(shape) = &self.shape else {
            return 0;
        };
        let own = if cmd.en {
            self.idle = 0;
            act(shape, &self.way, &self.planted, &mut self.words, cmd)
        } else {
            self.idle = rest(shape, &self.planted, &mut self.words, self.idle);
            0
        };
        pass_on(&mut self.pending, own)
    }
}
