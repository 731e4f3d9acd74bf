ghost use Rattle.std.specs.Prelude.{◌≡◌, None};

use crate::device::{Device, DeviceFault, Planted, PortCmd};
use crate::instance::check_place;
use crate::shape::{Shape, take_shape};

/// A memory that answers one word in every cycle, and tells so.
#[derive(Drop)]
pub struct ConstDevice {
    room: u32,
    shape: Option<Shape>,
    word: u64,
    count: u64,
}

impl ConstDevice {
    /// A memory with room for so many words, and without a shape.
    pub fn new(room: u32, word: u64) -> ConstDevice
        ensures { result ≡ record { room = room; shape = None; word = word; count = 0 } }
    {
        ConstDevice {
            room,
            shape: None,
            word,
            count: 0,
        }
    }
}

impl Device for ConstDevice {
    ghost use Rattle.word_device.specs.Boxes.{TellsScript};

    ghost told = { λ s. record {
      room = s.room;
      shape = s.shape;
      tells = TellsScript
          (record { base = s.word; step = 0; count = s.count });
    } };

    fn room(&self) -> u32 {
        self.room
    }

    fn fitted(&self) -> bool {
        self.shape.is_some()
    }

    fn fit(&mut self, shape: &Shape) -> Result<(), DeviceFault> {
        take_shape(&mut self.shape, self.room, shape)
    }

    fn plant(&mut self, planted: &Planted) -> Result<(), DeviceFault> {
        check_place(&self.shape, planted)
    }

    fn fill(&mut self, _number: u64) {
        self.count = 0;
    }

    fn cycle(&mut self, _cmd: &PortCmd) -> u64 {
        self.count = self.count.wrapping_add(1);
        self.word
    }
}
