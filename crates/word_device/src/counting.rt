ghost use Rattle.std.specs.Prelude.{◌≡◌, None};

use crate::device::{Device, DeviceFault, Planted, PortCmd};
use crate::instance::check_place;
use crate::shape::{Shape, take_shape};

/// What the first cycle answers.
const FIRST: u64 = 1 << 63;

/// A memory that answers 2^63 in the first cycle since the last `fill`, and one more in each further cycle; and tells so.
#[derive(Drop)]
pub struct CountDevice {
    room: u32,
    shape: Option<Shape>,
    count: u64,
}

impl CountDevice {
    /// A memory with room for so many words, and without a shape.
    pub fn new(room: u32) -> CountDevice
        ensures { result ≡ record { room = room; shape = None; count = 0 } }
    {
        CountDevice {
            room,
            shape: None,
            count: 0,
        }
    }
}

impl Device for CountDevice {
    ghost use Rattle.std.specs.Prelude.{◌^◌};
    ghost use Rattle.word_device.specs.Boxes.{TellsScript};

    ghost told = { λ s. record {
      room = s.room;
      shape = s.shape;
      tells = TellsScript
          (record { base = 2 ^ 63; step = 1; count = s.count });
    } };

    fn room(&self) -> u32 {
        self.room
    }

    fn fitted(&self) -> bool {
        self.shape.is_some()
    }

    fn fit(&mut self, shape: &Shape) -> Result<(), DeviceFault> {
        take_shape(&mut self.shape, self.room, shape)
    }

    fn plant(&mut self, planted: &Planted) -> Result<(), DeviceFault> {
        check_place(&self.shape, planted)
    }

    fn fill(&mut self, _number: u64) {
        self.count = 0;
    }

    fn cycle(&mut self, _cmd: &PortCmd) -> u64 {
        let answer = FIRST.wrapping_add(self.count);
        self.count = self.count.wrapping_add(1);
        answer
    }
}
