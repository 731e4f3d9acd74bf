ghost use Rattle.std.specs.Prelude.{◌≡◌, ◌≢◌, ◌<◌, ◌↔◌, Err, IsErr, IfErr};

use crate::device::{Device, DeviceFault, Planted, PortCmd};
use crate::instance::check_place;
use crate::shape::Shape;

/// A memory that never finds memory for its words, and tells nothing.
#[derive(Drop)]
pub struct NoFitDevice {
    room: u32,
    /// It has none at first, and `fit` never takes one; but a type that can't have one would leave `plant`, `fill` and `cycle` with
    /// contracts that no call meets.
    shape: Option<Shape>,
}

impl NoFitDevice {
    ghost use Rattle.std.specs.Prelude.{None};

    /// A memory with room for so many words, and without a shape.
    pub fn new(room: u32) -> NoFitDevice
        ensures { result ≡ record { room = room; shape = None } }
    {
        NoFitDevice { room, shape: None }
    }
}

impl Device for NoFitDevice {
    ghost use Rattle.word_device.specs.Boxes.{TellsNothing};

    ghost told = { λ s. record { room = s.room; shape = s.shape; tells = TellsNothing } };

    fn room(&self) -> u32 {
        self.room
    }

    fn fitted(&self) -> bool {
        self.shape.is_some()
    }

    /// Refused: with V1 exactly where it has room for fewer words, else with V3.
    fn fit(&mut self, shape: &Shape) -> Result<(), DeviceFault>
        ensures refused { IsErr result }
        ensures same { self.new ≡ self.old }
        ensures too_big { result ≡ Err DeviceFault.TooBig ↔ (self.old.room < shape.now.words) }
        ensures places { IfErr result (λ fault. fault ≢ DeviceFault.BadPlace) }
    {
        if shape.words > self.room {
            Err(DeviceFault::TooBig)
        } else {
            Err(DeviceFault::NoMemory)
        }
    }

    fn plant(&mut self, planted: &Planted) -> Result<(), DeviceFault> {
        check_place(&self.shape, planted)
    }

    fn fill(&mut self, _number: u64) {}

    fn cycle(&mut self, _cmd: &PortCmd) -> u64 {
        0
    }
}
