//! Memories of words behind a port, in boxes, with at most one planted instance of a fault primitive.
//!
//! A memory keeps its words by physical index, as it stores them. A read is answered some cycles after it, and an instance can lose a
//! bit over a pause, which is some cycles in which nothing is enabled. In `specs/`: what a box tells (its chip, a script of answers, or
//! nothing) and what each call makes of that; a chip beside the cycles of a march, and beside the ports of a self-test. Only `fit` takes
//! memory.
//!
//! ```
//! use memory_desc::read_memory;
//! use word_device::{ArrayDevice, Device, PortCmd, shape_of};
//!
//! let memory = read_memory(b"memory 1\nname two\nwords 2\nbits 4\n")?;
//! let mut device = ArrayDevice::new(rt.alloc(), 16);
//! device.fit(&shape_of(&memory))?;
//! device.cycle(&PortCmd { en: true, we: true, addr: 1, wdata: 5 });
//! assert!(rt; device.cycle(&PortCmd { en: true, we: false, addr: 1, wdata: 0 }) == 5);
//! ```
//!
//! It never sees Verilog.
#![tactic(auto)]

mod array;
mod bits;
mod constant;
mod counting;
mod device;
mod instance;
mod laws;
mod no_fit;
mod pending;
mod port;
mod shape;
mod way_back;

pub use array::ArrayDevice;
pub use bits::has_bit;
pub use constant::ConstDevice;
pub use counting::CountDevice;
pub use device::{BitPlace, Device, DeviceFault, Planted, PortCmd};
pub use laws::{
    closing, first_differs, freshly_planted_fails, joint_fails, joint_passes,
    pauses_are_those_of_memories, planted_answers_wrong, planted_fails, unplanted_passes,
};
pub use no_fit::NoFitDevice;
pub use shape::{Shape, shape_of};
