//! The boxes that the program is given: whether there is one with room for a memory, and the first one fitted, planted and taken.

ghost use Rattle.std.specs.Prelude.{◌≡◌, ◌≤◌, ◌<◌, ◌∷◌, Some, Ok, length, map, drop, vec_len, IsSome, IfOk, IfErr, OnOk, OnErr};
ghost use Rattle.word_device.specs.declared.device.DeviceFault.{DeviceFault};
ghost use Rattle.word_device.specs.Ports.{shape_of as memory_shape};
ghost use Rattle.word_device.specs.Boxes.{after_fit, after_fill, IsShape};
ghost use Rattle.bist_inputs.specs.Inputs.{IsOwnRefusal};
ghost use Rattle.bist_app.specs.Shared.{FitsRoom, HasBox};
ghost use Rattle.bist_app.specs.Bench.{after_planting, ready};
ghost use Rattle.bist_app.specs.inner.RunsBeside.{FirstHasRoom, CanPlant};

use bist_bits::NoMemory;
use bist_endings::{DeviceRefusal, Refusal};
use memory_desc::Memory;
use word_device::{Device, DeviceFault, Planted, Shape, shape_of};

/// Refuses an empty list.
#[tactic(auto, unfolding(crate::specs::Shared::HasBox))]
pub fn want_box(devices: &[Box<dyn Device>]) -> Result<(), Refusal>
    ensures answer { HasBox (map (λ b. told b) devices.now) result }
    ensures own { IfErr result IsOwnRefusal }
    ensures some { IfOk result (λ _. 0 < length devices.now) }
{
    if devices.is_empty() {
        return Err(Refusal::Device(DeviceRefusal::NoBox));
    }
    Ok(())
}

/// How many words a box has room for.
pub fn room_of_box(device: &Box<dyn Device>) -> u32
    ensures { result ≡ (told device.now).room }
{
    device.room()
}

/// Refuses a first box with room for fewer words than the memory has.
#[tactic(auto, unfolding(crate::specs::Shared::FitsRoom))]
pub fn fit_room(devices: &[Box<dyn Device>], memory: &Memory) -> Result<(), Refusal>
    requires some { 0 < length devices.now }
    ensures answer { FitsRoom memory.now (map (λ b. told b) devices.now) result }
    ensures own { IfErr result IsOwnRefusal }
    ensures room { IfOk result (λ _. FirstHasRoom memory.now.words (map (λ b. told b) devices.now)) }
{
    let room = room_of_box(&devices[0]);
    let words = memory.words();
    if room < words {
        return Err(Refusal::Device(DeviceRefusal::TooSmall { words, room }));
    }
    Ok(())
}

/// What is wanting where a box with room isn't fitted: nothing but memory.
fn want_of_box(fault: DeviceFault) -> NoMemory
    requires { fault ≡ DeviceFault.NoMemory }
{
    match fault {
        DeviceFault::NoMemory => NoMemory,
        _ => unreachable!(),
    }
}

/// Fits a box that has room; want of memory leaves it as it was.
fn fit_box(device: &mut Box<dyn Device>, shape: &Shape) -> Result<(), NoMemory>
    requires shape { IsShape shape.now }
    requires room { shape.now.words ≤ (told device.old).room }
    ensures ok { OnOk result (told device.new
        ≡ record (told device.old) { shape = Some shape.now; tells = after_fit shape.now (told device.old).tells }) }
    ensures err { OnErr result (told device.new ≡ told device.old) }
{
    match device.fit(shape) {
        Ok(()) => Ok(()),
        Err(fault) => Err(want_of_box(fault)),
    }
}

/// Fills a box with zeros.
fn clear_box(device: &mut Box<dyn Device>)
    requires { IsSome (told device.old).shape }
    ensures { told device.new ≡ record (told device.old) { tells = after_fill (told device.old).shape 0 (told device.old).tells } }
{
    device.fill(0);
}

/// Fits the first box with the memory's shape and takes it out of the list. Want of memory leaves the list as it was.
fn fit_first(
    devices: &mut Vec<Box<dyn Device>>,
    memory: &Memory,
) -> Result<Box<dyn Device>, NoMemory>
    requires some { 0 < vec_len devices.old }
    requires room { FirstHasRoom memory.now.words (map (λ b. told b) devices.old.items) }
    ensures taken { OnOk result (devices.new.items ≡ drop 1 devices.old.items) }
    ensures kept { OnErr result (map (λ b. told b) devices.new.items ≡ map (λ b. told b) devices.old.items) }
    ensures fitted { IfOk result (λ d. (told d).shape ≡ Some (memory_shape memory.now)) }
    ensures tells { IfOk result (λ d. (b : _) (rest : _) → devices.old.items ≡ b ∷ rest
        → (told d).tells ≡ after_fit (memory_shape memory.now) (told b).tells) }
{
    let shape = shape_of(memory);
    fit_box(&mut devices[0], &shape)?;
    Ok(devices.remove(0))
}

/// Plants an instance, if there is one.
fn plant_box(device: &mut Box<dyn Device>, memory: &Memory, planted: &Option<Planted>)
    requires fitted { (told device.old).shape ≡ Some (memory_shape memory.now) }
    requires fits { CanPlant memory.now planted.now }
    ensures { told device.new ≡ record (told device.old) { tells = after_planting planted.now (told device.old).tells } }
{
    if let Some(planted) = planted {
        device.plant(planted).unwrap();
    }
}

/// Fits the first box with the memory's shape and takes it out of the list, planted with the instance, if there is one, and then filled with
/// zeros. Want of memory leaves the list as it was.
pub fn take_fitted(
    devices: &mut Vec<Box<dyn Device>>,
    memory: &Memory,
    planted: &Option<Planted>,
) -> Result<Box<dyn Device>, NoMemory>
    requires some { 0 < vec_len devices.old }
    requires room { FirstHasRoom memory.now.words (map (λ b. told b) devices.old.items) }
    requires fits { CanPlant memory.now planted.now }
    ensures taken { OnOk result (devices.new.items ≡ drop 1 devices.old.items) }
    ensures kept { OnErr result (map (λ b. told b) devices.new.items ≡ map (λ b. told b) devices.old.items) }
    ensures fitted { IfOk result (λ d. (told d).shape ≡ Some (memory_shape memory.now)) }
    ensures tells { IfOk result (λ d. (b : _) (rest : _) → devices.old.items ≡ b ∷ rest
        → (told d).tells ≡ ready memory.now planted.now (told b).tells) }
{
    let mut device = fit_first(devices, memory)?;
    plant_box(&mut device, memory, planted);
    clear_box(&mut device);
    Ok(device)
}
