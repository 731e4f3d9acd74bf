ghost use Rattle.std.specs.Prelude.{◌≡◌, ◌<◌};
ghost use Rattle.march_core.specs.Addresses.{direction_of, address_at};

/// A read that didn't answer what the march expects: its element, its cell and its number in the element,
/// all counted from 0.
#[derive(Clone, Copy, PartialEq, Eq)]
pub struct Miss {
    pub element: usize,
    pub address: usize,
    pub op: usize,
}

/// The address at a place in the order of a direction.
#[tactic(auto, unfolding(crate::specs::Addresses::address_at))]
pub fn address_of(is_down: bool, place: usize, size: usize) -> usize
    requires { place < size }
    ensures value { result ≡ address_at (direction_of is_down) place size }
    ensures within { result < size }
{
    if is_down { size - 1 - place } else { place }
}
