//! Three cells of an array of three.

ghost use Rattle.std.specs.Prelude.{◌≡◌, ◌<◌};
ghost use Rattle.linked_faults.specs.Linking.{FitsLinkPlaces};
ghost use Rattle.linked_faults.specs.inner.Threes.{step_three, answer_three, pause_three, seat_index, machine_of, cells_in};
ghost use Rattle.linked_faults.specs.Escapes.{three_number};
ghost use Rattle.linked_faults.specs.inner.Numbers.{same_number, number_below};
ghost use Rattle.pair_tracker.specs.Tracking.{any_end};

use crate::link::{Link, LinkPlaces, act_on, pause_on};
use fault_core::Act;
use pair_tracker::FewCells;

/// The bits of cells 0, 1 and 2.
#[derive(Clone, Copy, PartialEq, Eq)]
pub struct Three {
    pub x: bool,
    pub y: bool,
    pub z: bool,
}

/// One of the three cells, in the order of their addresses.
#[derive(Clone, Copy)]
pub(crate) enum Seat {
    Low,
    Mid,
    High,
}

fn index_of(seat: Seat) -> usize
    ensures index { result ≡ seat_index seat }
    ensures within { result < 3 }
{
    match seat {
        Seat::Low => 0,
        Seat::Mid => 1,
        Seat::High => 2,
    }
}

/// An act on one of the three cells. The second part is the answer of a read.
fn step(link: &Link, spots: LinkPlaces, start: Three, on: Seat, act: Act) -> (Three, Option<bool>)
    requires { FitsLinkPlaces spots 3 }
    ensures cells { result.0 ≡ step_three link.now spots start (seat_index on) act }
    ensures answer { result.1 ≡ answer_three link.now spots start (seat_index on) act }
{
    let mut cells = [start.x, start.y, start.z];
    let answer = act_on(link, spots, &mut cells, index_of(on), act);
    let next = Three {
        x: cells[0],
        y: cells[1],
        z: cells[2],
    };
    (next, answer)
}

fn pause(link: &Link, spots: LinkPlaces, start: Three) -> Three
    requires { FitsLinkPlaces spots 3 }
    ensures { result ≡ pause_three link.now spots start }
{
    let mut cells = [start.x, start.y, start.z];
    pause_on(link, spots, &mut cells);
    Three {
        x: cells[0],
        y: cells[1],
        z: cells[2],
    }
}

/// The three cells of a linked fault in these places.
#[derive(Drop)]
pub(crate) struct Cells<'a> {
    pub(crate) link: &'a Link,
    pub(crate) spots: LinkPlaces,
}

const UPWARD: [Seat; 3] = [Seat::Low, Seat::Mid, Seat::High];

const DOWNWARD: [Seat; 3] = [Seat::High, Seat::Mid, Seat::Low];

impl FewCells for Cells<'_> {
    type State = Three;

    type Cell = Seat;

    ghost Fits = { λ s. FitsLinkPlaces s.spots 3 };

    ghost machine = { λ s. machine_of s.link.now s.spots };

    ghost order = { λ s. cells_in };

    ghost wanted = { λ s. any_end };

    ghost number = { three_number };

    fn act(&self, start: Three, on: Seat, act: Act) -> (Three, Option<bool>) {
        step(self.link, self.spots, start, on, act)
    }

    fn pause(&self, start: Three) -> Three {
        pause(self.link, self.spots, start)
    }

    fn cells(&self, is_down: bool) -> &[Seat] {
        if is_down { &DOWNWARD } else { &UPWARD }
    }

    fn is_wanted(&self, _end: Three) -> bool {
        true
    }

    fn number(&self, cells: Three) -> usize {
        4 * usize::from(cells.x) + 2 * usize::from(cells.y) + usize::from(cells.z)
    }

    ghost tells = { same_number };

    ghost few = { number_below };
}
