//! The two cells of a fault, x on side A and y on side V.

ghost use Rattle.std.specs.Prelude.{◌≡◌};
ghost use Rattle.decoder_faults.specs.Decoding.{wired_bit};
ghost use Rattle.decoder_faults.specs.inner.Pairs.{side_reach, pair_written, pair_read, pair_act, pair_reply, machine_of};
ghost use Rattle.pair_tracker.specs.Pairs.{sides_in};
ghost use Rattle.pair_tracker.specs.Survivors.{pair_number};
ghost use Rattle.pair_tracker.specs.Tracking.{any_end};
ghost use Rattle.pair_tracker.specs.inner.Numbers.{same_number, number_below};

use crate::fault::{DecoderFault, WiredRead};
use cell_machine::{Pair, Side};
use fault_core::Act;
use pair_tracker::{FewCells, number_of, sides_in};

/// Which of the two cells an address of the two reaches.
#[derive(Clone, Copy)]
enum SideReach {
    /// None, and a read answers this bit.
    Neither(bool),
    One(Side),
    /// Both, of which this one is its own.
    Both(Side, WiredRead),
}

fn side_reach(fault: DecoderFault, on: Side) -> SideReach
    ensures { result ≡ side_reach fault on }
{
    match on {
        Side::A => match fault {
            DecoderFault::NoCell(answer) => SideReach::Neither(answer),
            DecoderFault::OtherCell => SideReach::One(Side::V),
            DecoderFault::BothCells(wired) => SideReach::Both(Side::A, wired),
            DecoderFault::TakenCell(answer, _) => SideReach::Neither(answer),
        },
        Side::V => match fault {
            DecoderFault::TakenCell(_, wired) => SideReach::Both(Side::V, wired),
            DecoderFault::NoCell(_) | DecoderFault::OtherCell | DecoderFault::BothCells(_) => {
                SideReach::One(Side::V)
            }
        },
    }
}

fn wired_bit(wired: WiredRead, own: bool, other: bool) -> bool
    ensures { result ≡ wired_bit wired own other }
{
    match wired {
        WiredRead::And => own && other,
        WiredRead::Or => own || other,
        WiredRead::Own => own,
    }
}

impl SideReach {
    fn write(self, pair: Pair, bit: bool) -> Pair
        ensures { result ≡ pair_written self pair bit }
    {
        match self {
            SideReach::Neither(_) => pair,
            SideReach::One(Side::A) => Pair { a: bit, ..pair },
            SideReach::One(Side::V) => Pair { v: bit, ..pair },
            SideReach::Both(_, _) => Pair { a: bit, v: bit },
        }
    }

    fn read(self, pair: Pair) -> bool
        ensures { result ≡ pair_read self pair }
    {
        match self {
            SideReach::Neither(answer) => answer,
            SideReach::One(Side::A) => pair.a,
            SideReach::One(Side::V) => pair.v,
            SideReach::Both(Side::A, wired) => wired_bit(wired, pair.a, pair.v),
            SideReach::Both(Side::V, wired) => wired_bit(wired, pair.v, pair.a),
        }
    }

    /// An act on the cells that are reached. The second part is the answer of a read.
    fn act(self, pair: Pair, act: Act) -> (Pair, Option<bool>)
        ensures pair { result.0 ≡ pair_act self pair act }
        ensures answer { result.1 ≡ pair_reply self pair act }
    {
        match act {
            Act::Write(bit) => (self.write(pair, bit), None),
            Act::Read => (pair, Some(self.read(pair))),
            Act::Pause => (pair, None),
        }
    }
}

/// The two cells of a fault, by whether x has the lower address.
#[derive(Drop)]
pub(crate) struct Cells {
    pub(crate) fault: DecoderFault,
    pub(crate) is_below: bool,
}

impl FewCells for Cells {
    type State = Pair;

    type Cell = Side;

    ghost Fits = { λ s. Unit {0} };

    ghost machine = { λ s. machine_of s.fault };

    ghost order = { λ s. sides_in s.is_below };

    ghost wanted = { λ s. any_end };

    ghost number = { pair_number };

    fn act(&self, start: Pair, on: Side, act: Act) -> (Pair, Option<bool>) {
        side_reach(self.fault, on).act(start, act)
    }

    fn pause(&self, start: Pair) -> Pair {
        start
    }

    fn cells(&self, is_down: bool) -> &[Side] {
        sides_in(self.is_below, is_down)
    }

    fn is_wanted(&self, _end: Pair) -> bool {
        true
    }

    fn number(&self, pair: Pair) -> usize {
        number_of(pair)
    }

    ghost tells = { same_number };

    ghost few = { number_below };
}
