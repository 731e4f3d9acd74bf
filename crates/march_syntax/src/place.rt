ghost use Rattle.std.specs.Prelude.{◌≡◌, [], false};
ghost use Rattle.bist_text.specs.Keywords.{seek, spell};
ghost use Rattle.march_syntax.specs.MarchText.{is_white};
ghost use Rattle.march_syntax.specs.inner.Places.{marks, spelling, move_at, may_end, IsBetween};

use bist_text::{Keyword, Letters, Spelled, first_letter, next_letter};
use march_core::{Op, Order};

/// What an element begins with.
#[derive(Clone, Copy)]
pub(crate) enum Mark {
    OfOrder(Order),
    OfPause,
}

/// How orders and pauses are spelled.
static MARKS: [Keyword<Mark>; 13] = [
    Keyword("up", Mark::OfOrder(Order::Up)),
    Keyword("^", Mark::OfOrder(Order::Up)),
    Keyword("⇑", Mark::OfOrder(Order::Up)),
    Keyword("↑", Mark::OfOrder(Order::Up)),
    Keyword("down", Mark::OfOrder(Order::Down)),
    Keyword("v", Mark::OfOrder(Order::Down)),
    Keyword("⇓", Mark::OfOrder(Order::Down)),
    Keyword("↓", Mark::OfOrder(Order::Down)),
    Keyword("any", Mark::OfOrder(Order::Any)),
    Keyword("*", Mark::OfOrder(Order::Any)),
    Keyword("⇕", Mark::OfOrder(Order::Any)),
    Keyword("↕", Mark::OfOrder(Order::Any)),
    Keyword("del", Mark::OfPause),
];

/// The letter of an operation.
#[derive(Clone, Copy)]
pub(crate) enum Access {
    Write,
    Read,
}

/// Where in a march's text a reader stands.
#[derive(Clone, Copy)]
pub(crate) enum Place {
    /// Before an element or an opening brace.
    Start,
    /// Behind the opening brace.
    Open,
    /// In an order or a pause.
    Spelling(Letters),
    /// Behind an order.
    Ordered,
    /// Before an operation.
    Wanted,
    /// Behind the letter of an operation.
    Digit(Access),
    /// Behind an operation.
    Operation,
    /// Behind an element.
    Ended,
    /// Before a further element.
    Next,
    /// Behind the closing brace.
    Closed,
}

/// What a byte adds to the march.
#[derive(Clone, Copy)]
pub(crate) enum Event {
    Quiet,
    Begins(Order),
    Adds(Op),
    Ends,
    Waits,
}

/// Where a reader goes by a byte.
#[derive(Clone, Copy)]
pub(crate) struct Move {
    pub place: Place,
    /// Whether an opening brace was read.
    pub braced: bool,
    pub event: Event,
}

impl Move {
    fn quiet(place: Place, braced: bool) -> Option<Move>
        ensures { result ≡ Some (record { place = place; braced = braced; event = Event.Quiet }) }
    {
        Some(Move {
            place,
            braced,
            event: Event::Quiet,
        })
    }
}

/// Begins a spelling.
fn first_mark(byte: u8) -> Option<Spelled<Mark>>
    ensures { result ≡ seek [] byte 0 marks }
{
    first_letter(&MARKS, byte)
}

/// Goes on in a spelling.
fn next_mark(letters: Letters, byte: u8) -> Option<Spelled<Mark>>
    ensures { result ≡ spell marks letters byte }
{
    next_letter(&MARKS, letters, byte)
}

/// Where a reader goes by what was spelled.
fn spelled(spelled: Option<Spelled<Mark>>, braced: bool) -> Option<Move>
    ensures { result ≡ spelling braced spelled }
{
    match spelled? {
        Spelled::More(letters) => Move::quiet(Place::Spelling(letters), braced),
        Spelled::Whole(Mark::OfOrder(order)) => Some(Move {
            place: Place::Ordered,
            braced,
            event: Event::Begins(order),
        }),
        Spelled::Whole(Mark::OfPause) => Some(Move {
            place: Place::Ended,
            braced,
            event: Event::Waits,
        }),
    }
}

/// The digit of an operation ends it.
fn next_digit(access: Access, braced: bool, byte: u8) -> Option<Move>
    ensures { result ≡ move_at (Place.Digit access) braced byte }
{
    let op = match (access, byte) {
        (Access::Write, b'0') => Op::W0,
        (Access::Write, b'1') => Op::W1,
        (Access::Read, b'0') => Op::R0,
        (Access::Read, b'1') => Op::R1,
        _ => return None,
    };
    Some(Move {
        place: Place::Operation,
        braced,
        event: Event::Adds(op),
    })
}

fn is_white_space(byte: u8) -> bool
    ensures { result ≡ is_white byte }
{
    byte == b' ' || byte == b'\t' || byte == b'\r' || byte == b'\n'
}

/// Goes on outside of orders and operations.
fn next_between(place: Place, braced: bool, byte: u8) -> Option<Move>
    requires { is_white byte ≡ false }
    ensures { IsBetween place → result ≡ move_at place braced byte }
{
    match (place, byte) {
        (Place::Start, b'{') => Move::quiet(Place::Open, braced),
        (Place::Start, _) => spelled(first_mark(byte), false),
        (Place::Open, b'}') => Move::quiet(Place::Closed, braced),
        (Place::Open, _) => spelled(first_mark(byte), true),
        (Place::Next, _) => spelled(first_mark(byte), braced),
        (Place::Ordered, b'(') => Move::quiet(Place::Wanted, braced),
        (Place::Wanted, b'w') => Move::quiet(Place::Digit(Access::Write), braced),
        (Place::Wanted, b'r') => Move::quiet(Place::Digit(Access::Read), braced),
        (Place::Operation, b',') => Move::quiet(Place::Wanted, braced),
        (Place::Operation, b')') => Some(Move {
            place: Place::Ended,
            braced,
            event: Event::Ends,
        }),
        (Place::Ended, b';') => Move::quiet(Place::Next, braced),
        (Place::Ended, b'}') if braced => Move::quiet(Place::Closed, braced),
        _ => None,
    }
}

/// Where a reader goes by a byte; None where nothing can go on by it.
pub(crate) fn next_move(place: Place, braced: bool, byte: u8) -> Option<Move>
    ensures { result ≡ move_at place braced byte }
{
    match place {
        Place::Spelling(letters) => spelled(next_mark(letters, byte), braced),
        Place::Digit(access) => next_digit(access, braced, byte),
        _ if is_white_space(byte) => Move::quiet(place, braced),
        _ => next_between(place, braced, byte),
    }
}

/// Whether a text may end at a place.
pub(crate) fn is_end(place: Place, braced: bool) -> bool
    ensures { result ≡ may_end place braced }
{
    match place {
        Place::Start | Place::Closed => true,
        Place::Ended => !braced,
        _ => false,
    }
}
