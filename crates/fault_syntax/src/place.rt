ghost use Rattle.std.specs.Prelude.{◌≡◌, Bool, Some, false};
ghost use Rattle.bist_text.specs.Grammar.{is_blank};
ghost use Rattle.fault_syntax.specs.inner.Places.{spelling, named_at, comment_at, bit_of, operation, move_at, may_end, IsOutside, IsSense, IsEffect};

use crate::words::{Form, GroupName, Operation, words_of};
use bist_text::{Letters, Spelled, first_letter, next_letter};

/// The letter of an operation that has a digit.
#[derive(Clone, Copy)]
pub(crate) enum Access {
    Writes,
    Reads,
}

/// Where in a line a reader stands.
#[derive(Clone, Copy)]
pub(crate) enum Place {
    /// Before an item.
    Start,
    /// In a name.
    Spelling(Letters),
    /// Before a sense.
    Opened,
    /// Behind the letter of a read that begins a sense.
    Lead,
    /// Behind a state or an operation.
    Sensed,
    /// Behind the letter of an operation.
    Digit(Access),
    /// Behind the senses, before the victim's state.
    Effect,
    /// Behind the victim's state.
    Left,
    /// Before the answer.
    Reply,
    /// Behind the answer.
    Replied,
    /// Behind an item.
    Closed,
    /// In a comment.
    Comment,
}

/// What a byte says of the item.
#[derive(Clone, Copy)]
pub(crate) enum Event {
    Quiet,
    /// A primitive begins.
    Opens,
    /// A sense begins with a state.
    Holds(bool),
    /// A sense begins with a read.
    Leads(bool),
    Adds(Operation),
    /// The sense that was read is the aggressor's.
    Parts,
    Leaves(bool),
    Answers(Option<bool>),
    /// The primitive is whole.
    Closes,
    Names(GroupName),
    /// There is no item.
    Nothing,
}

/// What sort of item was read.
#[derive(Clone, Copy)]
pub(crate) enum Kind {
    NoItem,
    IsPrimitive,
    IsNamed(GroupName),
}

/// Where a reader goes by a byte.
#[derive(Clone, Copy)]
pub(crate) struct Move {
    pub place: Place,
    pub event: Event,
}

impl Move {
    fn to(place: Place, event: Event) -> Option<Move>
        ensures { result ≡ Some (record { place = place; event = event }) }
    {
        Some(Move { place, event })
    }
}

/// Goes on in a name.
fn in_name(spelled: Option<Spelled<GroupName>>) -> Option<Move>
    ensures { result ≡ spelling spelled }
{
    match spelled? {
        Spelled::More(letters) => Move::to(Place::Spelling(letters), Event::Quiet),
        Spelled::Whole(name) => Move::to(Place::Closed, Event::Names(name)),
    }
}

/// Begins a comment or a name, where there may be one.
fn next_named(form: Form, byte: u8) -> Option<Move>
    ensures { result ≡ named_at form byte }
{
    match form {
        Form::Single => None,
        Form::Listed(_) if byte == b'#' => Move::to(Place::Comment, Event::Nothing),
        Form::Listed(_) => in_name(first_letter(words_of(form), byte)),
    }
}

/// Begins a comment behind an item, where there may be one.
fn next_comment(form: Form, byte: u8) -> Option<Move>
    ensures { result ≡ comment_at form byte }
{
    match form {
        Form::Listed(_) if byte == b'#' => Move::to(Place::Comment, Event::Quiet),
        _ => None,
    }
}

/// The bit that a digit writes.
fn digit(byte: u8) -> Option<bool>
    ensures { result ≡ bit_of byte }
{
    match byte {
        b'0' => Some(false),
        b'1' => Some(true),
        _ => None,
    }
}

/// The operation of a letter and a digit.
fn operation(access: Access, bit: bool) -> Operation
    ensures { result ≡ operation access bit }
{
    match access {
        Access::Writes => Operation::Write(bit),
        Access::Reads => Operation::Read(bit),
    }
}

fn is_space(byte: u8) -> bool
    ensures { result ≡ is_blank byte }
{
    byte == b' ' || byte == b'\t' || byte == b'\r'
}

/// Goes on before or behind an item.
fn next_outside(place: Place, form: Form, byte: u8) -> Option<Move>
    requires { is_blank byte ≡ false }
    ensures { (g : Bool) → IsOutside place → result ≡ move_at place form g byte }
{
    match place {
        Place::Start if byte == b'<' => Move::to(Place::Opened, Event::Opens),
        Place::Start => next_named(form, byte),
        _ => next_comment(form, byte),
    }
}

/// Goes on in the senses of a primitive.
fn next_sense(place: Place, has_aggressor: bool, byte: u8) -> Option<Move>
    requires { is_blank byte ≡ false }
    ensures { (l : Form) → IsSense place → result ≡ move_at place l has_aggressor byte }
{
    match (place, byte) {
        (Place::Opened, b'r') => Move::to(Place::Lead, Event::Quiet),
        (Place::Opened, _) => Move::to(Place::Sensed, Event::Holds(digit(byte)?)),
        (Place::Sensed, b'w') => Move::to(Place::Digit(Access::Writes), Event::Quiet),
        (Place::Sensed, b'r') => Move::to(Place::Digit(Access::Reads), Event::Quiet),
        (Place::Sensed, b't') => Move::to(Place::Sensed, Event::Adds(Operation::Pause)),
        (Place::Sensed, b'/') => Move::to(Place::Effect, Event::Quiet),
        (Place::Sensed, b';') if !has_aggressor => Move::to(Place::Opened, Event::Parts),
        _ => None,
    }
}

/// Goes on behind the senses of a primitive.
fn next_effect(place: Place, byte: u8) -> Option<Move>
    requires { is_blank byte ≡ false }
    ensures { (l : Form) (g : Bool) → IsEffect place → result ≡ move_at place l g byte }
{
    match (place, byte) {
        (Place::Effect, _) => Move::to(Place::Left, Event::Leaves(digit(byte)?)),
        (Place::Left, b'/') => Move::to(Place::Reply, Event::Quiet),
        (Place::Reply, b'-') => Move::to(Place::Replied, Event::Answers(None)),
        (Place::Reply, _) => Move::to(Place::Replied, Event::Answers(Some(digit(byte)?))),
        (Place::Replied, b'>') => Move::to(Place::Closed, Event::Closes),
        _ => None,
    }
}

/// Where a reader goes by a byte; None where nothing can go on by it.
pub(crate) fn next_move(place: Place, form: Form, has_aggressor: bool, byte: u8) -> Option<Move>
    ensures { result ≡ move_at place form has_aggressor byte }
{
    match place {
        Place::Comment => Move::to(Place::Comment, Event::Quiet),
        Place::Spelling(letters) => in_name(next_letter(words_of(form), letters, byte)),
        Place::Lead => Move::to(Place::Sensed, Event::Leads(digit(byte)?)),
        Place::Digit(access) => {
            Move::to(Place::Sensed, Event::Adds(operation(access, digit(byte)?)))
        }
        _ if is_space(byte) => Move::to(place, Event::Quiet),
        Place::Start | Place::Closed => next_outside(place, form, byte),
        Place::Opened | Place::Sensed => next_sense(place, has_aggressor, byte),
        _ => next_effect(place, byte),
    }
}

/// Whether a text may end at a place.
pub(crate) fn is_end(place: Place, form: Form) -> bool
    ensures { result ≡ may_end place form }
{
    match place {
        Place::Start => matches!(form, Form::Listed(_)),
        Place::Closed | Place::Comment => true,
        _ => false,
    }
}
