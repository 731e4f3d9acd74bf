ghost use Rattle.std.specs.Prelude.{◌≡◌, ◌++◌, ◌∷◌, [], option_map};
ghost use Rattle.bist_text.specs.Machine.{scan};
ghost use Rattle.fault_syntax.specs.Brief.{brief_of, read_item_of};
ghost use Rattle.fault_syntax.specs.inner.Brief.{reader_of, answer_of};
ghost use Rattle.fault_syntax.specs.PrimText.{SenseText};
ghost use Rattle.fault_syntax.specs.inner.Places.{State, start, step, value, after_event, item_at};

use crate::place::{Event, Kind, Place, is_end, next_move};
use crate::words::{Form, GroupName, Operation};

/// What is kept of a written sense: of its operations the first two, and whether there are more.
#[derive(Clone, Copy)]
pub struct Brief {
    pub state: bool,
    pub first: Option<Operation>,
    pub second: Option<Operation>,
    pub more: bool,
}

/// Where a reader stands, and what it keeps.
#[derive(Clone, Copy)]
pub(crate) struct Reader {
    place: Place,
    agg: Option<Brief>,
    sense: Brief,
    after: bool,
    answer: Option<bool>,
    kind: Kind,
}

/// The parts of a primitive that was read.
#[derive(Clone, Copy)]
pub struct ReadParts {
    pub agg: Option<Brief>,
    pub vic: Brief,
    pub after: bool,
    pub answer: Option<bool>,
}

/// What was read on a line.
#[derive(Clone, Copy)]
pub enum ReadItem {
    Nothing,
    Primitive(ReadParts),
    Named(GroupName),
}

/// Why a text is refused, with the byte.
#[derive(Clone, Copy)]
pub(crate) enum Refusal {
    Unexpected(usize),
    Truncated,
}

impl Brief {
    fn new(state: bool) -> Brief
        ensures { result ≡ brief_of (record { state = state; ops = [] }) }
    {
        Brief {
            state,
            first: None,
            second: None,
            more: false,
        }
    }

    /// A sense that begins with a read of its state.
    fn led(state: bool) -> Brief
        ensures { result ≡ brief_of (record { state = state; ops = Operation.Read state ∷ [] }) }
    {
        Brief {
            state,
            first: Some(Operation::Read(state)),
            second: None,
            more: false,
        }
    }

    /// The same with one more operation.
    fn with(self, op: Operation) -> Brief
        ensures { (text : SenseText) → self ≡ brief_of text → result ≡ brief_of (record { state = text.state; ops = text.ops ++ op ∷ [] }) }
    {
        match (self.first, self.second) {
            (None, _) => Brief {
                first: Some(op),
                ..self
            },
            (Some(_), None) => Brief {
                second: Some(op),
                ..self
            },
            (Some(_), Some(_)) => Brief { more: true, ..self },
        }
    }
}

impl Reader {
    fn new() -> Reader
        ensures { result ≡ reader_of start }
    {
        Reader {
            place: Place::Start,
            agg: None,
            sense: Brief::new(false),
            after: false,
            answer: None,
            kind: Kind::NoItem,
        }
    }

    /// Keeps what a byte says.
    fn keep(self, event: Event) -> Reader
        ensures { (s : State) → self ≡ reader_of s → result ≡ reader_of (after_event event s) }
    {
        match event {
            Event::Quiet => self,
            Event::Opens => Reader { agg: None, ..self },
            Event::Holds(state) => Reader {
                sense: Brief::new(state),
                ..self
            },
            Event::Leads(bit) => Reader {
                sense: Brief::led(bit),
                ..self
            },
            Event::Adds(op) => Reader {
                sense: self.sense.with(op),
                ..self
            },
            Event::Parts => Reader {
                agg: Some(self.sense),
                ..self
            },
            Event::Leaves(after) => Reader { after, ..self },
            Event::Answers(answer) => Reader { answer, ..self },
            Event::Closes => Reader {
                kind: Kind::IsPrimitive,
                ..self
            },
            Event::Names(name) => Reader {
                kind: Kind::IsNamed(name),
                ..self
            },
            Event::Nothing => Reader {
                kind: Kind::NoItem,
                ..self
            },
        }
    }

    /// Goes on by a byte; None where nothing can go on by it.
    fn next(self, form: Form, byte: u8) -> Option<Reader>
        ensures { (s : State) → self ≡ reader_of s → result ≡ option_map reader_of (step form s byte) }
    {
        let next = next_move(self.place, form, self.agg.is_some(), byte)?;
        let moved = Reader {
            place: next.place,
            ..self
        };
        Some(moved.keep(next.event))
    }

    /// What was read, where a text may end.
    fn item(self) -> ReadItem
        ensures { (s : State) → self ≡ reader_of s → result ≡ read_item_of (item_at s.place s) }
    {
        match (self.place, self.kind) {
            (Place::Start, _) | (_, Kind::NoItem) => ReadItem::Nothing,
            (_, Kind::IsPrimitive) => ReadItem::Primitive(ReadParts {
                agg: self.agg,
                vic: self.sense,
                after: self.after,
                answer: self.answer,
            }),
            (_, Kind::IsNamed(name)) => ReadItem::Named(name),
        }
    }
}

/// Reads a line of a list, or the text of a primitive alone.
pub(crate) fn read_item(text: &[u8], form: Form) -> Result<ReadItem, Refusal>
    ensures { result ≡ answer_of (scan (step form) (value form) text.now start 0) }
{
    let mut reader = Reader::new();
    for (i, byte) in text.iter().enumerate() {
        match reader.next(form, *byte) {
            Some(next) => reader = next,
            None => return Err(Refusal::Unexpected(i)),
        }
    }
    if !is_end(reader.place, form) {
        return Err(Refusal::Truncated);
    }
    Ok(reader.item())
}
