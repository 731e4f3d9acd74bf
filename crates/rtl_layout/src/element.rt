ghost use Rattle.std.specs.Prelude.{◌≡◌, ◌<◌, ◌++◌, ◌∷◌, [], length};

use arrayvec::ArrayVec;
use std::marker::Model;

/// An operation: a write or a read, and its bit.
#[derive(Clone, Copy)]
pub struct PlanOperation {
    pub write: bool,
    pub bit: bool,
}

impl Default for PlanOperation {
    fn default() -> Self {
        PlanOperation {
            write: false,
            bit: false,
        }
    }
}

/// An element of the march, or a pause, which has one operation that is never shown.
#[derive(Drop)]
pub struct Element {
    down: bool,
    pause: bool,
    operations: ArrayVec<PlanOperation, 16>,
}

impl Model for Element {
    ghost use Rattle.rtl_layout.specs.Plan.{Element};

    ghost Value = { Element };

    ghost view = { λ e. record { down = e.down; pause = e.pause; operations = e.operations.items } };
}

impl Element {
    /// An element without operations yet.
    pub fn new(down: bool, pause: bool) -> Self
        ensures { result ≡ record { down = down; pause = pause; operations = [] } }
    {
        Element {
            down,
            pause,
            operations: ArrayVec::new(),
        }
    }

    /// Whether it goes downward.
    pub fn is_down(&self) -> bool
        ensures { result ≡ self.now.down }
    {
        self.down
    }

    /// Whether it is a pause.
    pub fn is_pause(&self) -> bool
        ensures { result ≡ self.now.pause }
    {
        self.pause
    }

    /// Its operations.
    pub fn operations(&self) -> &[PlanOperation]
        ensures { result.now ≡ self.now.operations }
    {
        self.operations.as_slice()
    }

    /// One operation more, at the end.
    pub fn push(&mut self, operation: PlanOperation)
        requires { length self.old.operations < 16 }
        ensures { self.new ≡ record { down = self.old.down; pause = self.old.pause; operations = self.old.operations ++ operation ∷ [] } }
    {
        self.operations.push(operation);
    }
}

impl Default for Element {
    fn default() -> Self {
        Element::new(false, true)
    }
}
