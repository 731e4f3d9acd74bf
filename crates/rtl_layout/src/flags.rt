//! What the tables over the march tell.

/// Of an element at a number of an operation: whether that writes or its bit is 1, and of the one behind it whether its
/// bit is 1 or it is the last. Of an element at each number: whether it goes downward, is a pause, or has one operation.
#[derive(Clone, Copy)]
pub enum MarchFlag {
    Write,
    One,
    OneBehind,
    EndsBehind,
    Down,
    Pause,
    Single,
}
