//! Places of values, written where there is one.
ghost use Rattle.std.specs.Prelude.{◌≡◌, length};
ghost use Rattle.verilog_code.specs.Places.{put};

/// Puts a value at a place of a list.
pub(crate) fn put<T: Copy>(values: &mut Vec<T>, place: usize, x: T)
    ensures len { length values.new.items ≡ length values.old.items }
    ensures items { values.new.items ≡ put values.old.items place x }
{
    if place < values.len() {
        values[place] = x;
    }
}

/// The same of a slice.
pub(crate) fn set<T: Copy>(next: &mut [T], place: usize, x: T)
    ensures { next.new ≡ put next.old place x }
{
    if place < next.len() {
        next[place] = x;
    }
}
