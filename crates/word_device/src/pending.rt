ghost use Rattle.std.specs.Prelude.{◌≡◌, ◌-◌, ◌≤◌, drop, replicate, slice_index};
ghost use Rattle.word_device.specs.Ports.{queued};

use arrayvec::ArrayVec;

/// The answers under way in a memory of this latency that was never read: 0 for each cycle but the last.
pub(crate) fn no_answers(latency: u8) -> ArrayVec<u64, 3>
    requires { (1 ≤ latency) × (latency ≤ 4) }
    ensures { result.items ≡ replicate (latency - 1) 0 }
{
    let mut pending = ArrayVec::new();
    for _ in 0..latency - 1 {
        pending.push(0);
    }
    pending
}

/// Puts an answer at the end of those under way, and takes the first of them off.
pub(crate) fn pass_on(pending: &mut ArrayVec<u64, 3>, own: u64) -> u64
    ensures pending { pending.new.items ≡ drop 1 (queued pending.old.items own) }
    ensures answer { result ≡ slice_index (queued pending.old.items own) 0 }
{
    if pending.len() == 0 {
        return own;
    }
    let first = pending.remove(0);
    pending.push(own);
    first
}
