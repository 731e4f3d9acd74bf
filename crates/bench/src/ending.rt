use self_test::RunFault;
use word_device::Device;

/// The first read that was not answered by its expected word.
#[derive(Clone, Copy)]
pub struct Seen {
    /// The cycle in which its answer stood on `rdata`; the reset is cycle 0.
    pub cycle: u32,
    /// The word at the port that the read expects.
    pub expected: u64,
    /// The word that returned.
    pub returned: u64,
}

/// How a run ended.
pub struct BenchEnd {
    /// The port `fail` in the last cycle.
    pub fail: bool,
    /// The first cycle with the port `done` at 1; `None` where it was 1 in no cycle of the run.
    pub done_cycle: Option<u32>,
    /// The first read that was not answered by its expected word; `None` where each read was.
    pub first: Option<Seen>,
    /// The box, after the last cycle.
    pub device: Box<dyn Device>,
}

/// A refusal hands the box back, which was not called.
pub struct BenchRefused {
    pub fault: RunFault,
    pub device: Box<dyn Device>,
}
