//! A self-test behind its collar: laws alone.
#![tactic(auto)]

mod laws;

pub use laws::{collar_tests, joint_cycles_settle, quiet_in_use, top_connects, top_shows};
