//! Refusals as text: each as the program says it, without its first word.

use crate::rows::cut;
use bist_endings::{Refusal, conclude};
use bist_host::MemHost;
use std::alloc::Global;

/// The code of a refusal and what stands behind it: `M1 byte 6`.
pub(crate) fn refusal_text(alloc: Global, refusal: Refusal) -> Option<Vec<u8>> {
    let mut host = MemHost::new(alloc);
    conclude(alloc, &[], &mut host, Err(refusal));
    let (said, _) = cut(host.said(), b'\n');
    let (_, text) = cut(said, b' ');
    text.to_vec(alloc).ok()
}
