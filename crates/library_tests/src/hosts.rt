//! The hosts in memory, without and with failing calls.

use crate::given::all_hold;
use bist_host::{FailHost, Host, HostFault, MemHost};
use std::alloc::Global;

/// Whether a file of a host is read as this text.
fn reads<H: Host>(host: &mut H, text: &[u8]) -> bool {
    match host.read_file("a", text.len()) {
        Ok(bytes) => bytes.as_slice() == text,
        Err(_) => false,
    }
}

/// Whether a host keeps what was last written to it, and what is said.
fn keeps_the_last_text(alloc: Global) -> bool {
    let mut host = MemHost::new(alloc);
    let is_done = host.put("a", b"first").is_ok()
        & host.write_file("b", b"other").is_ok()
        & host.write_file("a", b"again").is_ok()
        & host.say(b"one").is_ok()
        & host.say(b"two").is_ok();
    is_done && host.said() == b"onetwo".as_slice() && reads(&mut host, b"again")
}

/// Whether the second of three calls on a file fails, and no other.
fn the_second_call_fails(host: &mut FailHost) -> bool {
    let is_written = host.write_file("a", b"whole").is_ok();
    let fault = host.read_file("a", 9).err();
    is_written && fault == Some(HostFault::ReadFailed) && reads(host, b"whole")
}

/// Whether a write fails, and of two sayings the second.
fn the_next_writes_fail(host: &mut FailHost) -> bool {
    let written = host.write_file("a", b"other");
    let is_said = host.say(b"said").is_ok();
    let lost = host.say(b"lost");
    is_said && written == Err(HostFault::WriteFailed) && lost == Err(HostFault::WriteFailed)
}

/// Whether the half of a text is in the file, and only the first words were said.
fn holds_what_came_before(host: &MemHost) -> bool {
    host.get("a") == Some(b"ot".as_slice()) && host.said() == b"said".as_slice()
}

#[test]
fn hosts_in_memory(rt: HostRuntime) {
    let failing = [2, 4, 6].to_vec(rt.alloc()).expect(&rt, "numbers");
    let mut host = FailHost::new(MemHost::new(rt.alloc()), failing);
    all_hold(
        &rt,
        &[
            keeps_the_last_text(rt.alloc()),
            the_second_call_fails(&mut host),
            the_next_writes_fail(&mut host),
            holds_what_came_before(host.inner()),
        ],
    );
}
