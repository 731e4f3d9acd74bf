//! What rows can't say: real files, and the words of a box.

use crate::given::{MATS_PLUS, all_hold, memory_of};
use bist_app::run;
use bist_host::{Host, RealHost};
use memory_desc::Memory;
use std::alloc::Global;
use std::path::PathBuf;
use std::{env, fs, process};
use word_device::{ArrayDevice, Device, PortCmd, shape_of};

/// The status of `sim` of a march whose file's name may hold spaces.
fn sim_of<H: Host>(alloc: Global, name: &str, host: &mut H) -> u8 {
    let mut devices: Vec<Box<dyn Device>> = Vec::new(alloc);
    let words = ["sim", name, "<0w1/0/->", "2", "00", "none", "0", "uud"];
    run(alloc, &words, host, &mut devices).status
}

/// A file of this process in the folder for such files.
fn own_file(rt: &HostRuntime) -> Option<PathBuf> {
    let name = format!(in rt.alloc(); "vidlakost-{}.m", process::id(rt.process())).ok()?;
    env::temp_dir(rt).ok()?.join(rt.alloc(), name.as_str()).ok()
}

#[test]
fn real_files(rt: HostRuntime) {
    let path = own_file(&rt).expect(&rt, "a path");
    let name = path.to_str().expect(&rt, "a path that is a text");
    let mut host = RealHost::new(&rt);
    let is_written = host.write_file(name, MATS_PLUS).is_ok();
    let status = sim_of(rt.alloc(), name, &mut host);
    let is_gone = fs::remove_file(&rt, name).is_ok();
    all_hold(&rt, &[is_written & is_gone & (status == 1)]);
}

/// The words that a box of two words answers to two commands, once it is filled with the words of this number.
fn answers_of(
    alloc: Global,
    memory: &Memory,
    number: u64,
    commands: (&PortCmd, &PortCmd),
) -> Option<(u64, u64)> {
    let mut device = ArrayDevice::new(alloc, 2);
    device.fit(&shape_of(memory)).ok()?;
    device.fill(number);
    let first = device.cycle(commands.0);
    let second = device.cycle(commands.1);
    Some((first, second))
}

fn command(we: bool, addr: u32, wdata: u64) -> PortCmd {
    PortCmd {
        en: true,
        we,
        addr,
        wdata,
    }
}

#[test]
fn a_write_is_answered_by_zero(rt: HostRuntime) {
    let memory = memory_of(&rt, b"memory 2\nname wide\nwords 2\nbits 8\npause 65535\n");
    let commands = (&command(true, 1, 0xa5), &command(false, 1, 0xa5));
    let answers = answers_of(rt.alloc(), &memory, 0x7e7e, commands);
    all_hold(&rt, &[answers == Some((0, 0xa5))]);
}

#[test]
fn the_words_of_a_number(rt: HostRuntime) {
    let memory = memory_of(&rt, b"memory 1\nname wide\nwords 2\nbits 64\n");
    let commands = (&command(false, 0, 0), &command(false, 1, 0));
    let answers = answers_of(rt.alloc(), &memory, 0x1_0000_0001, commands);
    all_hold(&rt, &[answers == Some((0x1_0000_0000, 0x3_0000_0000))]);
}
