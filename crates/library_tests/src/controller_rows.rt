//! The microcode of marches, its steps, and what the controller shows at the ports.

use crate::given::{MATS_PLUS, all_hold, march_of, memory_of};
use controller::Control;
use march_core::March;
use memory_desc::Memory;
use microcode::{Instr, Stepper, assemble, decode, encode};

/// Whether the code of a march is that of these bytes.
fn is_coded(march: &March, bytes: &[u8]) -> bool {
    let code = assemble(march);
    if code.len() != bytes.len() {
        return false;
    }
    for (instr, byte) in code.as_slice().iter().zip(bytes) {
        if decode(*byte) != Some(*instr) {
            return false;
        }
    }
    true
}

fn a_pause_is_coded() -> bool {
    let pause = Instr {
        last: true,
        pause: true,
        ..Instr::default()
    };
    encode(pause) == 17 && decode(17) == Some(pause) && decode(16).is_none()
}

/// The addresses and the codes of the steps of MATS+ on two words.
static STEPS: [(u32, u8); 10] = [
    (0, 9),
    (1, 9),
    (0, 0),
    (0, 13),
    (1, 0),
    (1, 13),
    (1, 6),
    (1, 11),
    (0, 6),
    (0, 11),
];

/// Whether a step is at this address and has this code.
fn is_step(step: Option<(u32, Instr)>, index: u32, byte: u8) -> bool {
    match step {
        Some((visited, instr)) => visited == index && decode(byte) == Some(instr),
        None => false,
    }
}

fn takes_its_steps(march: &March) -> bool {
    march.known();
    let code = assemble(march);
    let mut stepper = Stepper::new(&code, 2);
    for (index, byte) in &STEPS {
        if !is_step(stepper.next(), *index, *byte) {
            return false;
        }
    }
    stepper.next().is_none()
}

#[test]
fn codes_and_steps(rt: HostRuntime) {
    let march = march_of(&rt, MATS_PLUS);
    all_hold(
        &rt,
        &[
            is_coded(&march, &[9, 0, 13, 6, 11]),
            a_pause_is_coded(),
            takes_its_steps(&march),
        ],
    );
}

/// Whether the ports show the commands in these cycles, and that the march is done from this one on.
fn shows_its_cycles(march: &March, memory: &Memory, commands: &[u64], done: u8) -> bool {
    march.known();
    let done = u64::from(done);
    let code = assemble(march);
    let mut control = Control::reset(&code, memory);
    for cycle in 1..done + 2 {
        let ports = control.outputs();
        if ports.en != commands.contains(&cycle) || ports.done != (cycle >= done) || ports.fail {
            return false;
        }
        control.step(0);
    }
    true
}

#[test]
fn cycles_of_the_controller(rt: HostRuntime) {
    let march = march_of(&rt, b"{any(w0)}");
    let memory = memory_of(&rt, b"memory 1\nname two\nwords 2\nbits 1\n");
    all_hold(&rt, &[shows_its_cycles(&march, &memory, &[1, 2], 4)]);
    let march = march_of(&rt, b"{any(w0);del;any(r0)}");
    let memory = memory_of(&rt, b"memory 2\nname two\nwords 2\nbits 1\npause 5\n");
    all_hold(&rt, &[shows_its_cycles(&march, &memory, &[1, 2, 8, 9], 11)]);
    let march = march_of(&rt, b"{any(w0);any(r0)}");
    let memory = memory_of(&rt, b"memory 2\nname two\nwords 2\nbits 1\nlatency 4\n");
    all_hold(&rt, &[shows_its_cycles(&march, &memory, &[1, 2, 3, 4], 9)]);
}

/// Whether the march fails from the cycle after the fifth on, in which alone the word is wrong.
fn fails_from_the_sixth(march: &March, memory: &Memory) -> bool {
    march.known();
    let code = assemble(march);
    let mut control = Control::reset(&code, memory);
    for cycle in 1..8 {
        if control.outputs().fail != (cycle > 5) {
            return false;
        }
        control.step(u64::from(cycle == 5));
    }
    true
}

/// The word of the first read stands on the port in cycle 3 + 2.
#[test]
fn a_wrong_answer_fails(rt: HostRuntime) {
    let march = march_of(&rt, b"{any(w0);any(r0)}");
    let memory = memory_of(&rt, b"memory 2\nname two\nwords 2\nbits 1\nlatency 2\n");
    all_hold(&rt, &[fails_from_the_sixth(&march, &memory)]);
}
