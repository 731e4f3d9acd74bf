//! The commands of memories with a polarity or pauses.

use crate::given::{all_hold, march_of, memory_of};
use march_core::March;
use memory_desc::Memory;
use word_march::{length, span, word_ops};

/// Whether there are four commands, and 1 is the greatest word of their operations.
fn has_its_greatest_word(march: &March, memory: &Memory) -> bool {
    length(march, memory) == 4 && word_ops(march, memory).map(|o| o.word).max() == Some(1)
}

/// Whether a march has so many commands on the memory, and takes so many cycles.
fn takes(march: &March, memory: &Memory, commands: u64, cycles: u64) -> bool {
    length(march, memory) == commands && span(march, memory) == cycles
}

#[test]
fn a_polarity_inverts_words_at_the_port_alone(rt: HostRuntime) {
    let march = march_of(&rt, b"{up(w1);down(r1)}");
    let memory = memory_of(&rt, b"memory 2\nname two\nwords 2\nbits 1\npolarity 1\n");
    all_hold(&rt, &[has_its_greatest_word(&march, &memory)]);
}

#[test]
fn pauses_are_no_commands_but_take_cycles(rt: HostRuntime) {
    let march = march_of(&rt, b"{any(w0);del;any(r0)}");
    let brief = memory_of(&rt, b"memory 2\nname two\nwords 2\nbits 1\n");
    let long = memory_of(&rt, b"memory 2\nname two\nwords 2\nbits 2\npause 5\n");
    all_hold(
        &rt,
        &[takes(&march, &brief, 4, 5), takes(&march, &long, 8, 18)],
    );
}
