//! The plan of a march and a memory.
ghost use Rattle.std.specs.Prelude.{◌≡◌, ℕ, ◌-◌, ◌^◌, ◌<◌, ◌≤◌, true, length};
ghost use Rattle.march_core.specs.March.{IsMarch, is_pause_at};
ghost use Rattle.memory_desc.specs.Descriptions.{IsMemory};
ghost use Rattle.rtl_layout.specs.Seen.{seen};
ghost use Rattle.rtl_gen.specs.inner.Planned.{Plans};

use crate::tables::{backgrounds, elements, has_pause, most_ops, rows};
use bist_bits::width_of;
use march_core::March;
use memory_desc::Memory;
use rtl_layout::Plan;
use self_test::module_of;

// How many cycles a pause takes: 1 where the march has none.
fn pause_of(march: &March, memory: &Memory) -> u32
    ensures low { 1 ≤ result }
    ensures high { result ≤ 65536 }
    ensures pauses { (k : ℕ) → k < length march.now → is_pause_at march.now k ≡ true → result ≡ memory.now.pause }
{
    if has_pause(march) { memory.pause() } else { 1 }
}

// How many bits the number of a visit has: those of an address, or more where a pause needs them.
fn visit_width(address: u8, pause: u32) -> u8
    requires narrow { address ≤ 16 }
    requires low { 1 ≤ pause }
    requires high { pause ≤ 65536 }
    ensures address { address ≤ result }
    ensures pause { pause - 1 < 2 ^ result }
    ensures narrow { result ≤ 16 }
{
    let width = width_of(u64::from(pause - 1));
    if width < address { address } else { width }
}

/// The plan of a march and a memory.
pub fn plan(march: &March, memory: &Memory) -> Plan
    ensures plans { Plans march.now memory.now (seen result) }
    ensures march { IsMarch march.now }
    ensures memory { IsMemory memory.now }
{
    let pause = pause_of(march, memory);
    let most = most_ops(march);
    let scramble = memory.scramble();
    let count = memory.backgrounds().len();
    Plan {
        name: module_of(memory),
        elements: elements(march),
        words: memory.words(),
        bits: memory.bits(),
        backgrounds: backgrounds(memory),
        straight: scramble.is_identity(),
        rows: rows(scramble),
        delay: memory.latency() - 1,
        polarity: memory.polarity(),
        pause,
        addr_width: memory.address_bits(),
        visit_width: visit_width(memory.address_bits(), pause),
        element_width: width_of(march.len() as u64 - 1),
        oper_width: width_of(most as u64 - 1),
        back_width: width_of(count as u64 - 1),
    }
}
