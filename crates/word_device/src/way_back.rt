ghost use Rattle.std.specs.Prelude.{◌≡◌, ◌*◌, ◌<◌, ◌≤◌, ◌^◌};
ghost use Rattle.word_device.specs.WayBack.{IsIndexOf, IsWayBack, led_to};
ghost use Rattle.word_device.specs.inner.WayBack.{AreLow, AreHigh};

use bist_bits::all_ones;
use scrambler::Scramble;

/// The way from an address to the index that has it, by two tables: the index is the exclusive or of what the low and the high byte of
/// the address lead to. So a cycle takes the same two steps for every scrambling.
#[derive(Drop)]
pub(crate) struct WayBack {
    pub low: [u16; 256],
    pub high: [u16; 256],
}

impl WayBack {
    /// The way back of a scrambling.
    pub(crate) fn of(scramble: &Scramble) -> WayBack
        ensures { IsWayBack scramble.now result }
    {
        scramble.known();
        let last = all_ones(scramble.width()) as u32;
        let low = low_indexes(scramble, last.min(255));
        let high = high_indexes(scramble, last >> 8, low[0]);
        WayBack { low, high }
    }

    /// What an address of 16 bits leads to.
    pub(crate) fn index_of(&self, address: u32) -> u32
        requires { address < 65536 }
        ensures { result ≡ led_to self.now address }
    {
        u32::from(self.low[(address & 255) as usize] ^ self.high[(address >> 8) as usize])
    }
}

/// What the low bytes up to the last lead to.
fn low_indexes(scramble: &Scramble, last: u32) -> [u16; 256]
    requires byte { last < 256 }
    requires address { last < 2 ^ scramble.now.width }
    requires narrow { scramble.now.width ≤ 16 }
    ensures { AreLow scramble.now result last }
{
    let mut low = [0; 256];
    for byte in 0..last + 1 {
        low[byte as usize] = scramble.physical_of(byte) as u16;
    }
    low
}

/// What the high bytes up to the last lead to, beside a low byte of 0.
fn high_indexes(scramble: &Scramble, last: u32, zeros: u16) -> [u16; 256]
    requires byte { last < 256 }
    requires address { last * 256 < 2 ^ scramble.now.width }
    requires narrow { scramble.now.width ≤ 16 }
    requires zeros { zeros < 65536 }
    ensures { AreHigh scramble.now result zeros last }
{
    let mut high = [0; 256];
    for byte in 0..last + 1 {
        high[byte as usize] = scramble.physical_of(byte << 8) as u16 ^ zeros;
    }
    high
}
