ghost use Rattle.std.specs.Prelude.{◌≡◌, ◌≢◌, ◌<◌, ◌↔◌, Some, None, IfSome, OnSome};
ghost use Rattle.microcode.specs.Bytes.{byte_of, IsInstr};
ghost use Rattle.microcode.specs.declared.code.Instr.{Instr};

use crate::code::Instr;

/// An instruction as a byte: pause is bit 4, write bit 3, the data value bit 2, down bit 1 and last bit 0.
pub fn encode(instr: Instr) -> u8
    requires { IsInstr instr }
    ensures { result ≡ byte_of instr }
{
    let high = u8::from(instr.pause) * 16 + u8::from(instr.write) * 8;
    let low = u8::from(instr.bit) * 4 + u8::from(instr.down) * 2 + u8::from(instr.last);
    high + low
}

/// The instruction that a byte stands for; None where it is none.
pub fn decode(byte: u8) -> Option<Instr>
    ensures instr { (i : Instr) → IsInstr i → byte ≡ byte_of i → result ≡ Some i }
    ensures some { IfSome result (λ i. IsInstr i) }
    ensures byte { IfSome result (λ i. byte_of i ≡ byte) }
    ensures none { (result ≡ None) ↔ ((15 < byte) × (byte ≢ 17)) }
{
    if byte > 15 && byte != 17 {
        return None;
    }
    Some(Instr {
        write: byte >> 3 & 1 == 1,
        bit: byte >> 2 & 1 == 1,
        down: byte >> 1 & 1 == 1,
        last: byte & 1 == 1,
        pause: byte == 17,
    })
}
