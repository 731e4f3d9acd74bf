ghost use Rattle.std.specs.Prelude.{◌≡◌, ◌≤◌, ◌+◌, ◌++◌, length};
ghost use Rattle.fault_core.specs.Primitive.{IsPrimitive};
ghost use Rattle.fault_syntax.specs.Parts.{StandsFor};
ghost use Rattle.fault_syntax.specs.Printed.{act_text, sense_text, aggressor_text, printed};
ghost use Rattle.fault_syntax.specs.PrimText.{PrimParts, PrimText, bit_text, answer_text};

use arrayvec::ArrayString;
use fault_core::{Act, Prim, Sense};

/// A bit as it is printed: `0` or `1`.
pub fn bit(value: bool) -> &'static str
    ensures text { result.now ≡ bit_text value }
    ensures short { length result.now ≡ 1 }
{
    if value { "1" } else { "0" }
}

/// An answer as it is printed: `-` where there is none.
pub fn answer(value: Option<bool>) -> &'static str
    ensures text { result.now ≡ answer_text value }
    ensures short { length result.now ≡ 1 }
{
    match value {
        None => "-",
        Some(value) => bit(value),
    }
}

/// Appends an act: `w` with its bit, `r` with the content of the cell before it, or `t`; nothing where there is none.
pub fn push_act(out: &mut ArrayString<32>, state: bool, act: Option<Act>)
    requires room { length out.old.bytes ≤ 16 }
    ensures text { out.new.bytes ≡ out.old.bytes ++ act_text state act }
    ensures short { length out.new.bytes ≤ length out.old.bytes + 2 }
{
    match act {
        None => {}
        Some(Act::Write(value)) => {
            out.push_str("w");
            out.push_str(bit(value));
        }
        Some(Act::Read) => {
            out.push_str("r");
            out.push_str(bit(state));
        }
        Some(Act::Pause) => out.push_str("t"),
    }
}

fn push_sense(out: &mut ArrayString<32>, sense: Sense)
    requires room { length out.old.bytes ≤ 8 }
    ensures text { out.new.bytes ≡ out.old.bytes ++ sense_text sense }
    ensures short { length out.new.bytes ≤ length out.old.bytes + 3 }
{
    out.push_str(bit(sense.state));
    push_act(out, sense.state, sense.act);
}

fn push_aggressor(out: &mut ArrayString<32>, agg: Option<Sense>)
    requires room { length out.old.bytes ≤ 1 }
    ensures text { out.new.bytes ≡ out.old.bytes ++ aggressor_text agg }
    ensures short { length out.new.bytes ≤ length out.old.bytes + 4 }
{
    if let Some(sense) = agg {
        push_sense(out, sense);
        out.push_str(";");
    }
}

fn prim_text(prim: &Prim) -> ArrayString<32>
    ensures form { result.bytes ≡ printed prim.now }
    ensures primitive { IsPrimitive prim.now }
{
    let mut out = ArrayString::new();
    out.push_str("<");
    push_aggressor(&mut out, prim.agg());
    push_sense(&mut out, prim.vic());
    out.push_str("/");
    out.push_str(bit(prim.after()));
    out.push_str("/");
    out.push_str(answer(prim.answer()));
    out.push_str(">");
    out
}

/// The printed form of a primitive: no blanks, and the state always shown.
pub fn print_prim(prim: &Prim) -> ArrayString<32>
    ensures form { result.bytes ≡ printed prim.now }

    // It is a text of this primitive, to which `read_prim` reads it.
    ensures read_back { (text : PrimParts) × PrimText result.bytes text × StandsFor text prim.now × IsPrimitive prim.now }
{
    prim_text(prim)
}
