ghost use Rattle.std.specs.Prelude.{◌≡◌, ◌≤◌, ◌+◌, ◌++◌, ◌∷◌, [], Some, Ok, length};
ghost use Rattle.fault_syntax.specs.ListText.{Primitive, ItemLine};
ghost use Rattle.fault_syntax.specs.PrimText.{PrimParts};
ghost use Rattle.dynamic_core.specs.declared.item.Item.TheVariants.{Dyn};
ghost use Rattle.dynamic_core.specs.ItemParts.{StandsForDynamic};
ghost use Rattle.dynamic_core.specs.Items.{ReadsItems};
ghost use Rattle.dynamic_core.specs.Primitive.{IsDynamic};
ghost use Rattle.dynamic_core.specs.Printed.{acts_text, dynamic_sense_text, dynamic_aggressor_text, printed_dynamic};
ghost use Rattle.dynamic_core.specs.Testing.{acts_in};

use crate::primitive::{DynPrim, DynSense, left_by};
use arrayvec::ArrayString;
use fault_core::Act;
use fault_syntax::{answer, bit, push_act};

fn push_acts(out: &mut ArrayString<32>, state: bool, acts: Option<[Act; 2]>)
    requires room { length out.old.bytes ≤ 14 }
    ensures text { out.new.bytes ≡ out.old.bytes ++ acts_text state (acts_in acts) }
    ensures short { length out.new.bytes ≤ length out.old.bytes + 4 }
{
    if let Some(acts) = acts {
        push_act(out, state, Some(acts[0]));
        push_act(out, left_by(state, acts[0]), Some(acts[1]));
    }
}

fn push_sense(out: &mut ArrayString<32>, sense: &DynSense)
    requires room { length out.old.bytes ≤ 13 }
    ensures text { out.new.bytes ≡ out.old.bytes ++ dynamic_sense_text sense.now }
    ensures short { length out.new.bytes ≤ length out.old.bytes + 5 }
{
    out.push_str(bit(sense.state));
    push_acts(out, sense.state, sense.acts);
}

fn push_aggressor(out: &mut ArrayString<32>, agg: &Option<DynSense>)
    requires room { length out.old.bytes ≤ 1 }
    ensures text { out.new.bytes ≡ out.old.bytes ++ dynamic_aggressor_text agg.now }
    ensures short { length out.new.bytes ≤ length out.old.bytes + 6 }
{
    if let Some(sense) = agg {
        push_sense(out, sense);
        out.push_str(";");
    }
}

fn prim_text(prim: &DynPrim) -> ArrayString<32>
    ensures form { result.bytes ≡ printed_dynamic prim.now }
    ensures primitive { IsDynamic prim.now }
{
    let mut out = ArrayString::new();
    out.push_str("<");
    push_aggressor(&mut out, &prim.agg());
    push_sense(&mut out, &prim.vic());
    out.push_str("/");
    out.push_str(bit(prim.after()));
    out.push_str("/");
    out.push_str(answer(prim.answer()));
    out.push_str(">");
    out
}

/// The printed form of a dynamic primitive: no blanks, and the state always shown.
pub fn print_dyn(prim: &DynPrim) -> ArrayString<32>
    ensures form { result.bytes ≡ printed_dynamic prim.now }

    // It is the line of a list whose item is this very primitive, and a list of it alone, as `read_items` reads it.
    ensures read_back { (text : PrimParts) × ItemLine result.bytes (Some (Primitive text))
        × StandsForDynamic text prim.now × IsDynamic prim.now }
    ensures list { ReadsItems result.bytes (Ok (Dyn prim.now ∷ [])) }
{
    prim_text(prim)
}
