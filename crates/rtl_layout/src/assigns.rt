//! The assigned wires.
ghost use Rattle.std.specs.Prelude.{◌≡◌, ◌<◌, ◌≤◌, ◌-◌, ◌^◌, IfOk, OnOk, map, ◌++◌};
ghost use Rattle.verilog_tree.specs.Plain.{plain, plain_item, Net, Infixed};
ghost use Rattle.verilog_tree.specs.declared.tree.BinOp.TheVariants.{Eq};
ghost use Rattle.rtl_layout.specs.Build.{lit};
ghost use Rattle.rtl_layout.specs.Layout as L;
ghost use Rattle.rtl_layout.specs.Seen.{seen};

use crate::flags::MarchFlag;
use crate::parts::assign_all;
use crate::plan::Plan;
use crate::tables::{by_element, by_next, flag_row, has_several_bits, in_row, pattern, word_of};
use std::alloc::{AllocError, Global};
use verilog_tree::build::{binary, choose, flag, literal, name, net};
use verilog_tree::{BinOp, BodyItem, Expr, Name};

// Whether a digit is at the last of so many.
fn is_last(alloc: Global, digit: Name, width: u8, count: usize) -> Result<Expr, AllocError>
    requires some { 0 < count }
    requires positive { 1 ≤ width }
    requires narrow { width ≤ 64 }
    requires fits { count ≤ 2 ^ width }
    ensures { IfOk result (λ x. plain x ≡ Infixed Eq (Net digit.bytes) (lit width (count - 1))) }
{
    binary(
        alloc,
        BinOp::Eq,
        net(digit),
        literal(width, count as u64 - 1),
    )
}

// The number of the visited word, from the lowest up.
fn visited(plan: &Plan) -> Expr
    ensures { plain result ≡ L.visited (seen plan.now) }
{
    let visit = name("visit");
    if plan.addr_width == plan.visit_width {
        Expr::Name(visit)
    } else {
        Expr::Part(visit, plan.addr_width - 1, 0)
    }
}

fn index(alloc: Global, plan: &Plan) -> Result<Expr, AllocError>
    ensures { IfOk result (λ x. plain x ≡ L.index_of (seen plan.now)) }
{
    let top = literal(plan.addr_width, u64::from(plan.words - 1));
    let downward = binary(alloc, BinOp::Sub, top, visited(plan))?;
    choose(alloc, net(name("down")), downward, visited(plan))
}

// Whether the bits of its operations are 1, or of those behind them where a register holds the operation's bit.
fn ones_row(alloc: Global, plan: &Plan) -> Result<Expr, AllocError>
    ensures { IfOk result (λ x. plain x ≡ L.flag_row (seen plan.now) (L.ones_row (seen plan.now))) }
{
    if has_several_bits(plan) {
        flag_row(alloc, plan, MarchFlag::OneBehind)
    } else {
        flag_row(alloc, plan, MarchFlag::One)
    }
}

// Whether the operation's bit is 1.
fn value_now(alloc: Global, plan: &Plan) -> Result<Expr, AllocError>
    ensures { IfOk result (λ x. plain x ≡ L.value_now (seen plan.now)) }
{
    if has_several_bits(plan) {
        Ok(net(name("one")))
    } else {
        in_row(alloc, plan, name("ones"))
    }
}

/// All wires.
pub fn assign_wires(items: &mut Vec<BodyItem>, alloc: Global, plan: &Plan) -> Result<(), AllocError>
    ensures { OnOk result (map plain_item items.new.items ≡ map plain_item items.old.items ++ L.wire_assigns (seen plan.now)) }
{
    let element = is_last(
        alloc,
        name("element"),
        plan.element_width,
        plan.elements.len(),
    );
    let back = is_last(alloc, name("back"), plan.back_width, plan.backgrounds.len());
    let live = choose(alloc, net(name("pause")), flag(false), net(name("run")));
    let pattern_net = name("pattern");
    let word = word_of(alloc, name("value"), net(pattern_net), net(pattern_net));
    let rows = [
        (name("writes"), flag_row(alloc, plan, MarchFlag::Write)),
        (name("ones"), ones_row(alloc, plan)),
        (name("ends"), flag_row(alloc, plan, MarchFlag::EndsBehind)),
        (name("write"), in_row(alloc, plan, name("writes"))),
        (name("value"), value_now(alloc, plan)),
        (name("down"), by_element(alloc, plan, MarchFlag::Down)),
        (name("pause"), by_element(alloc, plan, MarchFlag::Pause)),
        (name("ends_more"), in_row(alloc, plan, name("ends"))),
        (
            name("ends_again"),
            by_element(alloc, plan, MarchFlag::Single),
        ),
        (name("ends_next"), by_next(alloc, plan, MarchFlag::Single)),
        (name("pause_next"), by_next(alloc, plan, MarchFlag::Pause)),
        (name("last_element"), element),
        (name("last_back"), back),
        (name("live"), live),
        (name("index"), index(alloc, plan)),
        (name("pattern"), pattern(alloc, plan, name("back"))),
        (name("word"), word),
    ];
    assign_all(items, alloc, rows)
}
