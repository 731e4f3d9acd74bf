//! The statements of the four digits of the place.
ghost use Rattle.std.specs.Prelude.{◌≡◌, IfOk, OnOk, map, ◌++◌};
ghost use Rattle.verilog_tree.specs.Plain.{plain, plain_stmt};
ghost use Rattle.rtl_layout.specs.Layout as L;
ghost use Rattle.rtl_layout.specs.Plan.{limit, several_bits};
ghost use Rattle.rtl_layout.specs.Seen.{seen};

use crate::element::Element;
use crate::flags::MarchFlag;
use crate::parts::set_all;
use crate::plan::Plan;
use crate::tables::{at_number, by_element, by_next, has_several_bits, in_row};
use crate::trees::{after_reset, counting, while_all};
use std::alloc::{AllocError, Global};
use verilog_tree::build::{binary, choose, flag, literal, name, net};
use verilog_tree::{BinOp, Expr, Name, Stmt};

// Whether the run goes on.
fn run_next(alloc: Global) -> Result<Expr, AllocError>
    ensures { IfOk result (λ x. plain x ≡ L.run_next) }
{
    let run = while_all(
        alloc,
        &[
            name("run"),
            name("last_oper"),
            name("last_visit"),
            name("last_element"),
            name("last_back"),
        ],
        flag(false),
        name("run"),
    )?;
    after_reset(alloc, flag(true), run)
}

// What the next operation has: one more, this element's first or the next one's.
fn turning(
    alloc: Global,
    register: Name,
    first: bool,
    next: Expr,
    again: Expr,
    more: Expr,
) -> Result<Expr, AllocError>
    ensures { IfOk result (λ x. plain x ≡ L.turning register.bytes first (plain next) (plain again) (plain more)) }
{
    let turned = choose(alloc, net(name("last_visit")), next, again)?;
    let stepped = choose(alloc, net(name("last_oper")), turned, more)?;
    let running = while_all(alloc, &[name("run")], stepped, register)?;
    after_reset(alloc, flag(first), running)
}

// Whether the next operation is the last of its element.
fn last_oper_next(alloc: Global, plan: &Plan) -> Result<Expr, AllocError>
    ensures { IfOk result (λ x. plain x ≡ L.last_oper_next (seen plan.now)) }
{
    turning(
        alloc,
        name("last_oper"),
        at_number(&plan.elements[0], 0, MarchFlag::Single),
        net(name("ends_next")),
        net(name("ends_again")),
        net(name("ends_more")),
    )
}

// Whether its bit is 1.
fn one_next(alloc: Global, plan: &Plan) -> Result<Expr, AllocError>
    ensures { IfOk result (λ x. plain x ≡ L.one_next (seen plan.now)) }
{
    let next = by_next(alloc, plan, MarchFlag::One)?;
    let again = by_element(alloc, plan, MarchFlag::One)?;
    let more = in_row(alloc, plan, name("ones"))?;
    let first = at_number(&plan.elements[0], 0, MarchFlag::One);
    turning(alloc, name("one"), first, next, again, more)
}

// How often an element is visited.
fn limit(plan: &Plan, element: &Element) -> u32
    ensures { result ≡ limit (seen plan.now) element.now }
{
    if element.is_pause() {
        plan.pause
    } else {
        plan.words
    }
}

// Whether the visit behind this is the last.
fn visit_ends_more(alloc: Global, plan: &Plan) -> Result<Expr, AllocError>
    ensures { IfOk result (λ x. plain x ≡ L.visit_ends_more (seen plan.now)) }
{
    let pause = literal(plan.visit_width, u64::from(plan.pause.saturating_sub(2)));
    let words = literal(plan.visit_width, u64::from(plan.words.saturating_sub(2)));
    let last = choose(alloc, net(name("pause")), pause, words)?;
    binary(alloc, BinOp::Eq, net(name("visit")), last)
}

// Whether the next visit is the last of its element.
fn last_visit_next(alloc: Global, plan: &Plan) -> Result<Expr, AllocError>
    ensures { IfOk result (λ x. plain x ≡ L.last_visit_next (seen plan.now)) }
{
    let next = choose(
        alloc,
        net(name("pause_next")),
        flag(plan.pause == 1),
        flag(plan.words == 1),
    )?;
    let more = visit_ends_more(alloc, plan)?;
    let ends = choose(alloc, net(name("last_visit")), next, more)?;
    let stepped = while_all(
        alloc,
        &[name("run"), name("last_oper")],
        ends,
        name("last_visit"),
    )?;
    let first = limit(plan, &plan.elements[0]);
    after_reset(alloc, flag(first == 1), stepped)
}

// What counts the operations, the visits, the elements and the backgrounds, whether the run goes on, and what the next
// operation and visit have.
fn set_counters(block: &mut Vec<Stmt>, alloc: Global, plan: &Plan) -> Result<(), AllocError>
    ensures { OnOk result (map plain_stmt block.new.items ≡ map plain_stmt block.old.items ++ L.digit_sets (seen plan.now)) }
{
    let run = name("run");
    let oper = name("oper");
    let visit = name("visit");
    let element = name("element");
    let back = name("back");
    let last_oper = name("last_oper");
    let last_visit = name("last_visit");
    let last_element = name("last_element");
    let last_back = name("last_back");
    let opers = counting(alloc, oper, plan.oper_width, &[run], last_oper);
    let conditions = [run, last_oper];
    let visits = counting(alloc, visit, plan.visit_width, &conditions, last_visit);
    let conditions = [run, last_oper, last_visit];
    let elements = counting(
        alloc,
        element,
        plan.element_width,
        &conditions,
        last_element,
    );
    let conditions = [run, last_oper, last_visit, last_element];
    let backs = counting(alloc, back, plan.back_width, &conditions, last_back);
    let rows = [
        (oper, opers),
        (visit, visits),
        (element, elements),
        (back, backs),
        (run, run_next(alloc)),
        (last_oper, last_oper_next(alloc, plan)),
        (last_visit, last_visit_next(alloc, plan)),
    ];
    set_all(block, alloc, rows)
}

/// The place in the march, whether the run goes on, and the operation's bit where a register holds it.
pub fn set_digits(block: &mut Vec<Stmt>, alloc: Global, plan: &Plan) -> Result<(), AllocError>
    ensures { OnOk result (map plain_stmt block.new.items ≡ map plain_stmt block.old.items
        ++ (L.digit_sets (seen plan.now) ++ L.one_set (seen plan.now) (several_bits (seen plan.now)))) }
{
    set_counters(block, alloc, plan)?;
    if has_several_bits(plan) {
        return set_all(block, alloc, [(name("one"), one_next(alloc, plan))]);
    }
    Ok(())
}
