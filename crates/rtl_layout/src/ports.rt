//! The ports, and what is assigned to them.
ghost use Rattle.std.specs.Prelude.{◌≡◌, ◌+◌, ◌-◌, ◌<◌, ◌≤◌, ◌^◌, IfOk, OnOk, map, ◌++◌};
ghost use Rattle.verilog_tree.specs.Plain.{plain, plain_item, plain_port};
ghost use Rattle.rtl_layout.specs.Layout as L;
ghost use Rattle.rtl_layout.specs.Seen.{seen};

use crate::ages::aged;
use crate::parts::assign_all;
use crate::plan::Plan;
use crate::row::Row;
use crate::trees::gate;
use std::alloc::{AllocError, Global};
use verilog_tree::build::{binary, concat, flag, literal, name, net, port, unary};
use verilog_tree::{BinOp, BodyItem, Dir, Expr, Port, UnOp};

/// The ports in their order.
pub fn ports(alloc: Global, plan: &Plan) -> Result<Vec<Port>, AllocError>
    ensures { IfOk result (λ v. map plain_port v.items ≡ L.ports (seen plan.now)) }
{
    let ports = [
        port(Dir::Input, "clk", 1),
        port(Dir::Input, "reset", 1),
        port(Dir::Input, "rdata", plan.bits),
        port(Dir::Output, "en", 1),
        port(Dir::Output, "we", 1),
        port(Dir::Output, "addr", plan.addr_width),
        port(Dir::Output, "wdata", plan.bits),
        port(Dir::Output, "done", 1),
        port(Dir::Output, "fail", 1),
    ];
    match Vec::from_array(alloc, ports) {
        Ok(list) => Ok(list),
        Err(_) => Err(AllocError),
    }
}

// A bit of the address.
fn row_bit(alloc: Global, width: u8, row: Row) -> Result<Expr, AllocError>
    requires positive { 1 ≤ width }
    requires narrow { width ≤ 64 }
    requires fits { row.mask < 2 ^ width }
    ensures { IfOk result (λ x. plain x ≡ L.row_bit width row) }
{
    let named = binary(
        alloc,
        BinOp::And,
        net(name("index")),
        literal(width, row.mask),
    )?;
    let parity = unary(alloc, UnOp::Parity, named)?;
    binary(alloc, BinOp::Xor, parity, flag(row.flip))
}

// The address, of its bits from the highest down.
fn address(alloc: Global, plan: &Plan) -> Result<Expr, AllocError>
    ensures { IfOk result (λ x. plain x ≡ L.address (seen plan.now)) }
{
    if plan.straight {
        return Ok(net(name("index")));
    }
    let rows = plan.rows.as_slice();
    let mut bits = Vec::new(alloc);
    for i in 0..rows.len() {
        let row = rows[rows.len() - 1 - i];
        bits.push(row_bit(alloc, plan.addr_width, row)?)?;
    }
    Ok(concat(bits))
}

/// All outputs.
pub fn assign_ports(items: &mut Vec<BodyItem>, alloc: Global, plan: &Plan) -> Result<(), AllocError>
    ensures { OnOk result (map plain_item items.new.items ≡ map plain_item items.old.items ++ L.port_assigns (seen plan.now)) }
{
    let rows = [
        (name("en"), gate(alloc, net(name("live")))),
        (name("we"), Ok(net(name("write")))),
        (name("addr"), address(alloc, plan)),
        (name("wdata"), Ok(net(name("word")))),
        (name("done"), gate(alloc, net(aged("over", plan.delay + 1)))),
        (name("fail"), gate(alloc, net(name("bad")))),
    ];
    assign_all(items, alloc, rows)
}
