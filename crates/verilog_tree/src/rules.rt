//! The rules that a module must keep.
ghost use Rattle.std.specs.Prelude.{◌≡◌, Option, Some, IsTrue, [], ◌++◌, map, OnOk};
ghost use Rattle.verilog_tree.specs.Plain.{plain_item, plain_port, plain_module};
ghost use Rattle.verilog_tree.specs.Names.{port_declarations, declarations, width_of};
ghost use Rattle.verilog_tree.specs.Seen.{declaration};
ghost use Rattle.verilog_tree.specs.Formed.{formed};
ghost use Rattle.verilog_tree.specs.Rules.{Break, Tells, Refuses, mentions, port_twice, port_clock, first_break};
ghost use Rattle.verilog_tree.specs.inner.Seen.{mention};
ghost use Rattle.verilog_tree.specs.inner.Tables.{among, again, is_broken, told_as, first_broken, with_all, break_behind, declared_behind, assigned_behind, set_behind, breaks_behind, all_assigned, unassigned};

use crate::fault::TreeFault;
use crate::mentions::{Mention, put_item};
use crate::names::{Declared, Kind, all_declared, declared_item, declared_port, is_clk};
use crate::tables::{Declarations, NameSet, by_name};
use crate::tree::{BodyItem, Module, Name, Port};
use crate::widths::item_widths;
use bist_bits::NoMemory;
use std::alloc::Global;

/// What stands before an item.
#[derive(Drop)]
struct Before {
    declared: Declarations,
    // What `assign` items name.
    assigned: NameSet,
    // What blocks set.
    set: NameSet,
}

// N2 and N10: no name is declared twice, no item declares `clk`, and no wire or plain output has a second
// `assign`.
fn once(before: &Before, item: &BodyItem) -> Result<(), TreeFault>
    ensures { Refuses (again before.now.declared (among before.now.assigned) (plain_item item.now)) result }
{
    match item {
        BodyItem::Wire(next) | BodyItem::Reg(next) => {
            if before.declared.get(&next.name).is_some() {
                return Err(TreeFault::Twice { name: next.name });
            }
            if is_clk(&next.name) {
                return Err(TreeFault::Clock { name: next.name });
            }
        }
        BodyItem::Assign(name, _) => {
            let is_wire = match before.declared.get(name) {
                Some(found) => found.kind == Kind::Wire,
                None => false,
            };
            if is_wire && before.assigned.contains(name) {
                return Err(TreeFault::Twice { name: *name });
            }
        }
        BodyItem::Always(_, _) => {}
    }
    Ok(())
}

// A rule for each name that an item uses.
#[derive(Clone, Copy)]
enum Rule {
    // N1: the name is declared before.
    Known,
    // N6: a select lies in a name of more than one bit.
    InRange,
    // N5: `assign` names a wire or plain output, and `<=` a register.
    Assignable,
    // N4: no earlier block sets what is set here.
    InOneBlock,
    // N10: a clock is an input of one bit named `clk`, which stands in no expression.
    Clocked,
}

fn is_broken(
    rule: Rule,
    widths: &Declarations,
    before: &Before,
    item: &BodyItem,
    next: &Mention,
) -> bool
    ensures { result ≡ is_broken rule (width_of widths.now) before.now.declared before.now.set (plain_item item.now) (mention next.now) }
{
    let name = next.name();
    let found = before.declared.get(&name);
    match rule {
        Rule::Known => found.is_none(),
        Rule::InRange => match next {
            Mention::Select(_, high, low) => {
                let width = widths.width(&name);
                !(*high < width) || *high < *low || width == 1
            }
            _ => false,
        },
        Rule::Assignable => match next {
            Mention::Target(_) => match found {
                Some(found) => match item {
                    BodyItem::Always(_, _) => found.kind != Kind::Register,
                    _ => found.kind != Kind::Wire,
                },
                None => true,
            },
            _ => false,
        },
        Rule::InOneBlock => match next {
            Mention::Target(_) => before.set.contains(&name),
            _ => false,
        },
        Rule::Clocked => match next {
            Mention::Clock(_) => match found {
                Some(found) => !(is_clk(&name) && found.kind == Kind::Input && found.width == 1),
                None => true,
            },
            Mention::Whole(_) | Mention::Select(_, _, _) => is_clk(&name),
            Mention::Target(_) => false,
        },
    }
}

fn fault(rule: Rule, name: Name) -> TreeFault
    ensures { (o : Option Break) → o ≡ Some (told_as rule name.bytes) → Tells result o }
{
    match rule {
        Rule::Known => TreeFault::Unknown { name },
        Rule::InRange => TreeFault::SelectRange { name },
        Rule::Assignable => TreeFault::NotAssignable { name },
        Rule::InOneBlock => TreeFault::TwoBlocks { name },
        Rule::Clocked => TreeFault::Clock { name },
    }
}

fn keeps(
    rule: Rule,
    widths: &Declarations,
    before: &Before,
    item: &BodyItem,
    all: &[Mention],
) -> Result<(), TreeFault>
    ensures { Refuses (first_broken rule (width_of widths.now) before.now.declared before.now.set (plain_item item.now)
        (map mention all.now)) result }
{
    for next in all {
        if is_broken(rule, widths, before, item, next) {
            return Err(fault(rule, next.name()));
        }
    }
    Ok(())
}

fn check_item(
    widths: &Declarations,
    before: &Before,
    item: &BodyItem,
    all: &[Mention],
) -> Result<(), TreeFault>
    requires { map mention all.now ≡ mentions (plain_item item.now) }
    ensures { Refuses (break_behind (width_of widths.now) before.now.declared (among before.now.assigned) before.now.set
        (plain_item item.now)) result }
{
    keeps(Rule::Known, widths, before, item, all)?;
    once(before, item)?;
    keeps(Rule::InRange, widths, before, item, all)?;
    item_widths(widths, item)?;
    keeps(Rule::Assignable, widths, before, item, all)?;
    keeps(Rule::InOneBlock, widths, before, item, all)?;
    keeps(Rule::Clocked, widths, before, item, all)
}

// Goes behind an item.
fn pass(before: &mut Before, item: &BodyItem, all: &[Mention]) -> Result<(), NoMemory>
    requires { map mention all.now ≡ mentions (plain_item item.now) }
    ensures declared { OnOk result (before.new.declared ≡ declared_behind before.old.declared (plain_item item.now)) }
    ensures assigned { OnOk result (before.new.assigned ≡ assigned_behind before.old.assigned (plain_item item.now)) }
    ensures set { OnOk result (before.new.set ≡ set_behind before.old.set (plain_item item.now)) }
{
    match item {
        BodyItem::Wire(_) | BodyItem::Reg(_) => match declared_item(item) {
            Some(declared) => before.declared.add(declared),
            None => Ok(()),
        },
        BodyItem::Assign(name, _) => before.assigned.add(*name),
        BodyItem::Always(_, _) => {
            for next in all {
                if let Mention::Target(name) = next {
                    before.set.add(*name)?;
                }
            }
            Ok(())
        }
    }
}

// Goes behind the items, as far as they break no rule.
fn check_items(
    alloc: Global,
    widths: &Declarations,
    before: &mut Before,
    items: &[BodyItem],
) -> Result<(), TreeFault>
    ensures refuses { Refuses (breaks_behind
        (width_of widths.now) before.old.declared before.old.assigned before.old.set
        (map plain_item items.now)) result }
    ensures assigned { OnOk result (before.new.assigned ≡ all_assigned before.old.assigned (map plain_item items.now)) }
{
    for item in items {
        let mut all = Vec::new(alloc);
        put_item(&mut all, item)?;
        check_item(widths, before, item, &all)?;
        pass(before, item, &all)?;
    }
    Ok(())
}

// N2 in the ports, which it adds.
fn add_ports_once(all: &mut Declarations, ports: &[Port]) -> Result<(), TreeFault>
    ensures refuses { Refuses (port_twice all.old (port_declarations (map plain_port ports.now))) result }
    ensures added { OnOk result (all.new ≡ all.old ++ port_declarations (map plain_port ports.now)) }
{
    for port in ports {
        if all.get(&port.name).is_some() {
            return Err(TreeFault::Twice { name: port.name });
        }
        all.add(declared_port(port))?;
    }
    Ok(())
}

// N10 in the ports.
fn clk_is_input(ports: &[Port]) -> Result<(), TreeFault>
    ensures { Refuses (port_clock (port_declarations (map plain_port ports.now))) result }
{
    for port in ports {
        let declared = declared_port(port);
        if is_clk(&declared.name) && !(declared.kind == Kind::Input && declared.width == 1) {
            return Err(TreeFault::Clock {
                name: declared.name,
            });
        }
    }
    Ok(())
}

// N9.
fn driven(assigned: &NameSet, all: &[Declared]) -> Result<(), TreeFault>
    ensures { Refuses (unassigned (among assigned.now) (map declaration all.now)) result }
{
    for next in all {
        if next.kind == Kind::Wire && !assigned.contains(&next.name) {
            return Err(TreeFault::Undriven { name: next.name });
        }
    }
    Ok(())
}

// The ports, the items, and then N9.
#[tactic(auto, using(crate::proofs::Refusals::tells_now, crate::proofs::Refusals::tells_later))]
fn check_in_order(
    alloc: Global,
    declared: &[Declared],
    widths: &Declarations,
    before: &mut Before,
    module: &Module,
) -> Result<(), TreeFault>
    requires listed { map declaration declared.now ≡ declarations (plain_module «module».now).ports (plain_module «module».now).items }
    requires named { widths.now ≡ with_all [] (map declaration declared.now) }
    requires declared { before.old.declared ≡ [] }
    requires assigned { before.old.assigned ≡ [] }
    requires set { before.old.set ≡ [] }
    ensures { Refuses (first_break (plain_module «module».now)) result }
{
    add_ports_once(&mut before.declared, &module.ports)?;
    clk_is_input(&module.ports)?;
    check_items(alloc, widths, before, &module.items)?;
    driven(&before.assigned, declared)
}

// The rules, where the declared names are listed, and their widths are known by name.
fn check_listed(
    alloc: Global,
    declared: &[Declared],
    widths: &Declarations,
    module: &Module,
) -> Result<(), TreeFault>
    requires listed { map declaration declared.now ≡ declarations (plain_module «module».now).ports (plain_module «module».now).items }
    requires named { widths.now ≡ with_all [] (map declaration declared.now) }
    ensures { Refuses (first_break (plain_module «module».now)) result }
{
    let mut before = Before {
        declared: Declarations::new(alloc),
        assigned: NameSet::new(alloc),
        set: NameSet::new(alloc),
    };
    check_in_order(alloc, declared, widths, &mut before, module)
}

/// Refuses a module for the first rule that it breaks: N1 to N6, N10 and N9. The ports are item 0, and
/// the first item that breaks a rule decides; within it the rules are tried in the order N1, N2, N6, N3,
/// N5, N4, N10, each at its first place in the text. N9 comes last. Loops of wires are not looked for.
/// `NoMemory` may come instead of any answer.
pub fn check(alloc: Global, module: &Module) -> Result<(), TreeFault>
    requires { IsTrue (formed (plain_module «module».now)) }
    ensures { Refuses (first_break (plain_module «module».now)) result }
{
    let declared = all_declared(alloc, module)?;
    let widths = by_name(alloc, &declared)?;
    check_listed(alloc, &declared, &widths, module)
}
