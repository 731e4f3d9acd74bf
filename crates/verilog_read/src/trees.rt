//! Parts of trees, each built of its parts.
ghost use Rattle.std.specs.Prelude.{◌≡◌, OnOk, IfOk, IfErr};
ghost use Rattle.verilog_tree.specs.Plain.{plain_stmt, plain_stmts, ArmOf, NoArm};
ghost use Rattle.verilog_tree.specs.inner.Plain.{plain_arm};
ghost use Rattle.verilog_tree.specs.Grammar.{then_all, alone};
ghost use Rattle.verilog_text.specs.Places.{more_arms};
ghost use Rattle.verilog_read.specs.inner.Frames.{arms_of};

use crate::fault::ParseFault;
use crate::places::Case;
use bist_bits::Bits;
use std::alloc::Global;
use verilog_tree::{Arm, Stmt};

pub(crate) fn only(alloc: Global, stmt: Stmt) -> Result<Vec<Stmt>, ParseFault>
    ensures value { IfOk result (λ b. plain_stmts b.items ≡ alone (plain_stmt stmt)) }
    ensures fault { IfErr result (λ e. e ≡ ParseFault.NoMemory) }
{
    let mut body = Vec::new(alloc);
    body.push(stmt)?;
    Ok(body)
}

#[tactic(auto, using(crate::proofs::FrameLemmas::stmts_join))]
pub(crate) fn join(old: Vec<Stmt>, more: Vec<Stmt>) -> Result<Vec<Stmt>, ParseFault>
    ensures value { IfOk result (λ b. plain_stmts b.items ≡ then_all (plain_stmts old.items) (plain_stmts more.items)) }
    ensures fault { IfErr result (λ e. e ≡ ParseFault.NoMemory) }
{
    let mut old = old;
    let mut more = more;
    match old.append(&mut more) {
        Ok(()) => Ok(old),
        Err(_) => Err(ParseFault::NoMemory),
    }
}

fn arm_of(labels: Vec<Bits>, body: Vec<Stmt>) -> Arm
    ensures { plain_arm result ≡ record { labels = labels.items; body = plain_stmts body.items } }
{
    Arm { labels, body }
}

#[tactic(auto, using(crate::proofs::FrameLemmas::arms_push))]
pub(crate) fn add_arm(case: &mut Case, labels: Vec<Bits>, body: Vec<Stmt>) -> Result<(), ParseFault>
    ensures depth { case.new.depth ≡ case.old.depth }
    ensures subject { case.new.subject ≡ case.old.subject }
    ensures arms { OnOk result (arms_of case.new ≡ more_arms (arms_of case.old) (ArmOf labels.items (plain_stmts body.items) NoArm)) }
    ensures fault { IfErr result (λ e. e ≡ ParseFault.NoMemory) }
{
    case.arms.push(arm_of(labels, body))?;
    Ok(())
}
