//! Where names stand in an item.
ghost use Rattle.std.specs.Prelude.{◌≡◌, ℕ, ◌++◌, ◌∷◌, [], map, OnOk, IfOk};
ghost use Rattle.verilog_tree.specs.Plain.{plain, plain_stmt, plain_stmts, plain_item};
ghost use Rattle.verilog_tree.specs.Rules.{mentioned, reads, statement_mentions, statements_mentions, mentions};
ghost use Rattle.verilog_tree.specs.inner.Seen.{mention};

use crate::tree::{BodyItem, Expr, Name, Stmt};
use bist_bits::NoMemory;
use std::alloc::Global;

/// A name of an item: a clock, the target of an assignment, or a name in an expression, whole or
/// selected from a high place to a low one.
#[derive(Clone, Copy)]
pub enum Mention {
    Clock(Name),
    Target(Name),
    Whole(Name),
    Select(Name, u8, u8),
}

impl Mention {
    pub(crate) fn name(&self) -> Name
        ensures { result.bytes ≡ mentioned (mention self.now) }
    {
        match self {
            Mention::Clock(name)
            | Mention::Target(name)
            | Mention::Whole(name)
            | Mention::Select(name, _, _) => *name,
        }
    }
}

fn put(out: &mut Vec<Mention>, next: Mention) -> Result<(), NoMemory>
    ensures { OnOk result (map mention out.new.items ≡ map mention out.old.items ++ mention next ∷ []) }
{
    match out.push(next) {
        Ok(()) => Ok(()),
        Err(_) => Err(NoMemory),
    }
}

fn put_name(names: &mut Vec<Name>, name: Name) -> Result<(), NoMemory>
    ensures { OnOk result (map (λ n. n.bytes) names.new.items ≡ map (λ n. n.bytes) names.old.items ++ name.bytes ∷ []) }
{
    match names.push(name) {
        Ok(()) => Ok(()),
        Err(_) => Err(NoMemory),
    }
}

#[cycle(put_expr)]
fn put_expr(out: &mut Vec<Mention>, x: &Expr) -> Result<(), NoMemory>
    ensures { OnOk result (map mention out.new.items ≡ map mention out.old.items ++ reads (plain x.now)) }
{
    match x {
        Expr::Name(name) => put(out, Mention::Whole(*name)),
        Expr::Bit(name, place) => put(out, Mention::Select(*name, *place, *place)),
        Expr::Part(name, high, low) => put(out, Mention::Select(*name, *high, *low)),
        Expr::Lit(_) => Ok(()),
        Expr::Concat(parts) => {
            for part in parts {
                put_expr(out, part)?;
            }
            Ok(())
        }
        Expr::Unary(_, a) => put_expr(out, a),
        Expr::Binary(_, a, b) => {
            put_expr(out, a)?;
            put_expr(out, b)
        }
        Expr::Choose(c, a, b) => {
            put_expr(out, c)?;
            put_expr(out, a)?;
            put_expr(out, b)
        }
    }
}

#[cycle(put_stmt)]
fn put_stmt(out: &mut Vec<Mention>, s: &Stmt) -> Result<(), NoMemory>
    ensures { OnOk result (map mention out.new.items ≡ map mention out.old.items ++ statement_mentions (plain_stmt s.now)) }
{
    match s {
        Stmt::Set(name, x) => {
            put(out, Mention::Target(*name))?;
            put_expr(out, x)
        }
        Stmt::If(c, a, b) => {
            put_expr(out, c)?;
            put_stmts(out, a)?;
            put_stmts(out, b)
        }
        Stmt::Case(x, choices, other) => {
            put_expr(out, x)?;
            for arm in choices {
                put_stmts(out, &arm.body)?;
            }
            put_stmts(out, other)
        }
    }
}

#[cycle(put_stmt)]
fn put_stmts(out: &mut Vec<Mention>, body: &[Stmt]) -> Result<(), NoMemory>
    ensures { OnOk result (map mention out.new.items ≡ map mention out.old.items ++ statements_mentions (plain_stmts body.now)) }
{
    for s in body {
        put_stmt(out, s)?;
    }
    Ok(())
}

/// The names that an expression reads, in the order of the text.
pub fn names_read(alloc: Global, x: &Expr) -> Result<Vec<Name>, NoMemory>
    ensures { IfOk result (λ all. map (λ n. n.bytes) all.items ≡ map mentioned (reads (plain x.now))) }
{
    let mut all = Vec::new(alloc);
    put_expr(&mut all, x)?;
    let mut names = Vec::new(alloc);
    for next in &all {
        put_name(&mut names, next.name())?;
    }
    Ok(names)
}

/// Puts the names that an item uses, in the order of the text.
pub(crate) fn put_item(out: &mut Vec<Mention>, item: &BodyItem) -> Result<(), NoMemory>
    ensures { OnOk result (map mention out.new.items ≡ map mention out.old.items ++ mentions (plain_item item.now)) }
{
    match item {
        BodyItem::Wire(_) | BodyItem::Reg(_) => Ok(()),
        BodyItem::Assign(name, x) => {
            put(out, Mention::Target(*name))?;
            put_expr(out, x)
        }
        BodyItem::Always(clock, body) => {
            put(out, Mention::Clock(*clock))?;
            put_stmts(out, body)
        }
    }
}
