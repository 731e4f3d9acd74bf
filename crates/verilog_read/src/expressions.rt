//! The places within an expression, the brackets behind a name among them, and what a token does behind an expression that
//! stands in no other.
ghost use Rattle.std.specs.Prelude.{◌≡◌};
ghost use Rattle.verilog_tree.specs.Plain.{plain};
ghost use Rattle.verilog_tree.specs.Spells.{bounded};
ghost use Rattle.verilog_text.specs.Steps.{alone_step, step_expr};
ghost use Rattle.verilog_read.specs.inner.Ends.{end_of};
ghost use Rattle.verilog_read.specs.inner.Holding.{token_of, standing, nests_of};
ghost use Rattle.verilog_read.specs.inner.Frames.{alone_of};
ghost use Rattle.verilog_read.specs.inner.Answers.{Goes};

use crate::fault::ParseFault;
use crate::lexemes::Lexeme;
use crate::places::{Case, Holder, ItemSpot, Outer, Place, Purpose, StmtSpot};
use crate::precedence::{Chain, ExprSpot, after_operand, is_mark, step_operand, step_primary};
use crate::stacks::{add_item, begin_stmt};
use crate::trees::only;
use std::alloc::Global;
use verilog_tree::{BodyItem, Expr, Mark, Name, Stmt};

/// The mark that ends an expression that stands in no other.
pub(crate) fn end_of(base: &Purpose) -> Mark
    ensures { result ≡ end_of base.now }
{
    match base {
        Purpose::Drive(_) | Purpose::Set(_) => Mark::Semicolon,
        Purpose::Test(_, _) | Purpose::Pick(_, _) => Mark::Close,
    }
}

/// What a token does behind an expression that stands in no other.
#[tactic(auto, using(crate::proofs::HoldingLemmas::expects_is, crate::proofs::Ends::ends_not))]
pub(crate) fn after_whole(
    alloc: Global,
    outer: &mut Outer,
    depth: u8,
    x: Expr,
    token: &Lexeme,
) -> Result<Place, ParseFault>
    ensures { Goes (alone_step depth (plain x) (alone_of outer.old) (token_of token.now)) result outer.new }
{
    let base = outer.base;
    if !is_mark(end_of(&base), token) {
        return Err(ParseFault::Unexpected);
    }
    match base {
        Purpose::Drive(name) => {
            add_item(outer, BodyItem::Assign(name, x))?;
            Ok(Place::InItem(ItemSpot::Want))
        }
        Purpose::Test(above, inner) => begin_stmt(outer, Holder::Then(above, x), inner),
        Purpose::Pick(above, inner) => {
            let case = Case {
                depth: above,
                subject: x,
                arms: Vec::new(alloc),
            };
            Ok(Place::InStmt(StmtSpot::FirstLabel(inner, case)))
        }
        Purpose::Set(name) => {
            let body = only(alloc, Stmt::Set(name, x))?;
            Ok(Place::InStmt(StmtSpot::HaveStmt(depth, body)))
        }
    }
}

/// What a token does in an expression.
#[tactic(auto, using(crate::proofs::HoldingLemmas::expects_is))]
pub(crate) fn step_expr(
    alloc: Global,
    outer: &mut Outer,
    spot: ExprSpot,
    chain: Chain,
    token: &Lexeme,
) -> Result<Place, ParseFault>
    ensures { Goes (step_expr bounded (standing spot chain (nests_of outer.old.nests.items (alone_of outer.old)))
        (token_of token.now)) result outer.new }
{
    let next = match spot {
        ExprSpot::Operand(depth) => return step_operand(alloc, outer, depth, chain, token),
        ExprSpot::Prim(depth) => return step_primary(alloc, outer, depth, chain, token),
        ExprSpot::Named(depth, name) => match token {
            Lexeme::Sign(Mark::OpenBracket) => ExprSpot::Bracket(depth, name),
            _ => return after_operand(alloc, outer, depth, Expr::Name(name), chain, token),
        },
        ExprSpot::Bracket(depth, name) => match token {
            Lexeme::Number(_, high) => ExprSpot::HighRead(depth, name, high.value),
            _ => return Err(ParseFault::Unexpected),
        },
        ExprSpot::HighRead(depth, name, high) => match token {
            Lexeme::Sign(Mark::CloseBracket) => ExprSpot::Have(depth, Expr::Bit(name, high)),
            Lexeme::Sign(Mark::Colon) => ExprSpot::ColonRead(depth, name, high),
            _ => return Err(ParseFault::Unexpected),
        },
        ExprSpot::ColonRead(depth, name, high) => match token {
            Lexeme::Number(_, low) => ExprSpot::LowRead(depth, name, high, low.value),
            _ => return Err(ParseFault::Unexpected),
        },
        ExprSpot::LowRead(depth, name, high, low) => {
            if !is_mark(Mark::CloseBracket, token) {
                return Err(ParseFault::Unexpected);
            }
            ExprSpot::Have(depth, Expr::Part(name, high, low))
        }
        ExprSpot::Have(depth, x) => return after_operand(alloc, outer, depth, x, chain, token),
    };
    Ok(Place::InExpr(next, chain))
}
