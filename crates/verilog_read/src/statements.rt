//! What a token does in a statement.
ghost use Rattle.std.specs.Prelude.{codes};
ghost use Rattle.verilog_tree.specs.Spells.{bounded};
ghost use Rattle.verilog_tree.specs.Plain.{plain, plain_stmts};
ghost use Rattle.verilog_text.specs.Following.{case_of};
ghost use Rattle.verilog_text.specs.Places.{AtStmt, HaveStmt, style_of};
ghost use Rattle.verilog_text.specs.Steps.{want_stmt_step, block_step, arm_step, want_item_step, have_stmt_step, step_stmt, expects_word};
ghost use Rattle.verilog_read.specs.inner.Holding.{token_of};
ghost use Rattle.verilog_read.specs.inner.Frames.{alone, arms_of, around_of, head_of};
ghost use Rattle.verilog_read.specs.declared.places.Outer.{Outer};
ghost use Rattle.verilog_read.specs.declared.places.StmtSpot.TheVariants.{NextLabel};
ghost use Rattle.verilog_read.specs.inner.Spots.{stmt_spot};
ghost use Rattle.verilog_read.specs.inner.Answers.{Goes, opens_expr};

use crate::fault::ParseFault;
use crate::lexemes::Lexeme;
use crate::places::{Case, Holder, ItemSpot, Outer, Place, Purpose, StmtSpot, Use};
use crate::precedence::{deeper, is_mark};
use crate::stacks::{add_item, begin_expr, begin_stmt, is_word, pop_holder, push_holder};
use crate::trees::{add_arm, join, only};
use bist_bits::Bits;
use bist_text::is_reserved;
use std::alloc::Global;
use verilog_tree::{BodyItem, Mark, Stmt};

/// Where a statement begins.
fn want_stmt(alloc: Global, outer: &Outer, depth: u8, token: &Lexeme) -> Result<Place, ParseFault>
    ensures { Goes (want_stmt_step bounded depth (around_of outer.now) (token_of token.now)) result outer.now }
{
    let Lexeme::Word(name) = token else {
        return Err(ParseFault::Unexpected);
    };
    let word = name.as_str();
    if !is_reserved(word.as_bytes()) {
        return Ok(Place::InStmt(StmtSpot::Target(depth, *name)));
    }
    let Some(inner) = deeper(depth) else {
        return Err(ParseFault::Unexpected);
    };
    let spot = match word {
        "begin" => StmtSpot::Block(inner, depth, Vec::new(alloc)),
        "if" => StmtSpot::IfRead(depth, inner),
        "case" => StmtSpot::CaseRead(depth, inner),
        _ => return Err(ParseFault::Unexpected),
    };
    Ok(Place::InStmt(spot))
}

fn in_block(
    alloc: Global,
    outer: &mut Outer,
    inner: u8,
    depth: u8,
    old: Vec<Stmt>,
    token: &Lexeme,
) -> Result<Place, ParseFault>
    ensures { Goes (block_step bounded inner depth (plain_stmts old.items) (around_of outer.old) (token_of token.now)) result outer.new }
{
    if is_word("end", token) {
        return Ok(Place::InStmt(StmtSpot::HaveStmt(depth, old)));
    }
    push_holder(outer, Holder::Block(depth, old))?;
    want_stmt(alloc, outer, inner, token)
}

pub(crate) fn want_item(outer: &Outer, token: &Lexeme) -> Result<Place, ParseFault>
    ensures { Goes (want_item_step (head_of outer.now) (token_of token.now)) result outer.now }
{
    let Lexeme::Word(name) = token else {
        return Err(ParseFault::Unexpected);
    };
    let next = match name.as_str() {
        "wire" => ItemSpot::WantRange(Use::Wire),
        "reg" => ItemSpot::WantRange(Use::Reg),
        "assign" => ItemSpot::AssignRead,
        "always" => ItemSpot::AlwaysRead,
        "endmodule" => ItemSpot::Ended,
        _ => return Err(ParseFault::Unexpected),
    };
    Ok(Place::InItem(next))
}

/// Where an arm, the default or the end of a case may come.
fn in_case(
    alloc: Global,
    outer: &Outer,
    inner: u8,
    case: Case,
    token: &Lexeme,
) -> Result<Place, ParseFault>
    ensures { Goes (arm_step case.depth inner (plain case.subject) (arms_of case) (around_of outer.now)
        (token_of token.now)) result outer.now }
{
    if let Lexeme::Constant(_) = token {
        return next_label(inner, case, Vec::new(alloc), token);
    }
    if is_word("default", token) {
        return Ok(Place::InStmt(StmtSpot::DefaultRead(inner, case)));
    }
    end_case(alloc, outer, case, Vec::new(alloc), token)
}

/// Where a case ends, with the statements of its default.
fn end_case(
    alloc: Global,
    outer: &Outer,
    case: Case,
    other: Vec<Stmt>,
    token: &Lexeme,
) -> Result<Place, ParseFault>
    ensures { Goes (expects_word (codes "endcase")
        (AtStmt (HaveStmt case.depth (case_of (plain case.subject) (arms_of case) (plain_stmts other.items))
        (around_of outer.now))) (token_of token.now)) result outer.now }
{
    if !is_word("endcase", token) {
        return Err(ParseFault::Unexpected);
    }
    let depth = case.depth;
    let body = only(alloc, Stmt::Case(case.subject, case.arms, other))?;
    Ok(Place::InStmt(StmtSpot::HaveStmt(depth, body)))
}

/// What a token does behind a whole statement: an if without else ends where no else comes.
fn after_stmt(
    alloc: Global,
    outer: &mut Outer,
    depth: u8,
    body: Vec<Stmt>,
    token: &Lexeme,
) -> Result<Place, ParseFault>
    ensures { Goes (have_stmt_step bounded (around_of outer.old) depth (plain_stmts body.items) (token_of token.now)) result outer.new }
{
    match pop_holder(outer) {
        None => {
            let clock = outer.clock;
            add_item(outer, BodyItem::Always(clock, body))?;
            want_item(outer, token)
        }
        Some(Holder::Block(above, old)) => {
            let old = join(old, body)?;
            in_block(alloc, outer, depth, above, old, token)
        }
        Some(Holder::Then(above, c)) => {
            if is_word("else", token) {
                return begin_stmt(outer, Holder::Else(above, c, body), depth);
            }
            let body = only(alloc, Stmt::If(c, body, Vec::new(alloc)))?;
            after_stmt(alloc, outer, above, body, token)
        }
        Some(Holder::Else(above, c, yes)) => {
            let body = only(alloc, Stmt::If(c, yes, body))?;
            after_stmt(alloc, outer, above, body, token)
        }
        Some(Holder::Labelled(case, labels)) => {
            let mut case = case;
            add_arm(&mut case, labels, body)?;
            in_case(alloc, outer, depth, case, token)
        }
        Some(Holder::Other(case)) => end_case(alloc, outer, case, body, token),
    }
}

/// An expression begins behind an opening parenthesis.
fn opened(
    alloc: Global,
    outer: &mut Outer,
    depth: u8,
    whole: Purpose,
    token: &Lexeme,
) -> Result<Place, ParseFault>
    ensures { Goes (opens_expr bounded depth (style_of (around_of outer.old))
        (alone whole (head_of outer.old) (around_of outer.old)) (token_of token.now)) result outer.new }
{
    if !is_mark(Mark::Open, token) {
        return Err(ParseFault::Unexpected);
    }
    match deeper(depth) {
        Some(inner) => Ok(begin_expr(alloc, outer, whole, inner)),
        None => Err(ParseFault::Unexpected),
    }
}

/// Where a label of an arm comes, behind those before it, if there are any.
fn next_label(inner: u8, case: Case, labels: Vec<Bits>, token: &Lexeme) -> Result<Place, ParseFault>
    ensures { (w : Outer) → Goes (step_stmt bounded (stmt_spot (NextLabel inner case labels) (around_of w)) (token_of token.now)) result w }
{
    match token {
        Lexeme::Constant(label) => {
            let mut labels = labels;
            labels.push(*label)?;
            Ok(Place::InStmt(StmtSpot::Labels(inner, case, labels)))
        }
        _ => Err(ParseFault::Unexpected),
    }
}

/// What a token does in a statement.
pub(crate) fn step_stmt(
    alloc: Global,
    outer: &mut Outer,
    place: StmtSpot,
    token: &Lexeme,
) -> Result<Place, ParseFault>
    ensures { Goes (step_stmt bounded (stmt_spot place (around_of outer.old)) (token_of token.now)) result outer.new }
{
    match place {
        StmtSpot::WantStmt(depth) => want_stmt(alloc, outer, depth, token),
        StmtSpot::Target(depth, name) => {
            if !is_mark(Mark::LessEquals, token) {
                return Err(ParseFault::Unexpected);
            }
            Ok(begin_expr(alloc, outer, Purpose::Set(name), depth))
        }
        StmtSpot::IfRead(depth, inner) => {
            opened(alloc, outer, inner, Purpose::Test(depth, inner), token)
        }
        StmtSpot::CaseRead(depth, inner) => {
            opened(alloc, outer, inner, Purpose::Pick(depth, inner), token)
        }
        StmtSpot::FirstLabel(inner, case) => next_label(inner, case, Vec::new(alloc), token),
        StmtSpot::Labels(inner, case, labels) => match token {
            Lexeme::Sign(Mark::Comma) => {
                Ok(Place::InStmt(StmtSpot::NextLabel(inner, case, labels)))
            }
            Lexeme::Sign(Mark::Colon) => begin_stmt(outer, Holder::Labelled(case, labels), inner),
            _ => Err(ParseFault::Unexpected),
        },
        StmtSpot::NextLabel(inner, case, labels) => next_label(inner, case, labels, token),
        StmtSpot::DefaultRead(inner, case) => {
            push_holder(outer, Holder::Other(case))?;
            match token {
                Lexeme::Sign(Mark::Colon) => Ok(Place::InStmt(StmtSpot::WantStmt(inner))),
                _ => want_stmt(alloc, outer, inner, token),
            }
        }
        StmtSpot::Block(inner, depth, old) => in_block(alloc, outer, inner, depth, old, token),
        StmtSpot::HaveStmt(depth, body) => after_stmt(alloc, outer, depth, body, token),
    }
}
