//! Operands and what joins them, operators, parentheses, braces and choices: what a token does where an operand is wanted,
//! and behind one.
ghost use Rattle.std.specs.Prelude.{◌≡◌, if◌then◌else◌, Some, IfOk, IfErr, [], map};
ghost use Rattle.verilog_tree.specs.Plain.{plain, expressions, Followed, NoMore};
ghost use Rattle.verilog_tree.specs.Free.{signed};
ghost use Rattle.verilog_text.specs.Flat.{one_more, in_parens, in_braces, behind, linked};
ghost use Rattle.verilog_tree.specs.Spells.{bounded};
ghost use Rattle.verilog_tree.specs.Grammar.{deeper};
ghost use Rattle.verilog_text.specs.Places.{InList, AtExpr, WantOperand, Linked, more_parts};
ghost use Rattle.verilog_text.specs.Steps.{in_room, prim_step, operand_step, close_step, have_step};
ghost use Rattle.verilog_read.specs.inner.Waiting.{lefts_of};
ghost use Rattle.verilog_read.specs.inner.Holding.{token_of, nest, nests_of, is_expected};
ghost use Rattle.verilog_read.specs.inner.Frames.{alone_of};
ghost use Rattle.verilog_read.specs.inner.Answers.{Goes};
ghost use Rattle.verilog_read.specs.declared.places.Outer.{Outer};

use crate::expressions::after_whole;
use crate::fault::ParseFault;
use crate::lexemes::Lexeme;
use crate::operators::{Left, MOST_HEIGHT, settle};
use crate::places::{Outer, Place};
use bist_text::is_reserved;
use std::alloc::Global;
use verilog_text::Count;
use verilog_tree::build::{choose, unary};
use verilog_tree::{BinOp, Expr, Mark, Name, UnOp, height, infix_of, unary_of};

/// How many openings may be open at once, and how many operators an expression may have that stands in no other.
const MOST_OPENINGS: u8 = 64;

const MOST_OPERATORS: u16 = 256;

/// What is read of an expression before the operand that comes: how many operators are counted so far, those that wait
/// for their second operand, each behind its first, and the mark before the operand.
#[derive(Drop)]
pub struct Chain {
    pub count: Count,
    pub lefts: Vec<Left>,
    pub mark: Option<UnOp>,
}

/// What such operands stand in.
#[derive(Drop)]
pub enum Nest {
    Round(u8, Chain),
    List(u8, Vec<Expr>, Chain),
    IfTrue(Expr),
    IfFalse(Expr, Expr),
}

/// Where among them the parser stands.
#[derive(Drop)]
pub enum ExprSpot {
    Operand(u8),
    Prim(u8),
    Named(u8, Name),
    Bracket(u8, Name),
    HighRead(u8, Name, u8),
    ColonRead(u8, Name, u8),
    LowRead(u8, Name, u8, u8),
    Have(u8, Expr),
}

pub(crate) fn deeper(depth: u8) -> Option<u8>
    ensures { result ≡ deeper bounded depth }
{
    if depth < MOST_OPENINGS {
        Some(depth + 1)
    } else {
        None
    }
}

/// One operator more, where one more may be.
fn one_more(count: Count) -> Option<Count>
    ensures { result ≡ one_more bounded count }
{
    match count {
        Count::Together(operators) => {
            if operators < MOST_OPERATORS {
                Some(Count::Together(operators + 1))
            } else {
                None
            }
        }
        Count::Apart(true) => Some(Count::Apart(false)),
        Count::Apart(false) => None,
    }
}

/// Inside of a parenthesis, or of braces.
fn within(count: Count, parenthesis: bool) -> Count
    ensures { result ≡ (if parenthesis then in_parens count else in_braces count) }
{
    match count {
        Count::Together(operators) => Count::Together(operators),
        Count::Apart(_) => Count::Apart(parenthesis),
    }
}

/// Behind either, by what was counted before it and inside.
fn behind(before: Count, inside: Count) -> Count
    ensures { result ≡ behind before inside }
{
    match before {
        Count::Together(_) => inside,
        Count::Apart(may) => Count::Apart(may),
    }
}

/// An operand with its mark.
fn signed(alloc: Global, mark: Option<UnOp>, x: Expr) -> Result<Expr, ParseFault>
    ensures value { IfOk result (λ y. plain y ≡ signed mark (plain x)) }
    ensures fault { IfErr result (λ f. f ≡ ParseFault.NoMemory) }
{
    match mark {
        Some(op) => match unary(alloc, op, x) {
            Ok(marked) => Ok(marked),
            Err(_) => Err(ParseFault::NoMemory),
        },
        None => Ok(x),
    }
}

#[tactic(auto, using(crate::proofs::HoldingLemmas::parts_push))]
fn with_part(parts: Vec<Expr>, x: Expr) -> Result<Vec<Expr>, ParseFault>
    ensures value { IfOk result (λ ys. expressions (map plain ys.items)
        ≡ more_parts (expressions (map plain parts.items)) (Followed (plain x) NoMore)) }
    ensures fault { IfErr result (λ f. f ≡ ParseFault.NoMemory) }
{
    let mut parts = parts;
    parts.push(x)?;
    Ok(parts)
}

/// An expression begins within another.
#[tactic(auto, using(crate::proofs::HoldingLemmas::nests_push))]
fn begin_nested(
    alloc: Global,
    outer: &mut Outer,
    around: Nest,
    depth: u8,
    count: Count,
) -> Result<Place, ParseFault>
    ensures { Goes (Some (AtExpr (WantOperand depth count []
        (nest around (nests_of outer.old.nests.items (alone_of outer.old)))))) result outer.new }
{
    outer.nests.push(around)?;
    let chain = Chain {
        count,
        lefts: Vec::new(alloc),
        mark: None,
    };
    Ok(Place::InExpr(ExprSpot::Operand(depth), chain))
}

/// Where a name, a literal, a parenthesis or a brace is wanted.
pub(crate) fn step_primary(
    alloc: Global,
    outer: &mut Outer,
    depth: u8,
    chain: Chain,
    token: &Lexeme,
) -> Result<Place, ParseFault>
    ensures { Goes (prim_step bounded depth chain.count (lefts_of chain.lefts.items) chain.mark
        (nests_of outer.old.nests.items (alone_of outer.old)) (token_of token.now)) result outer.new }
{
    let count = chain.count;
    let spot = match token {
        Lexeme::Word(name) if !is_reserved(name.as_str().as_bytes()) => {
            ExprSpot::Named(depth, *name)
        }
        Lexeme::Constant(bits) => ExprSpot::Have(depth, Expr::Lit(*bits)),
        Lexeme::Sign(Mark::Open) => {
            let Some(inner) = deeper(depth) else {
                return Err(ParseFault::Unexpected);
            };
            let around = Nest::Round(depth, chain);
            return begin_nested(alloc, outer, around, inner, within(count, true));
        }
        Lexeme::Sign(Mark::OpenBrace) => {
            let Some(inner) = deeper(depth) else {
                return Err(ParseFault::Unexpected);
            };
            let around = Nest::List(depth, Vec::new(alloc), chain);
            return begin_nested(alloc, outer, around, inner, within(count, false));
        }
        _ => return Err(ParseFault::Unexpected),
    };
    Ok(Place::InExpr(spot, chain))
}

/// Where an operand is wanted: a mark may stand before it.
pub(crate) fn step_operand(
    alloc: Global,
    outer: &mut Outer,
    depth: u8,
    chain: Chain,
    token: &Lexeme,
) -> Result<Place, ParseFault>
    ensures { Goes (operand_step bounded depth chain.count (lefts_of chain.lefts.items)
        (nests_of outer.old.nests.items (alone_of outer.old)) (token_of token.now)) result outer.new }
{
    let mut chain = chain;
    chain.mark = match token {
        Lexeme::Sign(mark) => unary_of(*mark),
        _ => None,
    };
    if chain.mark.is_none() {
        return step_primary(alloc, outer, depth, chain, token);
    }
    match one_more(chain.count) {
        Some(more) => {
            chain.count = more;
            Ok(Place::InExpr(ExprSpot::Prim(depth), chain))
        }
        None => Err(ParseFault::Unexpected),
    }
}

/// Whether a token is this mark.
#[tactic(auto, using(verilog_text::proofs::Marks::is_mark))]
pub(crate) fn is_mark(mark: Mark, token: &Lexeme) -> bool
    ensures { result ≡ is_expected mark (token_of token.now) }
{
    match token {
        Lexeme::Sign(other) => mark == *other,
        _ => false,
    }
}

/// A part of a concatenation ends.
fn in_list(
    alloc: Global,
    outer: &mut Outer,
    inner: u8,
    depth: u8,
    parts: Vec<Expr>,
    chain: Chain,
    count: Count,
    x: Expr,
    token: &Lexeme,
) -> Result<Place, ParseFault>
    ensures { Goes (close_step inner count (plain x)
        (InList depth (expressions (map plain parts.items)) chain.count (lefts_of chain.lefts.items) chain.mark
        (nests_of outer.old.nests.items (alone_of outer.old))) (token_of token.now)) result outer.new }
{
    let parts = with_part(parts, x)?;
    match token {
        Lexeme::Sign(Mark::Comma) => {
            begin_nested(alloc, outer, Nest::List(depth, parts, chain), inner, count)
        }
        Lexeme::Sign(Mark::CloseBrace) => {
            let mut chain = chain;
            chain.count = behind(chain.count, count);
            Ok(Place::InExpr(ExprSpot::Have(depth, Expr::Concat(parts)), chain))
        }
        _ => Err(ParseFault::Unexpected),
    }
}

/// What a token does behind a whole expression: each choice whose last part it was ends with it.
fn close(
    alloc: Global,
    outer: &mut Outer,
    depth: u8,
    count: Count,
    x: Expr,
    token: &Lexeme,
) -> Result<Place, ParseFault>
    ensures { Goes (close_step depth count (plain x) (nests_of outer.old.nests.items (alone_of outer.old))
        (token_of token.now)) result outer.new }
{
    let mut last = x;
    while let Some(around) = outer.nests.pop() {
        match around {
            Nest::IfFalse(c, yes) => last = choose(alloc, c, yes, last)?,
            Nest::List(above, parts, chain) => {
                return in_list(alloc, outer, depth, above, parts, chain, count, last, token);
            }
            Nest::Round(above, chain) => {
                if !is_mark(Mark::Close, token) {
                    return Err(ParseFault::Unexpected);
                }
                let mut chain = chain;
                chain.count = behind(chain.count, count);
                return Ok(Place::InExpr(ExprSpot::Have(above, last), chain));
            }
            Nest::IfTrue(c) => {
                if !is_mark(Mark::Colon, token) {
                    return Err(ParseFault::Unexpected);
                }
                return begin_nested(alloc, outer, Nest::IfFalse(c, last), depth, count);
            }
        }
    }
    after_whole(alloc, outer, depth, last, token)
}

/// An operator comes behind an operand: it waits, once those before it that bind as tightly have their second.
#[tactic(auto, using(crate::proofs::WaitingLemmas::lefts_push))]
fn joined_by(
    alloc: Global,
    depth: u8,
    operator: BinOp,
    chain: Chain,
    x: Expr,
) -> Result<Place, ParseFault>
    ensures { (w : Outer) → Goes (in_room (one_more bounded chain.count)
        (λ j. AtExpr (WantOperand depth j (linked operator (lefts_of chain.lefts.items) (plain x))
        (nests_of w.nests.items (alone_of w))))) result w }
{
    let Some(more) = one_more(chain.count) else {
        return Err(ParseFault::Unexpected);
    };
    let mut chain = chain;
    chain.count = more;
    let operand = settle(alloc, height(operator), &mut chain.lefts, x)?;
    chain.lefts.push(Left { operand, operator })?;
    Ok(Place::InExpr(ExprSpot::Operand(depth), chain))
}

/// What a token does behind an operand.
#[tactic(auto, using(crate::proofs::HoldingLemmas::ask_is, crate::proofs::WaitingLemmas::settled_all))]
pub(crate) fn after_operand(
    alloc: Global,
    outer: &mut Outer,
    depth: u8,
    x: Expr,
    chain: Chain,
    token: &Lexeme,
) -> Result<Place, ParseFault>
    ensures { Goes (have_step bounded depth (plain x)
        (Linked chain.count (lefts_of chain.lefts.items) chain.mark
        (nests_of outer.old.nests.items (alone_of outer.old))) (token_of token.now)) result outer.new }
{
    let mut chain = chain;
    let x = signed(alloc, chain.mark, x)?;
    if let Lexeme::Sign(mark) = token {
        if let Some(op) = infix_of(*mark) {
            return joined_by(alloc, depth, op, chain, x);
        }
    }
    let whole = settle(alloc, MOST_HEIGHT, &mut chain.lefts, x)?;
    if !is_mark(Mark::Question, token) {
        return close(alloc, outer, depth, chain.count, whole, token);
    }
    match one_more(chain.count) {
        Some(more) => begin_nested(alloc, outer, Nest::IfTrue(whole), depth, more),
        None => Err(ParseFault::Unexpected),
    }
}
