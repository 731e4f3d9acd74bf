//! What a token does between statements.
ghost use Rattle.std.specs.Prelude.{◌≡◌, Some};
ghost use Rattle.verilog_tree.specs.Spells.{bounded};
ghost use Rattle.verilog_text.specs.Steps.{declared, takes_name, range_step, name_step, input_step, output_step, step_item, step};
ghost use Rattle.verilog_read.specs.inner.Holding.{token_of};
ghost use Rattle.verilog_read.specs.inner.Frames.{head_of};
ghost use Rattle.verilog_read.specs.inner.Spots.{use_of, item_spot, state_of};
ghost use Rattle.verilog_read.specs.inner.Answers.{Goes, a_name, bytes_of};

use crate::expressions::step_expr;
use crate::fault::ParseFault;
use crate::lexemes::Lexeme;
use crate::places::{ItemSpot, Outer, Place, Purpose, StmtSpot, Use};
use crate::precedence::is_mark;
use crate::stacks::{add_item, begin_expr, is_word};
use crate::statements::{step_stmt, want_item};
use bist_text::is_reserved;
use std::alloc::Global;
use verilog_tree::{BodyItem, Decl, Dir, Mark, Name, Port};

fn name_in(token: &Lexeme) -> Option<Name>
    ensures { bytes_of result ≡ a_name (token_of token.now) }
{
    match token {
        Lexeme::Word(name) => {
            if is_reserved(name.as_str().as_bytes()) {
                None
            } else {
                Some(*name)
            }
        }
        _ => None,
    }
}

/// A name is declared.
fn declare(outer: &mut Outer, what: &Use, width: u8, name: Name) -> Result<Place, ParseFault>
    ensures { Goes (Some (declared (use_of what.now (head_of outer.old)) width name.bytes)) result outer.new }
{
    match what {
        Use::Wire => add_item(outer, BodyItem::Wire(Decl { name, width }))?,
        Use::Reg => add_item(outer, BodyItem::Reg(Decl { name, width }))?,
        Use::Port(dir) => {
            let dir = *dir;
            outer.tree.ports.push(Port { dir, name, width })?;
        }
    }
    Ok(Place::InItem(ItemSpot::NameRead(*what, width)))
}

/// A name that is declared with this width comes.
#[tactic(auto, using(crate::proofs::FrameLemmas::takes_name_is))]
fn want_name(outer: &mut Outer, what: &Use, width: u8, token: &Lexeme) -> Result<Place, ParseFault>
    ensures { Goes (takes_name (declared (use_of what.now (head_of outer.old)) width) (token_of token.now)) result outer.new }
{
    match name_in(token) {
        Some(name) => declare(outer, what, width, name),
        None => Err(ParseFault::Unexpected),
    }
}

fn want_range(outer: &mut Outer, what: Use, token: &Lexeme) -> Result<Place, ParseFault>
    ensures { Goes (range_step (use_of what (head_of outer.old)) (token_of token.now)) result outer.new }
{
    match token {
        Lexeme::Sign(Mark::OpenBracket) => Ok(Place::InItem(ItemSpot::WantHigh(what))),
        _ => want_name(outer, &what, 1, token),
    }
}

/// What a token does behind the direction of a port.
fn behind_dir(outer: &mut Outer, dir: Dir, token: &Lexeme) -> Result<Place, ParseFault>
    ensures input { dir ≡ Dir.Input → Goes (input_step (head_of outer.old) (token_of token.now)) result outer.new }
    ensures output { dir ≡ Dir.Output → Goes (output_step (head_of outer.old) (token_of token.now)) result outer.new }
{
    if is_word("wire", token) {
        return Ok(Place::InItem(ItemSpot::WantRange(Use::Port(dir))));
    }
    match dir {
        Dir::Output if is_word("reg", token) => {
            Ok(Place::InItem(ItemSpot::WantRange(Use::Port(Dir::OutputReg))))
        }
        _ => want_range(outer, Use::Port(dir), token),
    }
}

/// What a token does behind a name that is declared.
#[tactic(auto, using(crate::proofs::HoldingLemmas::expects_is))]
fn name_read(outer: &Outer, what: &Use, width: u8, token: &Lexeme) -> Result<Place, ParseFault>
    ensures { Goes (name_step (use_of what.now (head_of outer.now)) width (token_of token.now)) result outer.now }
{
    if let Lexeme::Sign(Mark::Comma) = token {
        return match what {
            Use::Port(_) => Ok(Place::InItem(ItemSpot::WantPort)),
            _ => Ok(Place::InItem(ItemSpot::WantName(*what, width))),
        };
    }
    match what {
        Use::Port(_) if is_mark(Mark::Close, token) => Ok(Place::InItem(ItemSpot::PortsRead)),
        Use::Port(_) => Err(ParseFault::Unexpected),
        _ if is_mark(Mark::Semicolon, token) => Ok(Place::InItem(ItemSpot::Want)),
        _ => Err(ParseFault::Unexpected),
    }
}

/// What a token does between statements.
#[tactic(auto, using(crate::proofs::HoldingLemmas::expects_is, crate::proofs::FrameLemmas::takes_name_is))]
pub(crate) fn step_item(
    alloc: Global,
    outer: &mut Outer,
    place: &ItemSpot,
    token: &Lexeme,
) -> Result<Place, ParseFault>
    ensures { Goes (step_item bounded (item_spot place.now outer.old) (token_of token.now)) result outer.new }
{
    let next = match place {
        ItemSpot::Begin if is_word("module", token) => ItemSpot::HeadName,
        ItemSpot::HeadName => match name_in(token) {
            Some(name) => {
                outer.tree.name = name;
                ItemSpot::HeadOpen
            }
            None => return Err(ParseFault::Unexpected),
        },
        ItemSpot::HeadOpen if is_mark(Mark::Open, token) => {
            outer.tree.ports.clear();
            outer.tree.items.clear();
            ItemSpot::WantPort
        }
        ItemSpot::WantPort if is_word("input", token) => ItemSpot::InputRead,
        ItemSpot::WantPort if is_word("output", token) => ItemSpot::OutputRead,
        ItemSpot::InputRead => return behind_dir(outer, Dir::Input, token),
        ItemSpot::OutputRead => return behind_dir(outer, Dir::Output, token),
        ItemSpot::WantRange(what) => return want_range(outer, *what, token),
        ItemSpot::WantHigh(what) => match token {
            Lexeme::Number(_, high) => ItemSpot::WantColon(*what, *high),
            _ => return Err(ParseFault::Unexpected),
        },
        ItemSpot::WantColon(what, high) if is_mark(Mark::Colon, token) => {
            ItemSpot::WantZero(*what, *high)
        }
        ItemSpot::WantZero(what, high) => match token {
            Lexeme::Number(false, n) if n.value == 0 => ItemSpot::WantBracket(*what, *high),
            _ => return Err(ParseFault::Unexpected),
        },
        ItemSpot::WantBracket(what, high) if is_mark(Mark::CloseBracket, token) => {
            ItemSpot::WantName(*what, high.value + 1)
        }
        ItemSpot::WantName(what, width) => return want_name(outer, what, *width, token),
        ItemSpot::NameRead(what, width) => return name_read(outer, what, *width, token),
        ItemSpot::PortsRead if is_mark(Mark::Semicolon, token) => ItemSpot::Want,
        ItemSpot::Want => return want_item(outer, token),
        ItemSpot::AssignRead => match name_in(token) {
            Some(name) => ItemSpot::DriveRead(name),
            None => return Err(ParseFault::Unexpected),
        },
        ItemSpot::DriveRead(name) if is_mark(Mark::Equals, token) => {
            return Ok(begin_expr(alloc, outer, Purpose::Drive(*name), 0));
        }
        ItemSpot::AlwaysRead if is_mark(Mark::At, token) => ItemSpot::AtRead,
        ItemSpot::AtRead if is_mark(Mark::Open, token) => ItemSpot::ClockOpen,
        ItemSpot::ClockOpen if is_word("posedge", token) => ItemSpot::EdgeRead,
        ItemSpot::EdgeRead => match name_in(token) {
            Some(name) => {
                outer.clock = name;
                ItemSpot::ClockRead
            }
            None => return Err(ParseFault::Unexpected),
        },
        ItemSpot::ClockRead if is_mark(Mark::Close, token) => {
            outer.holders.clear();
            return Ok(Place::InStmt(StmtSpot::WantStmt(0)));
        }
        _ => return Err(ParseFault::Unexpected),
    };
    Ok(Place::InItem(next))
}

/// What a token does where the parser stands.
pub(crate) fn step(
    alloc: Global,
    outer: &mut Outer,
    place: Place,
    token: &Lexeme,
) -> Result<Place, ParseFault>
    ensures { Goes (step bounded (state_of place outer.old) (token_of token.now)) result outer.new }
{
    match place {
        Place::InExpr(spot, chain) => step_expr(alloc, outer, spot, chain, token),
        Place::InStmt(spot) => step_stmt(alloc, outer, spot, token),
        Place::InItem(spot) => step_item(alloc, outer, &spot, token),
    }
}
