//! What waits while a part of the text is read, and tests of tokens.
ghost use Rattle.std.specs.Prelude.{◌≡◌, ◌<◌, length, IfSome, Some, OnOk, IfErr};
ghost use Rattle.verilog_tree.specs.Plain.{plain_item};
ghost use Rattle.verilog_text.specs.Places.{AtExpr, AtStmt, WantStmt, with_item, style_of, begin_expr};
ghost use Rattle.verilog_text.specs.Steps.{is_word};
ghost use Rattle.verilog_read.specs.inner.Holding.{token_of};
ghost use Rattle.verilog_read.specs.Style.{styled};
ghost use Rattle.verilog_read.specs.inner.Frames.{holder, alone, around_of, head_of};
ghost use Rattle.verilog_read.specs.inner.Spots.{state_of};
ghost use Rattle.verilog_read.specs.inner.Answers.{Goes, Released};

use crate::fault::ParseFault;
use crate::lexemes::Lexeme;
use crate::places::{Holder, Outer, Place, Purpose, StmtSpot, Style};
use crate::precedence::{Chain, ExprSpot};
use std::alloc::Global;
use verilog_text::Count;
use verilog_tree::BodyItem;

#[tactic(auto, using(crate::proofs::FrameLemmas::holders_push))]
pub(crate) fn push_holder(outer: &mut Outer, h: Holder) -> Result<(), ParseFault>
    ensures held { OnOk result (around_of outer.new ≡ holder h (around_of outer.old)) }
    ensures fault { IfErr result (λ e. e ≡ ParseFault.NoMemory) }
{
    outer.holders.push(h)?;
    Ok(())
}

/// A statement begins that stands in this.
pub(crate) fn begin_stmt(outer: &mut Outer, h: Holder, depth: u8) -> Result<Place, ParseFault>
    ensures { Goes (Some (AtStmt (WantStmt depth (holder h (around_of outer.old))))) result outer.new }
{
    push_holder(outer, h)?;
    Ok(Place::InStmt(StmtSpot::WantStmt(depth)))
}

#[tactic(auto, using(crate::proofs::FrameLemmas::holders_push))]
pub(crate) fn pop_holder(outer: &mut Outer) -> Option<Holder>
    ensures released { Released (around_of outer.old) result (around_of outer.new) (head_of outer.new) outer.new.clock.bytes }
    ensures fewer { IfSome result (λ h. length outer.new.holders.items < length outer.old.holders.items) }
{
    outer.holders.pop()
}

/// An expression begins, which stands in no other.
#[tactic(auto, using(crate::proofs::FrameLemmas::style_held))]
pub(crate) fn begin_expr(alloc: Global, outer: &mut Outer, whole: Purpose, depth: u8) -> Place
    ensures begun { state_of result outer.new
        ≡ AtExpr (begin_expr (styled outer.old.style) depth (alone whole (head_of outer.old) (around_of outer.old))) }
    ensures same { style_of (around_of outer.old) ≡ styled outer.old.style }
{
    outer.base = whole;
    outer.nests.clear();
    let count = match outer.style {
        Style::Parenthesised => Count::Apart(false),
        Style::ByPrecedence => Count::Together(0),
    };
    let chain = Chain {
        count,
        lefts: Vec::new(alloc),
        mark: None,
    };
    Place::InExpr(ExprSpot::Operand(depth), chain)
}

pub(crate) fn add_item(outer: &mut Outer, item: BodyItem) -> Result<(), ParseFault>
    ensures added { OnOk result (head_of outer.new ≡ with_item (head_of outer.old) (plain_item item)) }
    ensures fault { IfErr result (λ e. e ≡ ParseFault.NoMemory) }
{
    outer.tree.items.push(item)?;
    Ok(())
}

/// Whether a token is this word.
pub(crate) fn is_word(word: &str, token: &Lexeme) -> bool
    ensures { result ≡ is_word word.now (token_of token.now) }
{
    match token {
        Lexeme::Word(name) => name.as_str() == word,
        _ => false,
    }
}
