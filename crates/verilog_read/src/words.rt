//! The words, names and literals that may come where the parser stands.
ghost use Rattle.std.specs.Prelude.{◌≡◌, ℕ, List, false, map};
ghost use Rattle.verilog_text.specs.Places.{Nest, Head, InAlways, AtExpr, AtStmt, AtItem};
ghost use Rattle.verilog_read.specs.inner.Frames.{holders, around_of};
ghost use Rattle.verilog_read.specs.inner.Spots.{stmt_spot, item_spot, state_of};
ghost use Rattle.verilog_read.specs.inner.Holding.{standing};
ghost use Rattle.verilog_read.specs.declared.precedence.Chain.{Chain};
ghost use Rattle.verilog_read.specs.inner.WordSets.{words_of, lists, Expects, ExpectsBehind};
ghost use Rattle.verilog_read.specs.inner.Ends.{begins};

use crate::places::{Holder, ItemSpot, Outer, Place, StmtSpot};
use crate::precedence::ExprSpot;

/// Reserved words that may come at one place.
#[derive(Clone, Copy)]
pub enum WordSet {
    Nothing,
    Module,
    Directions,
    Wire,
    WireOrReg,
    Items,
    Edge,
    Statements,
    Block,
    Arms,
    CaseEnd,
}

/// What may come: an else, these words, names, literals.
#[derive(Clone, Copy)]
pub struct Expected {
    pub alternative: bool,
    pub words: WordSet,
    pub names: bool,
    pub literals: bool,
}

/// Whether one of these words is this one, or begins with it where it is a part of one.
fn is_listed(words: &[&str], word: &[u8], part: bool) -> bool
    ensures { result ≡ lists part word.now (map (λ w. w.now) words.now) }
{
    for other in words {
        let fits = if part {
            other.as_bytes().starts_with(word)
        } else {
            word == other.as_bytes()
        };
        if fits {
            return true;
        }
    }
    false
}

fn words_of(set: WordSet) -> &'static [&'static str]
    ensures { map (λ w. w.now) result.now ≡ words_of set }
{
    match set {
        WordSet::Nothing => &[],
        WordSet::Module => &["module"],
        WordSet::Directions => &["input", "output"],
        WordSet::Wire => &["wire"],
        WordSet::WireOrReg => &["wire", "reg"],
        WordSet::Items => &["wire", "reg", "assign", "always", "endmodule"],
        WordSet::Edge => &["posedge"],
        WordSet::Statements => &["begin", "if", "case"],
        WordSet::Block => &["end", "begin", "if", "case"],
        WordSet::Arms => &["default", "endcase"],
        WordSet::CaseEnd => &["endcase"],
    }
}

impl Expected {
    ghost use Rattle.verilog_text.specs.Expected.{with_else};
    ghost use Rattle.verilog_read.specs.inner.Holding.{standing};
    ghost use Rattle.verilog_read.specs.declared.precedence.Chain.{Chain};
    ghost use Rattle.verilog_read.specs.inner.WordSets.{words_of, lists};

    /// Whether a word is one of those that may come, or one of them begins with it where it is a part of one.
    pub(crate) fn lists(self, word: &[u8], part: bool) -> bool
        ensures { result ≡ lists part word.now (with_else self.alternative (words_of self.words)) }
    {
        (self.alternative && is_listed(&["else"], word, part))
            || is_listed(words_of(self.words), word, part)
    }
}

fn plain(words: WordSet, names: bool, literals: bool) -> Expected
    ensures { result ≡ record { alternative = false; words = words; names = names; literals = literals } }
{
    Expected {
        alternative: false,
        words,
        names,
        literals,
    }
}

/// What may come behind a whole statement: where it ends an if, what may come behind that, too. The holders are at
/// most as many as the openings that are open, 64.
#[tactic(auto, using(crate::proofs::FrameLemmas::holders_push))]
fn expected_behind(waiting: &[Holder]) -> Expected
    ensures { (h : Head) (c : List ℕ) → ExpectsBehind result (holders waiting.now (InAlways h c)) }
{
    let [outer @ .., innermost] = waiting else {
        return plain(WordSet::Items, false, false);
    };
    match innermost {
        Holder::Block(_, _) => plain(WordSet::Block, true, false),
        Holder::Then(_, _) => {
            let above = expected_behind(outer);
            Expected {
                alternative: true,
                words: above.words,
                names: above.names,
                literals: above.literals,
            }
        }
        Holder::Else(_, _, _) => expected_behind(outer),
        Holder::Labelled(_, _) => plain(WordSet::Arms, false, true),
        Holder::Other(_) => plain(WordSet::CaseEnd, false, false),
    }
}

/// Whether an operand may begin.
fn begins(place: &ExprSpot) -> bool
    ensures { result ≡ begins place.now }
{
    matches!(place, ExprSpot::Operand(_) | ExprSpot::Prim(_))
}

fn expected_in_expr(place: &ExprSpot) -> Expected
    ensures { (c : Chain) (o : Nest) → Expects result (AtExpr (standing place.now c o)) }
{
    let begins = begins(place);
    plain(WordSet::Nothing, begins, begins)
}

#[tactic(auto, using(verilog_text::proofs::Expectations::literal_behind))]
fn expected_in_stmt(place: &StmtSpot, outer: &Outer) -> Expected
    ensures { Expects result (AtStmt (stmt_spot place.now (around_of outer.now))) }
{
    match place {
        StmtSpot::WantStmt(_) | StmtSpot::DefaultRead(_, _) => {
            plain(WordSet::Statements, true, false)
        }
        StmtSpot::Block(_, _, _) => plain(WordSet::Block, true, false),
        StmtSpot::FirstLabel(_, _) | StmtSpot::NextLabel(_, _, _) => {
            plain(WordSet::Nothing, false, true)
        }
        StmtSpot::HaveStmt(_, _) => expected_behind(outer.holders.as_slice()),
        _ => plain(WordSet::Nothing, false, false),
    }
}

fn expected_in_item(place: &ItemSpot, outer: &Outer) -> Expected
    ensures { Expects result (AtItem (item_spot place.now outer.now)) }
{
    match place {
        ItemSpot::Begin => plain(WordSet::Module, false, false),
        ItemSpot::WantPort => plain(WordSet::Directions, false, false),
        ItemSpot::InputRead => plain(WordSet::Wire, true, false),
        ItemSpot::OutputRead => plain(WordSet::WireOrReg, true, false),
        ItemSpot::Want => plain(WordSet::Items, false, false),
        ItemSpot::ClockOpen => plain(WordSet::Edge, false, false),
        ItemSpot::HeadName
        | ItemSpot::WantRange(_)
        | ItemSpot::WantName(_, _)
        | ItemSpot::AssignRead
        | ItemSpot::EdgeRead => plain(WordSet::Nothing, true, false),
        _ => plain(WordSet::Nothing, false, false),
    }
}

/// The words, names and literals that may come where the parser stands.
pub(crate) fn expected_at(place: &Place, outer: &Outer) -> Expected
    ensures { Expects result (state_of place.now outer.now) }
{
    match place {
        Place::InExpr(spot, _) => expected_in_expr(spot),
        Place::InStmt(spot) => expected_in_stmt(spot, outer),
        Place::InItem(spot) => expected_in_item(spot, outer),
    }
}
