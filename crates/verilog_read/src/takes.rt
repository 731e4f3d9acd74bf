//! Whether a text may go on with a token, and with what is begun of one.
ghost use Rattle.std.specs.Prelude.{◌≡◌, ◌||◌, ℕ, false};
ghost use Rattle.verilog_tree.specs.Plain.{Expression};
ghost use Rattle.verilog_tree.specs.Tokens.{Number, Sign};
ghost use Rattle.verilog_text.specs.Places as Q;
ghost use Rattle.verilog_read.specs.inner.Ends.{ends_choice, closes, goes_on, may};
ghost use Rattle.verilog_read.specs.inner.Holding.{token_of, nest, standing, nests_of};
ghost use Rattle.verilog_read.specs.declared.precedence.Chain.{Chain};
ghost use Rattle.verilog_text.specs.Expected.{is_step, taken, takes_literals, live, longer_marks, some_taken};
ghost use Rattle.verilog_read.specs.inner.Lexemes.{lexer_of};
ghost use Rattle.verilog_read.specs.inner.Frames.{alone_of, around_of};
ghost use Rattle.verilog_text.specs.Places.{AtExpr, AtStmt, AtItem};
ghost use Rattle.verilog_read.specs.inner.Spots.{stmt_spot, item_spot, state_of};
ghost use Rattle.verilog_text.specs.Steps.{alone_step};

use crate::lexemes::Lexeme;
use crate::lexer::Scanner;
use crate::places::{ItemSpot, Outer, Place, Purpose, StmtSpot, Use};
use crate::precedence::{ExprSpot, Nest};
use crate::words::expected_at;
use bist_text::is_reserved;
use verilog_text::Count;
use verilog_tree::{Mark, infix_of, unary_of};

/// Whether a mark may come behind an expression that stands in no other.
fn base_takes(outer: &Outer, mark: Mark) -> bool
    ensures { (p : ℕ) (x : Expression) → result ≡ is_step (alone_step p x (alone_of outer.now) (Sign mark)) }
{
    match &outer.base {
        Purpose::Drive(_) | Purpose::Set(_) => matches!(mark, Mark::Semicolon),
        Purpose::Test(_, _) | Purpose::Pick(_, _) => matches!(mark, Mark::Close),
    }
}

/// Whether this is a choice of which the last part is read.
fn ends_choice(inner: &Nest) -> bool
    ensures { result ≡ ends_choice inner.now }
{
    matches!(inner, Nest::IfFalse(_, _))
}

/// Whether a mark may come behind a whole expression by precedence that stands in this, which is no such choice.
fn nest_takes(inner: &Nest, mark: Mark) -> bool
    ensures { (o : Q.Nest) → ends_choice inner.now ≡ false → result ≡ closes (nest inner.now o) mark }
{
    match inner {
        Nest::Round(_, _) => matches!(mark, Mark::Close),
        Nest::List(_, _, _) => matches!(mark, Mark::Comma | Mark::CloseBrace),
        Nest::IfTrue(_) => matches!(mark, Mark::Colon),
        Nest::IfFalse(_, _) => false,
    }
}

/// The same where it stands in these, the last first: the choices whose last part it is end with it.
#[tactic(auto, using(crate::proofs::Ends::ends_is))]
fn nests_take(nests: &[Nest], outer: &Outer, mark: Mark) -> bool
    ensures { result ≡ closes (nests_of nests.now (alone_of outer.now)) mark }
{
    let mut rest = nests;
    while let [others @ .., innermost] = rest {
        if !ends_choice(innermost) {
            return nest_takes(innermost, mark);
        }
        rest = others;
    }
    base_takes(outer, mark)
}

/// Whether one operator more may be, if there were no limit.
fn may_link(count: Count) -> bool
    ensures { result ≡ may count }
{
    match count {
        Count::Together(_) => true,
        Count::Apart(may) => may,
    }
}

/// Whether a mark may come behind an operand.
fn operand_takes(count: Count, outer: &Outer, mark: Mark) -> bool
    ensures { result ≡ goes_on count (nests_of outer.now.nests.items (alone_of outer.now)) mark }
{
    if matches!(mark, Mark::Question) || infix_of(mark).is_some() {
        may_link(count)
    } else {
        nests_take(outer.nests.as_slice(), outer, mark)
    }
}

#[tactic(auto, using(crate::proofs::Ends::named_takes, crate::proofs::Ends::linked_takes, crate::proofs::Ends::operand_is, crate::proofs::Ends::prim_is))]
fn expr_takes(place: &ExprSpot, count: Count, outer: &Outer, mark: Mark) -> bool
    ensures { (c : Chain) → c.count ≡ count
        → result ≡ taken (AtExpr (standing place.now c (nests_of outer.now.nests.items (alone_of outer.now))))
        (Sign mark) }
{
    match place {
        ExprSpot::Operand(_) if unary_of(mark).is_some() => may_link(count),
        ExprSpot::Operand(_) | ExprSpot::Prim(_) => matches!(mark, Mark::Open | Mark::OpenBrace),
        ExprSpot::Named(_, _) => matches!(mark, Mark::OpenBracket)
            || operand_takes(count, outer, mark),
        ExprSpot::Bracket(_, _) | ExprSpot::ColonRead(_, _, _) => false,
        ExprSpot::HighRead(_, _, _) => matches!(mark, Mark::CloseBracket | Mark::Colon),
        ExprSpot::LowRead(_, _, _, _) => matches!(mark, Mark::CloseBracket),
        ExprSpot::Have(_, _) => operand_takes(count, outer, mark),
    }
}

#[tactic(auto, using(verilog_text::proofs::Expectations::no_mark_behind))]
fn stmt_takes(place: &StmtSpot, outer: &Outer, mark: Mark) -> bool
    ensures { result ≡ taken (AtStmt (stmt_spot place.now (around_of outer.now))) (Sign mark) }
{
    match place {
        StmtSpot::Target(_, _) => matches!(mark, Mark::LessEquals),
        StmtSpot::IfRead(_, _) | StmtSpot::CaseRead(_, _) => matches!(mark, Mark::Open),
        StmtSpot::Labels(_, _, _) => matches!(mark, Mark::Comma | Mark::Colon),
        StmtSpot::DefaultRead(_, _) => matches!(mark, Mark::Colon),
        _ => false,
    }
}

fn item_takes(place: &ItemSpot, outer: &Outer, mark: Mark) -> bool
    ensures { result ≡ taken (AtItem (item_spot place.now outer.now)) (Sign mark) }
{
    match place {
        ItemSpot::HeadOpen | ItemSpot::AtRead => matches!(mark, Mark::Open),
        ItemSpot::InputRead | ItemSpot::OutputRead | ItemSpot::WantRange(_) => {
            matches!(mark, Mark::OpenBracket)
        }
        ItemSpot::WantColon(_, _) => matches!(mark, Mark::Colon),
        ItemSpot::WantBracket(_, _) => matches!(mark, Mark::CloseBracket),
        ItemSpot::NameRead(Use::Port(_), _) => matches!(mark, Mark::Comma | Mark::Close),
        ItemSpot::NameRead(_, _) => matches!(mark, Mark::Comma | Mark::Semicolon),
        ItemSpot::PortsRead => matches!(mark, Mark::Semicolon),
        ItemSpot::DriveRead(_) => matches!(mark, Mark::Equals),
        ItemSpot::AlwaysRead => matches!(mark, Mark::At),
        ItemSpot::ClockRead => matches!(mark, Mark::Close),
        _ => false,
    }
}

fn takes_mark(place: &Place, outer: &Outer, mark: Mark) -> bool
    ensures { result ≡ taken (state_of place.now outer.now) (Sign mark) }
{
    match place {
        Place::InExpr(spot, chain) => expr_takes(spot, chain.count, outer, mark),
        Place::InStmt(spot) => stmt_takes(spot, outer, mark),
        Place::InItem(spot) => item_takes(spot, outer, mark),
    }
}

/// Whether a number may come, told by whether it has more than one digit, and its value.
#[tactic(auto, using(verilog_text::proofs::Expectations::number_taken))]
pub(crate) fn takes_number(place: &Place, outer: &Outer, long: bool, value: u8) -> bool
    ensures { result ≡ taken (state_of place.now outer.now) (Number long value) }
{
    match place {
        Place::InExpr(ExprSpot::Bracket(_, _) | ExprSpot::ColonRead(_, _, _), _)
        | Place::InItem(ItemSpot::WantHigh(_)) => true,
        Place::InItem(ItemSpot::WantZero(_, _)) => !long && value == 0,
        _ => false,
    }
}

/// Whether a text may go on with a token.
#[tactic(auto, using(verilog_text::proofs::Expectations::word_taken, verilog_text::proofs::Expectations::literals_alike, verilog_text::proofs::Expectations::no_query))]
pub(crate) fn takes_token(place: &Place, outer: &Outer, token: &Lexeme) -> bool
    ensures { result ≡ taken (state_of place.now outer.now) (token_of token.now) }
{
    match token {
        Lexeme::Word(name) => {
            let expected = expected_at(place, outer);
            let word = name.as_str().as_bytes();
            expected.lists(word, false) || (expected.names && !is_reserved(word))
        }
        Lexeme::Number(long, n) => takes_number(place, outer, *long, n.value),
        Lexeme::Constant(_) => expected_at(place, outer).literals,
        Lexeme::Unused => false,
        Lexeme::Sign(mark) => takes_mark(place, outer, *mark),
    }
}

/// Whether a longer mark that begins with a mark may come.
fn takes_longer(place: &Place, outer: &Outer, mark: Mark) -> bool
    ensures { result ≡ some_taken (state_of place.now outer.now) (longer_marks mark) }
{
    match mark {
        Mark::Equals => takes_mark(place, outer, Mark::TwoEquals),
        Mark::Bang => takes_mark(place, outer, Mark::BangEquals),
        Mark::Less => {
            takes_mark(place, outer, Mark::LessEquals) || takes_mark(place, outer, Mark::TwoLess)
        }
        Mark::Greater => {
            takes_mark(place, outer, Mark::GreaterEquals)
                || takes_mark(place, outer, Mark::TwoGreater)
        }
        Mark::Ampersand => takes_mark(place, outer, Mark::TwoAmpersands),
        Mark::Bar => takes_mark(place, outer, Mark::TwoBars),
        _ => false,
    }
}

/// Whether a number may come, told by the same two, or a literal.
pub(crate) fn takes_digits(place: &Place, outer: &Outer, long: bool, value: u8) -> bool
    ensures { result ≡ (taken (state_of place.now outer.now) (Number long value) || takes_literals (state_of place.now outer.now)) }
{
    takes_number(place, outer, long, value) || expected_at(place, outer).literals
}

/// Whether what the lexer has begun can go on to a token with which a text may go on.
pub(crate) fn is_live(place: &Place, outer: &Outer, lexer: &Scanner) -> bool
    ensures { result ≡ live (state_of place.now outer.now) (lexer_of lexer.now) }
{
    match lexer {
        Scanner::InGap(_) => true,
        Scanner::InWord(name) => {
            let expected = expected_at(place, outer);
            expected.names || expected.lists(name.as_str().as_bytes(), true)
        }
        Scanner::InNumber(long, n) => { takes_digits(place, outer, *long, n.value) }
        Scanner::Quoted(_) | Scanner::Lettered(_, _) | Scanner::InDigits(_, _) => {
            expected_at(place, outer).literals
        }
        Scanner::Marked(mark) => {
            takes_mark(place, outer, *mark) || takes_longer(place, outer, *mark)
        }
        Scanner::Whole(token) => takes_token(place, outer, token),
    }
}
