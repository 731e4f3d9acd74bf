//! The reader of a module's text.
ghost use Rattle.std.specs.Prelude.{true, ◌≡◌, ◌↔◌, ◌≤◌, Some, None, Err, IfOk, IfErr, MatchResult};
ghost use Rattle.verilog_tree.specs.Formed.{formed};
ghost use Rattle.verilog_tree.specs.Plain.{ModuleTree, plain_module};
ghost use Rattle.verilog_tree.specs.Spells.{Spells, FreelySpells};
ghost use Rattle.verilog_tree.specs.Grammar.{ByPrecedence};
ghost use Rattle.verilog_text.specs.Answering.{Stops, take_token, arrive, while_live, byte_move, fault_at, value_answer, end_answer, answer, run};
ghost use Rattle.verilog_text.specs.inner.Answering.{read_within};
ghost use Rattle.verilog_read.specs.inner.Told.{Takes, Moves, Scanned, Gives, both_of};
ghost use Rattle.verilog_text.specs.Expected.{most_of};
ghost use Rattle.verilog_text.specs.Refusals.{Says, SaysIn, IsFirst, IsFirstIn};
ghost use Rattle.verilog_read.specs.inner.Holding.{token_of};
ghost use Rattle.verilog_read.specs.declared.lexer.Scanner.TheVariants.{InGap};
ghost use Rattle.verilog_tree.specs.declared.tokens.Within.TheVariants.{Between};
ghost use Rattle.verilog_read.specs.Style.{styled};
ghost use Rattle.verilog_read.specs.inner.Lexemes.{tokens_of, lexer_of};
ghost use Rattle.verilog_text.specs.Lexing.{last};
ghost use Rattle.verilog_read.specs.inner.Spots.{state_of};
ghost use Rattle.verilog_text.specs.Steps.{value};

use crate::fault::ParseFault;
use crate::items::step;
use crate::lexemes::Lexeme;
use crate::lexer::{LexFault, LexStep, Scanner, last, lex};
use crate::places::{ItemSpot, Outer, Place, Style, blank_module};
use crate::takes::{is_live, takes_digits, takes_number, takes_token};
use crate::words::expected_at;
use std::alloc::Global;
use std::mem;
use verilog_text::ByteFault;
use verilog_tree::{Module, ReadFault, Within};

/// Where a byte leads the lexer, and whether a token may begin with it.
#[derive(Clone, Copy)]
pub(crate) struct Next {
    pub lexer: Scanner,
    pub fresh: bool,
}

/// The highest place of a bit, and the largest size of a literal.
const MOST_PLACE: u8 = 63;

const MOST_SIZE: u8 = 64;

/// How large a number may be that goes on: a place in brackets, and else the size of a literal.
fn most_at(place: &Place, outer: &Outer) -> u8
    ensures value { result ≡ most_of (state_of place.now outer.now) }
    ensures low { 63 ≤ result }
    ensures high { result ≤ 64 }
{
    if takes_number(place, outer, false, 0) {
        MOST_PLACE
    } else {
        MOST_SIZE
    }
}

/// What the lexer does at a byte.
fn scan(place: &Place, outer: &Outer, lexer: Scanner, c: u8) -> Result<LexStep, LexFault>
    ensures { Scanned (both_of place.now outer.now lexer) (byte_move (both_of place.now outer.now lexer) c) result }
{
    let most = most_at(place, outer);
    lex(lexer, c, most)
}

/// A token that ends goes to the parser.
fn take_token(
    alloc: Global,
    outer: &mut Outer,
    place: &mut Place,
    token: &Lexeme,
) -> Result<(), ByteFault>
    ensures { Takes (take_token (state_of place.old outer.old) (token_of token.now)) result place.new outer.new }
{
    let taken = takes_token(place, outer, token);
    let held = mem::replace(place, Place::InItem(ItemSpot::Begin));
    match step(alloc, outer, held, token) {
        Ok(next) => {
            drop(mem::replace(place, next));
            Ok(())
        }
        Err(ParseFault::NoMemory) => Err(ByteFault::NoMemory),
        Err(ParseFault::Unexpected) if taken => Err(ByteFault::TooDeep),
        Err(ParseFault::Unexpected) => Err(ByteFault::Unexpected),
    }
}

/// Where a byte leads, if what is begun can go on.
fn arrive(outer: &Outer, place: &Place, lexer: Scanner, fresh: bool) -> Result<Next, ByteFault>
    ensures { Moves (arrive (state_of place.now outer.now) (lexer_of lexer) fresh) result place.now outer.now }
{
    if is_live(place, outer, &lexer) {
        Ok(Next { lexer, fresh })
    } else {
        Err(ByteFault::Unexpected)
    }
}

/// A byte that the lexer takes.
fn read_on(
    alloc: Global,
    outer: &mut Outer,
    place: &mut Place,
    lexer: &Scanner,
    read: LexStep,
) -> Result<Next, ByteFault>
    ensures { Moves (read_within (both_of place.old outer.old lexer.now) (lexer_of read.lexer)
        (tokens_of read.token)) result place.new outer.new }
{
    match &read.token {
        Some(token) => {
            take_token(alloc, outer, place, token)?;
            arrive(outer, place, read.lexer, true)
        }
        None => {
            let fresh = matches!(lexer, Scanner::InGap(Within::Between));
            arrive(outer, place, read.lexer, fresh)
        }
    }
}

/// A limit counts only where what exceeds it may come.
fn beyond(expected: bool, fault: ByteFault) -> ByteFault
    ensures { while_live expected (Stops fault) ≡ Stops result }
{
    if expected {
        fault
    } else {
        ByteFault::Unexpected
    }
}

/// What a byte does.
fn step_byte(
    alloc: Global,
    outer: &mut Outer,
    place: &mut Place,
    lexer: Scanner,
    c: u8,
) -> Result<Next, ByteFault>
    ensures { Moves (byte_move (both_of place.old outer.old lexer) c) result place.new outer.new }
{
    match scan(place, outer, lexer, c) {
        Ok(read) => read_on(alloc, outer, place, &lexer, read),
        // The byte is unexpected, unless the token that it ends is an opening too many.
        Err(LexFault::Unexpected) => {
            if let Some(Some(token)) = last(lexer) {
                take_token(alloc, outer, place, &token)?;
            }
            Err(ByteFault::Unexpected)
        }
        Err(LexFault::LongName) => Err(beyond(
            expected_at(place, outer).names,
            ByteFault::LongName,
        )),
        Err(LexFault::LargeNumber) => {
            Err(beyond(takes_digits(place, outer, true, 0), ByteFault::OutOfRange))
        }
        Err(LexFault::WrongLiteral) => Err(beyond(
            expected_at(place, outer).literals,
            ByteFault::OutOfRange,
        )),
    }
}

/// The module, where a text may end. It is taken out.
fn into_module(alloc: Global, outer: &mut Outer, place: &Place) -> Result<Module, ReadFault>
    ensures { Gives (value_answer (value (state_of place.now outer.old))) result }
{
    match place {
        Place::InItem(ItemSpot::Ended) => { Ok(mem::replace(&mut outer.tree, blank_module(alloc))) }
        _ => Err(ReadFault::Truncated),
    }
}

/// The text ends, where the token that is read began at byte `start`.
fn finish(
    alloc: Global,
    outer: &mut Outer,
    place: &mut Place,
    lexer: Scanner,
    start: usize,
) -> Result<Module, ReadFault>
    ensures { Gives (end_answer (state_of place.old outer.old) (last (lexer_of lexer)) start) result }
{
    let Some(end) = last(lexer) else {
        return Err(ReadFault::Truncated);
    };
    let Some(token) = end else {
        return into_module(alloc, outer, place);
    };
    match take_token(alloc, outer, place, &token) {
        Ok(()) => into_module(alloc, outer, place),
        Err(ByteFault::TooDeep) => Err(ReadFault::TooDeep { byte: start }),
        Err(ByteFault::NoMemory) => Err(ReadFault::NoMemory),
        Err(_) => Err(ReadFault::Truncated),
    }
}

/// The fault of byte `byte`, where the token that is read began at byte `start`.
fn fault_at(fault: ByteFault, start: usize, byte: usize) -> ReadFault
    ensures { result ≡ fault_at fault start byte }
{
    match fault {
        ByteFault::Unexpected => ReadFault::Unexpected { byte },
        ByteFault::TooDeep => ReadFault::TooDeep { byte: start },
        ByteFault::LongName => ReadFault::LongName { byte },
        ByteFault::OutOfRange => ReadFault::OutOfRange { byte },
        ByteFault::NoMemory => ReadFault::NoMemory,
    }
}

/// Reads the bytes one after another, until one is refused or the text ends.
fn scan_all(
    alloc: Global,
    outer: &mut Outer,
    place: &mut Place,
    bytes: &[u8],
) -> Result<Module, ReadFault>
    ensures { Gives (run bytes.now (both_of place.old outer.old (InGap Between)) 0 0) result }
{
    let mut lexer = Scanner::InGap(Within::Between);
    let mut start = 0;
    for (i, c) in bytes.iter().enumerate() {
        let next = match step_byte(alloc, outer, place, lexer, *c) {
            Ok(next) => next,
            Err(fault) => return Err(fault_at(fault, start, i)),
        };
        lexer = next.lexer;
        if next.fresh {
            start = i;
        }
    }
    finish(alloc, outer, place, lexer, start)
}

/// Reads a text from its first byte to its end.
fn scan_text(alloc: Global, style: Style, bytes: &[u8]) -> Result<Module, ReadFault>
    ensures { Gives (answer (styled style) bytes.now) result }
{
    let mut outer = Outer::new(alloc, style);
    let mut place = Place::InItem(ItemSpot::Begin);
    let read = scan_all(alloc, &mut outer, &mut place, bytes);
    drop(place);
    drop(outer);
    read
}

/// Reads the text of a module. The first byte at which one of L1, L3, L4 and L5 stands decides.
///
/// The time is linear in the text, and nothing recurses deeper than openings may be open at once, 64.
pub fn read_module(alloc: Global, bytes: &[u8]) -> Result<Module, ReadFault>
    // A text is read as the module that it spells, within all limits, unless memory runs out.
    ensures ok { IfOk result (λ m. Spells bytes.now (plain_module m)) }
    ensures accepted { (mo : ModuleTree) → Spells bytes.now mo
        → MatchResult result (λ m. plain_module m ≡ mo) (λ fault. fault ≡ ReadFault.NoMemory) }

    // Every module that is read has the sizes of one.
    ensures formed { IfOk result (λ m. formed (plain_module m) ≡ true) }

    // What each fault says of the text, at the byte that it names.
    ensures says { IfErr result (Says bytes.now) }

    // Unless memory runs out, a fault is answered exactly where it is the first that stands in the text.
    ensures fault { (result ≡ Err ReadFault.NoMemory → ⊥) → (f : ReadFault) → (result ≡ Err f) ↔ IsFirst bytes.now f }

    // No bytes spell two modules.
    ensures one_module { (mo : ModuleTree) (other : ModuleTree) → Spells bytes.now mo → Spells bytes.now other → mo ≡ other }
{
    scan_text(alloc, Style::Parenthesised, bytes)
}

/// Reads the text of a module whose operators bind by precedence. The first byte at which one of L1, L3, L4 and L5
/// stands decides; L3 is also the first byte of the 257th operator of an expression that stands in no other.
///
/// The time is linear in the text, and the reader recurses no deeper than openings may be open at once, 64. Its tree
/// may be deeper, 64 braces and 256 operators, and what walks it or drops it goes as deep.
pub fn read_free(alloc: Global, bytes: &[u8]) -> Result<Module, ReadFault>
    // A text is read as the module that it spells, within all limits, unless memory runs out.
    ensures ok { IfOk result (λ m. FreelySpells bytes.now (plain_module m)) }
    ensures accepted { (mo : ModuleTree) → FreelySpells bytes.now mo
        → MatchResult result (λ m. plain_module m ≡ mo) (λ fault. fault ≡ ReadFault.NoMemory) }

    // Every module that is read has the sizes of one.
    ensures formed { IfOk result (λ m. formed (plain_module m) ≡ true) }

    // What each fault says of the text, at the byte that it names.
    ensures says { IfErr result (SaysIn ByPrecedence bytes.now) }

    // Unless memory runs out, a fault is answered exactly where it is the first that stands in the text.
    ensures fault { (result ≡ Err ReadFault.NoMemory → ⊥) → (f : ReadFault) → (result ≡ Err f) ↔ IsFirstIn ByPrecedence bytes.now f }

    // No bytes spell two modules.
    ensures one_module { (mo : ModuleTree) (other : ModuleTree) → FreelySpells bytes.now mo → FreelySpells bytes.now other → mo ≡ other }
{
    scan_text(alloc, Style::ByPrecedence, bytes)
}
