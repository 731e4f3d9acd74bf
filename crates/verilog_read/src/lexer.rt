//! The lexer: what a byte does where it stands.
ghost use Rattle.std.specs.Prelude.{◌≡◌, ◌+◌, ◌*◌, ◌∷◌, [], ◌++◌, true, Some, None, ◌≤◌, ◌<◌, ◌↔◌, length, IsOk, IfOk, IfErr};
ghost use Rattle.verilog_tree.specs.Tokens.{is_space, mark_of, lengthened, spoils};
ghost use Rattle.bist_text.specs.Identifiers.{is_digit};
ghost use Rattle.verilog_tree.specs.Words.{digit_value, radix, is_digit_of};
ghost use Rattle.verilog_text.specs.Lexing.{begin, lex, last, InGap, InWord, InNumber, InDigits, Marked};
ghost use Rattle.verilog_read.specs.inner.Lexemes.{lexer_of, tokens_of, behind, ends_of, Scans};

use crate::lexemes::{Lexeme, SmallNumber};
use bist_bits::Bits;
use bist_text::{begins_identifier, in_identifier};
use verilog_tree::{Base, Mark, Name, Within};

/// Where the lexer stands. Behind the `'` of a literal a vector has the literal's size, and the value of the
/// digits so far.
#[derive(Clone, Copy)]
pub enum Scanner {
    InGap(Within),
    InWord(Name),
    InNumber(bool, SmallNumber),
    Quoted(Bits),
    Lettered(Bits, Base),
    InDigits(Base, Bits),
    Marked(Mark),
    Whole(Lexeme),
}

/// Where a byte leads, and the token that it ends.
#[derive(Clone, Copy)]
pub struct LexStep {
    pub lexer: Scanner,
    pub token: Option<Lexeme>,
}

/// Why a byte is refused: no token goes on so, an identifier becomes too long, a number too large, or a literal has a
/// size or a value out of range.
#[derive(Clone, Copy)]
pub enum LexFault {
    Unexpected,
    LongName,
    LargeNumber,
    WrongLiteral,
}

fn is_space(c: u8) -> bool
    ensures { result ≡ is_space c }
{
    c == b' ' || c == b'\t' || c == b'\n' || c == 12 || c == b'\r'
}

fn is_digit(c: u8) -> bool
    ensures { result ≡ is_digit c }
{
    b'0' <= c && c <= b'9'
}

fn is_digit_of(base: Base, c: u8) -> bool
    ensures { result ≡ is_digit_of base c }
{
    match base {
        Base::Binary => b'0' <= c && c <= b'1',
        Base::Octal => b'0' <= c && c <= b'7',
        Base::Decimal => is_digit(c),
        Base::Hexadecimal => { is_digit(c) || (b'a' <= c && c <= b'f') || (b'A' <= c && c <= b'F') }
    }
}

fn digit_value(base: Base, c: u8) -> u8
    requires { is_digit_of base c ≡ true }
    ensures { result ≡ digit_value c }
{
    if c <= b'9' {
        c - b'0'
    } else if c <= b'F' {
        c - (b'A' - 10)
    } else {
        c - (b'a' - 10)
    }
}

fn radix(base: Base) -> u8
    ensures { result ≡ radix base }
{
    match base {
        Base::Binary => 2,
        Base::Octal => 8,
        Base::Decimal => 10,
        Base::Hexadecimal => 16,
    }
}

fn mark_of(c: u8) -> Option<Mark>
    ensures { result ≡ mark_of c }
{
    Some(match c {
        b'(' => Mark::Open,
        b')' => Mark::Close,
        b'[' => Mark::OpenBracket,
        b']' => Mark::CloseBracket,
        b'{' => Mark::OpenBrace,
        b'}' => Mark::CloseBrace,
        b',' => Mark::Comma,
        b';' => Mark::Semicolon,
        b':' => Mark::Colon,
        b'@' => Mark::At,
        b'?' => Mark::Question,
        b'=' => Mark::Equals,
        b'+' => Mark::Plus,
        b'-' => Mark::Minus,
        b'&' => Mark::Ampersand,
        b'|' => Mark::Bar,
        b'^' => Mark::Caret,
        b'~' => Mark::Tilde,
        b'!' => Mark::Bang,
        b'<' => Mark::Less,
        b'>' => Mark::Greater,
        b'.' => Mark::FullStop,
        _ => return None,
    })
}

fn lengthened(mark: Mark, c: u8) -> Option<Mark>
    ensures { result ≡ lengthened mark c }
{
    match (mark, c) {
        (Mark::Equals, b'=') => Some(Mark::TwoEquals),
        (Mark::Bang, b'=') => Some(Mark::BangEquals),
        (Mark::Less, b'=') => Some(Mark::LessEquals),
        (Mark::Less, b'<') => Some(Mark::TwoLess),
        (Mark::Greater, b'=') => Some(Mark::GreaterEquals),
        (Mark::Greater, b'>') => Some(Mark::TwoGreater),
        (Mark::Ampersand, b'&') => Some(Mark::TwoAmpersands),
        (Mark::Bar, b'|') => Some(Mark::TwoBars),
        _ => None,
    }
}

/// Whether a byte makes of a mark a token that no rule uses: ~& ~| ~^ ^~ &&&
fn spoils(mark: Mark, c: u8) -> bool
    ensures { result ≡ spoils mark c }
{
    match mark {
        Mark::Tilde => c == b'&' || c == b'|' || c == b'^',
        Mark::Caret => c == b'~',
        Mark::TwoAmpersands => c == b'&',
        _ => false,
    }
}

fn longer(name: Name, c: u8) -> Result<Name, LexFault>
    requires { c < 128 }
    ensures value { IfOk result (λ n. n.bytes ≡ name.bytes ++ c ∷ []) }
    ensures fault { IfErr result (λ f. f ≡ LexFault.LongName) }
    ensures variant { IsOk result ↔ (length name.bytes + 1 ≤ 64) }
{
    let mut name = name;
    match name.try_push(char::from(c)) {
        Ok(()) => Ok(name),
        Err(_) => Err(LexFault::LongName),
    }
}

/// What a byte begins, behind a token or in white space.
#[tactic(auto, using(crate::proofs::LexerLimits::begins_behind, crate::proofs::LexerLimits::none_behind))]
fn begin_token(token: Option<Lexeme>, c: u8) -> Result<LexStep, LexFault>
    ensures { Scans 63 64 (behind (tokens_of token) (begin c)) result }
{
    let lexer = if is_space(c) {
        Scanner::InGap(Within::Between)
    } else if c == b'/' {
        Scanner::InGap(Within::Slash)
    } else if begins_identifier(c) {
        Scanner::InWord(longer(Name::new(), c)?)
    } else if is_digit(c) {
        Scanner::InNumber(false, SmallNumber { value: c - b'0' })
    } else {
        match mark_of(c) {
            Some(mark) => Scanner::Marked(mark),
            None => return Err(LexFault::Unexpected),
        }
    };
    Ok(LexStep { lexer, token })
}

fn silent(lexer: Scanner) -> LexStep
    ensures lexer { result.lexer ≡ lexer }
    ensures token { result.token ≡ None }
{
    LexStep { lexer, token: None }
}

/// What a byte does in white space.
fn lex_gap(within: Within, c: u8) -> Result<LexStep, LexFault>
    ensures { Scans 63 64 (lex (InGap within) c) result }
{
    let next = match (within, c) {
        (Within::Between, _) => return begin_token(None, c),
        (Within::Line, b'\n') | (Within::Star, b'/') => Within::Between,
        (Within::Slash, b'/') | (Within::Line, _) => Within::Line,
        (Within::Slash, b'*') => Within::Block,
        (Within::Slash, _) => return Err(LexFault::Unexpected),
        (Within::Block | Within::Star, b'*') => Within::Star,
        (Within::Block | Within::Star, _) => Within::Block,
    };
    Ok(silent(Scanner::InGap(next)))
}

fn lex_word(name: Name, c: u8) -> Result<LexStep, LexFault>
    ensures { Scans 63 64 (lex (InWord name.bytes) c) result }
{
    if in_identifier(c) {
        let longer = longer(name, c)?;
        Ok(silent(Scanner::InWord(longer)))
    } else {
        begin_token(Some(Lexeme::Word(name)), c)
    }
}

/// Behind the digits of a number, which may be at most `most`.
#[tactic(auto, using(crate::proofs::LexerLimits::size_vector))]
fn lex_number(long: bool, n: SmallNumber, c: u8, most: u8) -> Result<LexStep, LexFault>
    requires low { 63 ≤ most }
    requires high { most ≤ 64 }
    ensures { Scans most most (lex (InNumber long n.value) c) result }
{
    if is_digit(c) {
        if n.value > 6 || n.value * 10 + (c - b'0') > most {
            return Err(LexFault::LargeNumber);
        }
        let value = n.value * 10 + (c - b'0');
        Ok(silent(Scanner::InNumber(true, SmallNumber { value })))
    } else if c == b'\'' {
        match Bits::try_new(n.value, 0) {
            Some(size) => Ok(silent(Scanner::Quoted(size))),
            None => Err(LexFault::WrongLiteral),
        }
    } else {
        begin_token(Some(Lexeme::Number(long, n)), c)
    }
}

/// The digits so far, and a further one.
fn pushed(base: Base, size: u8, value: u64, c: u8) -> Result<LexStep, LexFault>
    requires { is_digit_of base c ≡ true }
    ensures { Scans 63 64 (Some (InDigits size base (value * radix base + digit_value c), None)) result }
{
    let Some(shifted) = value.checked_mul(u64::from(radix(base))) else {
        return Err(LexFault::WrongLiteral);
    };
    let Some(value) = shifted.checked_add(u64::from(digit_value(base, c))) else {
        return Err(LexFault::WrongLiteral);
    };
    match Bits::try_new(size, value) {
        Some(bits) => Ok(silent(Scanner::InDigits(base, bits))),
        None => Err(LexFault::WrongLiteral),
    }
}

fn lex_digits(base: Base, bits: Bits, c: u8) -> Result<LexStep, LexFault>
    ensures { Scans 63 64 (lex (InDigits bits.width base bits.value) c) result }
{
    if is_digit_of(base, c) {
        pushed(base, bits.width(), bits.value(), c)
    } else if c == b'_' {
        Ok(silent(Scanner::InDigits(base, bits)))
    } else if c == b'?' && !matches!(base, Base::Decimal) {
        Ok(silent(Scanner::Whole(Lexeme::Unused)))
    } else {
        begin_token(Some(Lexeme::Constant(bits)), c)
    }
}

fn lex_mark(mark: Mark, c: u8) -> Result<LexStep, LexFault>
    ensures { Scans 63 64 (lex (Marked mark) c) result }
{
    match lengthened(mark, c) {
        Some(longer) => Ok(silent(Scanner::Marked(longer))),
        None if spoils(mark, c) => Ok(silent(Scanner::Whole(Lexeme::Unused))),
        None => begin_token(Some(Lexeme::Sign(mark)), c),
    }
}

/// What the lexer does at a byte, where a number that goes on may be at most `most`.
#[tactic(auto, using(crate::proofs::LexerLimits::any_numbers))]
pub(crate) fn lex(lexer: Scanner, c: u8, most: u8) -> Result<LexStep, LexFault>
    requires low { 63 ≤ most }
    requires high { most ≤ 64 }
    ensures { Scans most most (lex (lexer_of lexer) c) result }
{
    match lexer {
        Scanner::InGap(within) => lex_gap(within, c),
        Scanner::InWord(name) => lex_word(name, c),
        Scanner::InNumber(long, n) => lex_number(long, n, c, most),
        Scanner::Quoted(size) => {
            let base = match c {
                b'b' | b'B' => Base::Binary,
                b'o' | b'O' => Base::Octal,
                b'd' | b'D' => Base::Decimal,
                b'h' | b'H' => Base::Hexadecimal,
                _ => return Err(LexFault::Unexpected),
            };
            Ok(silent(Scanner::Lettered(size, base)))
        }
        Scanner::Lettered(size, base) => {
            if is_digit_of(base, c) {
                pushed(base, size.width(), 0, c)
            } else {
                Err(LexFault::Unexpected)
            }
        }
        Scanner::InDigits(base, bits) => lex_digits(base, bits, c),
        Scanner::Marked(mark) => lex_mark(mark, c),
        Scanner::Whole(token) => begin_token(Some(token), c),
    }
}

/// The token that a text's end ends, if the text may end.
pub(crate) fn last(lexer: Scanner) -> Option<Option<Lexeme>>
    ensures { ends_of result ≡ last (lexer_of lexer) }
{
    match &lexer {
        Scanner::InGap(Within::Between | Within::Line) => Some(None),
        Scanner::InGap(_) | Scanner::Quoted(_) | Scanner::Lettered(_, _) => None,
        Scanner::InWord(name) => Some(Some(Lexeme::Word(*name))),
        Scanner::InNumber(long, n) => Some(Some(Lexeme::Number(*long, *n))),
        Scanner::InDigits(_, bits) => Some(Some(Lexeme::Constant(*bits))),
        Scanner::Marked(mark) => Some(Some(Lexeme::Sign(*mark))),
        Scanner::Whole(token) => Some(Some(*token)),
    }
}
