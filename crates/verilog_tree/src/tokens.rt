//! Parts of the tokens of a text.

/// An operator or a sign, named by its look.
#[derive(Clone, Copy, PartialEq, Eq)]
pub enum Mark {
    Open,
    Close,
    OpenBracket,
    CloseBracket,
    OpenBrace,
    CloseBrace,
    Comma,
    Semicolon,
    Colon,
    At,
    Question,
    Equals,
    LessEquals,
    Plus,
    Minus,
    Ampersand,
    Bar,
    Caret,
    Tilde,
    Bang,
    TwoEquals,
    BangEquals,
    Less,
    Greater,
    GreaterEquals,
    TwoAmpersands,
    TwoBars,
    TwoLess,
    TwoGreater,
    FullStop,
}

/// Where in white space a byte stands.
#[derive(Clone, Copy)]
pub enum Within {
    /// Outside of comments.
    Between,
    /// Behind a `/`, which must begin a comment.
    Slash,
    /// In a comment that ends with its line.
    Line,
    /// In a comment that ends with `*/`.
    Block,
    /// Behind a `*` in such a comment.
    Star,
}

/// The base of a literal.
#[derive(Clone, Copy)]
pub enum Base {
    Binary,
    Octal,
    Decimal,
    Hexadecimal,
}
