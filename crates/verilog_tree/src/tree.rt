//! The tree of a module in the subset of IEEE 1364-2005 that this product writes and reads.

use arrayvec::ArrayString;
use bist_bits::Bits;

/// An identifier: at most 64 bytes.
pub type Name = ArrayString<64>;

/// The direction of a port. `OutputReg` is an output that is a register.
#[derive(Clone, Copy)]
pub enum Dir {
    Input,
    Output,
    OutputReg,
}

/// A port of `width` bits.
#[derive(Clone, Copy)]
pub struct Port {
    pub dir: Dir,
    pub name: Name,
    pub width: u8,
}

/// A declared name of `width` bits.
#[derive(Clone, Copy)]
pub struct Decl {
    pub name: Name,
    pub width: u8,
}

/// The operators of one operand: `!`, `~`, and the reductions `&`, `|` and `^`.
#[derive(Clone, Copy)]
pub enum UnOp {
    Not,
    Invert,
    AllOnes,
    AnyOne,
    Parity,
}

/// The operators of two operands.
#[derive(Clone, Copy)]
pub enum BinOp {
    Add,
    Sub,
    And,
    Or,
    Xor,
    Eq,
    Ne,
    Lt,
    Le,
    Gt,
    Ge,
    LogAnd,
    LogOr,
    Shl,
    Shr,
}

/// An expression.
#[derive(Drop)]
pub enum Expr {
    /// A whole net, register or input.
    Name(Name),
    /// One bit, `x[i]`.
    Bit(Name, u8),
    /// The bits from a high place to a low one, `x[h:l]`.
    Part(Name, u8, u8),
    /// A sized constant.
    Lit(Bits),
    /// `{a, b}`: the first is the highest.
    Concat(Vec<Expr>),
    Unary(UnOp, Box<Expr>),
    Binary(BinOp, Box<Expr>, Box<Expr>),
    /// `c ? a : b`.
    Choose(Box<Expr>, Box<Expr>, Box<Expr>),
}

/// A statement of an `always` block.
#[derive(Drop)]
#[cycle(stmt)]
pub enum Stmt {
    /// `name <= value;`.
    Set(Name, Expr),
    /// The condition, what is done where it isn't 0, and what is done else.
    If(Expr, Vec<Stmt>, Vec<Stmt>),
    /// The subject, the arms in order, and the default.
    Case(Expr, Vec<Arm>, Vec<Stmt>),
}

/// An arm of a `case`: taken where a label equals the subject.
#[derive(Drop)]
#[cycle(stmt)]
pub struct Arm {
    pub labels: Vec<Bits>,
    pub body: Vec<Stmt>,
}

/// An item of a module.
#[derive(Drop)]
pub enum BodyItem {
    Wire(Decl),
    Reg(Decl),
    /// A continuous assignment.
    Assign(Name, Expr),
    /// The clock, and what is done at its rising edge.
    Always(Name, Vec<Stmt>),
}

/// A module.
#[derive(Drop)]
pub struct Module {
    pub name: Name,
    pub ports: Vec<Port>,
    pub items: Vec<BodyItem>,
}
