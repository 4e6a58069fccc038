// The syntax tree of a text, with its names and its parentheses.

use crate::level::{Comparison, SumOperator, TermOperator};
use crate::natural::Natural;

/// A name, and the place of its first byte.
#[derive(Clone, Copy, Debug)]
pub struct Spot<'a> {
    pub name: &'a str,
    pub at: usize,
}

/// An expression, with one comparison at most.
#[cycle(shape)]
#[derive(Drop)]
pub enum Expr<'a> {
    Plain(Box<Sum<'a>>),
    Compared(Box<Sum<'a>>, Comparison, Box<Sum<'a>>),
}

/// Terms with operators between them, the first term first.
#[cycle(shape)]
#[derive(Drop)]
pub enum Sum<'a> {
    One(Box<Term<'a>>),
    More(Box<Term<'a>>, SumOperator, Box<Sum<'a>>),
}

/// Factors with operators between them, the first factor first.
#[cycle(shape)]
#[derive(Drop)]
pub enum Term<'a> {
    One(Unary<'a>),
    More(Unary<'a>, TermOperator, Box<Term<'a>>),
}

/// A factor, after any number of minuses.
#[cycle(shape)]
#[derive(Drop)]
pub enum Unary<'a> {
    Negated(Box<Unary<'a>>),
    Plain(Atom<'a>),
}

#[cycle(shape)]
#[derive(Drop)]
pub enum Atom<'a> {
    Number(Natural),
    Name(Spot<'a>),
    Parens(Box<Expr<'a>>),
}

/// Which cown a `when` names.
#[derive(Drop)]
pub enum NamedCown<'a> {
    Alone(Spot<'a>),
    Member(Spot<'a>, Expr<'a>),
}

/// A statement. A block is a list of them.
#[derive(Drop)]
pub enum Stmt<'a> {
    Let(Spot<'a>, Expr<'a>),
    Assign(Spot<'a>, Expr<'a>),
    Work(Expr<'a>),
    If(Expr<'a>, Vec<Stmt<'a>>),
    IfElse(Expr<'a>, Vec<Stmt<'a>>, Vec<Stmt<'a>>),
    Repeat(Expr<'a>, Vec<Stmt<'a>>),
    When(Spot<'a>, Vec<Expr<'a>>, Vec<NamedCown<'a>>),
}

/// The declaration of a cown, or of an array of `size` cowns.
#[derive(Drop)]
pub struct CownShape<'a> {
    pub name: Spot<'a>,
    pub size: Option<u64>,
    pub negative: bool,
    pub value: Natural,
}

/// A def, with its value parameters and its cown parameters. From its name on there are `left` tokens.
#[derive(Drop)]
pub struct DefShape<'a> {
    pub name: Spot<'a>,
    pub left: usize,
    pub params: Vec<Spot<'a>>,
    pub cowns: Vec<Spot<'a>>,
    pub block: Vec<Stmt<'a>>,
}

/// The whole of a text.
#[derive(Drop)]
pub struct Tree<'a> {
    pub cowns: Vec<CownShape<'a>>,
    pub defs: Vec<DefShape<'a>>,
    pub main: Vec<Stmt<'a>>,
}
