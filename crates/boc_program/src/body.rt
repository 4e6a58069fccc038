// Bodies, statements and expressions, with every name resolved.

ghost use Rattle.std.specs.Prelude.{◌≡◌, ◌+◌, ◌≤◌, IsTrue};
ghost use Rattle.boc_program.specs.Resolved.{nodes, fits};
ghost use Rattle.boc_program.specs.declared.limits.TheConstants.{MOST_ARGUMENTS, MOST_HELD, MOST_NODES, MOST_SLOTS};

use crate::script::Script;
use crate::short::CownNo;
use std::marker::Model;

/// How a behaviour ends. The numbers 0 to 6 stand for these statuses in this order.
#[derive(Clone, Copy, PartialEq, Eq, Debug)]
pub enum EndStatus {
    /// The end of the body was reached.
    Done,
    /// A result would need more than 64 bits.
    Overflow,
    /// A division or a remainder by 0.
    ZeroDivisor,
    /// An index below 0, or not below the size of its array.
    OutOfRange,
    /// A `when` that names the same cown twice.
    SameCown,
    /// A `work` or a `repeat` of a negative number.
    Negative,
    /// A charge that would pass 1,000,000 ticks.
    TickCap,
}

/// An operator on two numbers. A comparison gives 1 or 0.
#[derive(Clone, Copy, PartialEq, Eq, Debug)]
pub enum Operator {
    Add,
    Subtract,
    Multiply,
    Divide,
    Remainder,
    Equal,
    NotEqual,
    Less,
    AtMost,
    Greater,
    AtLeast,
}

/// An expression over a body's slots: its value parameters, its cown parameters and its locals.
#[derive(Drop, Debug)]
pub enum Expr {
    Number(i64),
    Slot(usize),
    Negate(Box<Expr>),
    Binary(Operator, Box<Expr>, Box<Expr>),
}

/// Which cown a `when` names.
#[derive(Drop, Debug)]
pub enum CownRef {
    /// The cown of this parameter of the body.
    Held(usize),
    /// A single cown.
    Single(CownNo),
    /// A member of the array of `size` cowns from `first` on.
    Member {
        first: CownNo,
        size: u32,
        index: Expr,
    },
}

/// A statement.
#[cycle(block)]
#[derive(Drop, Debug)]
pub enum Stmt {
    /// `let` or an assignment.
    Assign(usize, Expr),
    /// The given number of ticks.
    Work(Expr),
    /// The first block where the number isn't 0, else the second, which is empty where the text has none.
    If(Expr, Block, Block),
    /// The given number of turns of the block.
    Repeat(Expr, Block),
    /// A behaviour of this kind, with these arguments over these cowns. Main's kind is 0, and those of
    /// the defs are their places in the text, from 1.
    When(usize, Vec<Expr>, Vec<CownRef>),
}

/// Statements, one after another.
#[cycle(block)]
#[derive(Drop, Debug)]
pub struct Block {
    stmts: Vec<Stmt>,
}

impl Model for Block {
    ghost use Rattle.boc_program.specs.Syntax.{Code, code_size};
    ghost use Rattle.boc_program.specs.memory.Stored.{coded_Code};

    ghost Value = { Code };

    ghost coded = { coded_Code };

    ghost use Rattle.boc_program.specs.memory.View.{code_of};

    ghost view = { λ a. code_of a.stmts.items };

    ghost size = { code_size };

    ghost use Rattle.boc_program.specs.memory.Falls.{size_falls};

    ghost size_decreases = { λ a h. size_falls a.stmts.items };
}

impl Block {
    ghost use Rattle.boc_program.specs.memory.View.{code_of};

    /// Returns a block of these statements.
    pub fn new(stmts: Vec<Stmt>) -> Block
        ensures { result ≡ code_of stmts.items }
    {
        Block { stmts }
    }

    /// Returns the statements.
    pub fn as_slice(&self) -> &[Stmt]
        ensures { code_of result.now ≡ self.now }
    {
        &self.stmts
    }
}

/// A body, with every name resolved.
///
/// Its slots are its value parameters, its cown parameters and its locals, in this order. It has at
/// most eight parameters of each kind and 1,000 nodes, and each slot and cown parameter that its
/// block names is there.
#[derive(Drop, Debug)]
pub struct Body {
    pub params: usize,
    pub cown_params: usize,
    pub slots: usize,
    pub block: Script,
    pub ghost few_params: { params ≤ MOST_ARGUMENTS },
    pub ghost few_cowns: { cown_params ≤ MOST_HELD },
    pub ghost few_slots: { slots ≤ MOST_SLOTS },
    pub ghost parameters_are_slots: { params + cown_params ≤ slots },
    pub ghost few_nodes: { nodes block ≤ MOST_NODES },
    pub ghost resolved: { IsTrue (fits (record { slots = slots; cowns = cown_params }) block) },
}
