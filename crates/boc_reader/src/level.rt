// The operators of a program text, by how tightly they bind.

/// An operator of the loosest level, of which an expression has one at most.
#[derive(Clone, Copy, PartialEq, Eq, Debug)]
pub enum Comparison {
    Equal,
    NotEqual,
    Less,
    AtMost,
    Greater,
    AtLeast,
}

/// An operator between the terms of a sum.
#[derive(Clone, Copy, PartialEq, Eq, Debug)]
pub enum SumOperator {
    Add,
    Subtract,
}

/// An operator between the factors of a term.
#[derive(Clone, Copy, PartialEq, Eq, Debug)]
pub enum TermOperator {
    Multiply,
    Divide,
    Remainder,
}
