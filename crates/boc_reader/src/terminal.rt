// The tokens of program texts that have a meaning of their own.

/// A keyword.
#[derive(Clone, Copy, PartialEq, Eq, Debug)]
pub enum Keyword {
    Cown,
    Def,
    Main,
    Let,
    Work,
    If,
    Else,
    Repeat,
    When,
}

/// A sign: `= == != < <= > >= + - * / % ( ) { } [ ] ; ,`, in this order.
#[derive(Clone, Copy, PartialEq, Eq, Debug)]
pub enum Sign {
    Assign,
    Equal,
    NotEqual,
    Less,
    AtMost,
    Greater,
    AtLeast,
    Plus,
    Minus,
    Star,
    Slash,
    Percent,
    Open,
    Close,
    OpenBlock,
    CloseBlock,
    OpenIndex,
    CloseIndex,
    Semicolon,
    Comma,
}
