// What is wanted next of a text, and what is wanted instead after a token.

ghost use Rattle.std.specs.Prelude.{◌≡◌};
ghost use Rattle.std.specs.Option.{option_map};
ghost use Rattle.boc_reader.specs.Placed.{token_of};
ghost use Rattle.boc_reader.specs.Wanted.{behind, behind_name, behind_number, behind_keyword, in_declaration, in_def, in_statement, behind_sign, behind_assign};
ghost use Rattle.boc_reader.specs.Wanted.{behind_operator, behind_comparison, behind_minus, behind_open, behind_close, behind_open_block, behind_close_block};
ghost use Rattle.boc_reader.specs.Wanted.{behind_open_index, behind_close_index, behind_semicolon, behind_comma, may_be_left_out};

use self::Wanted::{
    Args, Assign, Close, CloseIndex, CownName, Cowns, Defs, Else, Expr, Held, InExpr, InSum, Index,
    Initial, Members, MoreArgs, MoreHeld, MoreParams, MoreRefs, Name, NextArg, NextName, NextRef,
    Number, Open, OpenBlock, Params, Refs, Semicolon, Size, Stmts, Sum,
};
use crate::natural::Natural;
use crate::terminal::{Keyword, Sign};
use crate::token::Token;

/// What is wanted at some place of a text: a token, or a phrase.
#[derive(Clone, Copy, Debug)]
pub(crate) enum Wanted {
    /// All of a text that begins with a declaration of cowns, a def or main.
    Cowns,
    /// All of a text that begins with a def or main.
    Defs,
    Name,
    Number,
    Assign,
    Semicolon,
    Open,
    Close,
    OpenBlock,
    CloseIndex,
    /// The size of an array in its brackets, or nothing.
    Size,
    /// A number from 1 on.
    Members,
    /// A number, after a minus or without one.
    Initial,
    /// Names, and the semicolon after them.
    Params,
    /// A comma and further names, or the semicolon.
    MoreParams,
    /// Names, and the parenthesis after them.
    Held,
    /// A comma and further names, or the parenthesis.
    MoreHeld,
    /// Statements, and the brace after them.
    Stmts,
    /// `else` and its block, or nothing.
    Else,
    /// Expressions, and the semicolon after them.
    Args,
    /// A comma and further expressions, or the semicolon.
    MoreArgs,
    /// References, and the parenthesis after them.
    Refs,
    /// A comma and further references, or the parenthesis.
    MoreRefs,
    /// An index in its brackets, or nothing.
    Index,
    Expr,
    /// After an operand of an expression, an operator and what follows it, or nothing.
    InExpr,
    /// A side of a comparison.
    Sum,
    /// After an operand of the right side of a comparison, an operator and what follows it, or nothing.
    InSum,
    /// The name of a cown, and after it the size of an array, or nothing.
    CownName,
    /// A name after a comma.
    NextName,
    /// An argument after a comma.
    NextArg,
    /// A reference after a comma.
    NextRef,
}

/// Returns what is wanted after a token, instead of what was wanted where it is; nothing where it isn't what was wanted.
pub(crate) fn behind(token: Token<'_>, wanted: Wanted) -> Option<&'static [Wanted]>
    ensures { option_map (λ all. all.now) result ≡ behind (token_of token.entry) wanted }
{
    match token {
        Token::Name(_) => behind_name(wanted),
        Token::Number(n) => behind_number(n, wanted),
        Token::Keyword(keyword) => behind_keyword(keyword, wanted),
        Token::Sign(sign) => behind_sign(sign, wanted),
    }
}

fn behind_name(wanted: Wanted) -> Option<&'static [Wanted]>
    ensures { option_map (λ all. all.now) result ≡ behind_name wanted }
{
    match wanted {
        Name | NextName => Some(&[]),
        CownName => Some(&[Size]),
        Params => Some(&[MoreParams]),
        Held => Some(&[MoreHeld]),
        Stmts => Some(&[Assign, Expr, Semicolon, Stmts]),
        Args => Some(&[InExpr, MoreArgs]),
        Refs => Some(&[Index, MoreRefs]),
        NextRef => Some(&[Index]),
        Expr | NextArg => Some(&[InExpr]),
        Sum => Some(&[InSum]),
        _ => None,
    }
}

fn behind_number(n: Natural, wanted: Wanted) -> Option<&'static [Wanted]>
    ensures { option_map (λ all. all.now) result ≡ behind_number n.value wanted }
{
    match wanted {
        Number | Initial => Some(&[]),
        Members if n.value > 0 => Some(&[]),
        Args => Some(&[InExpr, MoreArgs]),
        Expr | NextArg => Some(&[InExpr]),
        Sum => Some(&[InSum]),
        _ => None,
    }
}

fn behind_keyword(keyword: Keyword, wanted: Wanted) -> Option<&'static [Wanted]>
    ensures { option_map (λ all. all.now) result ≡ behind_keyword keyword wanted }
{
    match wanted {
        Cowns => in_declaration(keyword),
        Defs => in_def(keyword),
        Stmts => in_statement(keyword),
        Else if keyword == Keyword::Else => Some(&[OpenBlock, Stmts]),
        _ => None,
    }
}

fn in_declaration(keyword: Keyword) -> Option<&'static [Wanted]>
    ensures { option_map (λ all. all.now) result ≡ in_declaration keyword }
{
    match keyword {
        Keyword::Cown => Some(&[CownName, Assign, Initial, Semicolon, Cowns]),
        _ => in_def(keyword),
    }
}

fn in_def(keyword: Keyword) -> Option<&'static [Wanted]>
    ensures { option_map (λ all. all.now) result ≡ in_def keyword }
{
    match keyword {
        Keyword::Def => Some(&[Name, Open, Params, Held, OpenBlock, Stmts, Defs]),
        Keyword::Main => Some(&[OpenBlock, Stmts]),
        _ => None,
    }
}

fn in_statement(keyword: Keyword) -> Option<&'static [Wanted]>
    ensures { option_map (λ all. all.now) result ≡ in_statement keyword }
{
    match keyword {
        Keyword::Let => Some(&[Name, Assign, Expr, Semicolon, Stmts]),
        Keyword::Work => Some(&[Expr, Semicolon, Stmts]),
        Keyword::If => Some(&[Expr, OpenBlock, Stmts, Else, Stmts]),
        Keyword::Repeat => Some(&[Expr, OpenBlock, Stmts, Stmts]),
        Keyword::When => Some(&[Name, Open, Args, Refs, Semicolon, Stmts]),
        _ => None,
    }
}

fn behind_sign(sign: Sign, wanted: Wanted) -> Option<&'static [Wanted]>
    ensures { option_map (λ all. all.now) result ≡ behind_sign sign wanted }
{
    match sign {
        Sign::Assign => behind_assign(wanted),
        Sign::Plus | Sign::Star | Sign::Slash | Sign::Percent => behind_operator(wanted),
        Sign::Minus => behind_minus(wanted),
        Sign::Open => behind_open(wanted),
        Sign::Close => behind_close(wanted),
        Sign::OpenBlock => behind_open_block(wanted),
        Sign::CloseBlock => behind_close_block(wanted),
        Sign::OpenIndex => behind_open_index(wanted),
        Sign::CloseIndex => behind_close_index(wanted),
        Sign::Semicolon => behind_semicolon(wanted),
        Sign::Comma => behind_comma(wanted),
        _ => behind_comparison(wanted),
    }
}

fn behind_assign(wanted: Wanted) -> Option<&'static [Wanted]>
    ensures { option_map (λ all. all.now) result ≡ behind_assign wanted }
{
    match wanted {
        Assign => Some(&[]),
        _ => None,
    }
}

// Returns what is wanted after an operator that binds more tightly than a comparison.
fn behind_operator(wanted: Wanted) -> Option<&'static [Wanted]>
    ensures { option_map (λ all. all.now) result ≡ behind_operator wanted }
{
    match wanted {
        InExpr => Some(&[Expr]),
        InSum => Some(&[Sum]),
        _ => None,
    }
}

fn behind_comparison(wanted: Wanted) -> Option<&'static [Wanted]>
    ensures { option_map (λ all. all.now) result ≡ behind_comparison wanted }
{
    match wanted {
        InExpr => Some(&[Sum]),
        _ => None,
    }
}

fn behind_minus(wanted: Wanted) -> Option<&'static [Wanted]>
    ensures { option_map (λ all. all.now) result ≡ behind_minus wanted }
{
    match wanted {
        Initial => Some(&[Number]),
        Args => Some(&[Expr, MoreArgs]),
        Expr | NextArg => Some(&[Expr]),
        Sum => Some(&[Sum]),
        _ => behind_operator(wanted),
    }
}

fn behind_open(wanted: Wanted) -> Option<&'static [Wanted]>
    ensures { option_map (λ all. all.now) result ≡ behind_open wanted }
{
    match wanted {
        Open => Some(&[]),
        Args => Some(&[Expr, Close, InExpr, MoreArgs]),
        Expr | NextArg => Some(&[Expr, Close, InExpr]),
        Sum => Some(&[Expr, Close, InSum]),
        _ => None,
    }
}

fn behind_close(wanted: Wanted) -> Option<&'static [Wanted]>
    ensures { option_map (λ all. all.now) result ≡ behind_close wanted }
{
    match wanted {
        Close | Held | MoreHeld | Refs | MoreRefs => Some(&[]),
        _ => None,
    }
}

fn behind_open_block(wanted: Wanted) -> Option<&'static [Wanted]>
    ensures { option_map (λ all. all.now) result ≡ behind_open_block wanted }
{
    match wanted {
        OpenBlock => Some(&[]),
        _ => None,
    }
}

fn behind_close_block(wanted: Wanted) -> Option<&'static [Wanted]>
    ensures { option_map (λ all. all.now) result ≡ behind_close_block wanted }
{
    match wanted {
        Stmts => Some(&[]),
        _ => None,
    }
}

fn behind_open_index(wanted: Wanted) -> Option<&'static [Wanted]>
    ensures { option_map (λ all. all.now) result ≡ behind_open_index wanted }
{
    match wanted {
        Size => Some(&[Members, CloseIndex]),
        Index => Some(&[Expr, CloseIndex]),
        _ => None,
    }
}

fn behind_close_index(wanted: Wanted) -> Option<&'static [Wanted]>
    ensures { option_map (λ all. all.now) result ≡ behind_close_index wanted }
{
    match wanted {
        CloseIndex => Some(&[]),
        _ => None,
    }
}

fn behind_semicolon(wanted: Wanted) -> Option<&'static [Wanted]>
    ensures { option_map (λ all. all.now) result ≡ behind_semicolon wanted }
{
    match wanted {
        Semicolon | Params | MoreParams | Args | MoreArgs => Some(&[]),
        _ => None,
    }
}

fn behind_comma(wanted: Wanted) -> Option<&'static [Wanted]>
    ensures { option_map (λ all. all.now) result ≡ behind_comma wanted }
{
    match wanted {
        MoreParams => Some(&[NextName, MoreParams]),
        MoreHeld => Some(&[NextName, MoreHeld]),
        MoreArgs => Some(&[NextArg, MoreArgs]),
        MoreRefs => Some(&[NextRef, MoreRefs]),
        _ => None,
    }
}

impl Wanted {
    /// Returns whether it may be left out.
    pub(crate) fn may_be_left_out(self) -> bool
        ensures { result ≡ may_be_left_out self }
    {
        matches!(self, Size | Else | Index | InExpr | InSum)
    }
}
