// From tokens to the syntax tree, by recursive descent.

ghost use Rattle.std.specs.Prelude.{◌≡◌, ◌≢◌, ◌+◌, ◌<◌, ◌≤◌, ◌∷◌, drop, length, map, IfOk, OnOk, MatchResult};
ghost use Rattle.std.specs.Option.{option_map};
ghost use Rattle.boc_reader.specs.Tokens.{keyword};
ghost use Rattle.boc_reader.specs.Shape.{HasShape};
ghost use Rattle.boc_reader.specs.declared.terminal.Keyword.TheVariants.{If, Repeat};
ghost use Rattle.boc_reader.specs.declared.terminal.Sign.TheVariants.{Semicolon, Close, Comma};
ghost use Rattle.boc_reader.specs.Phrases.{Parses};
ghost use Rattle.boc_reader.specs.Grammar.{NoKeyword, NoShape, tightness, expr_phrase, compared_phrase, sum_phrase, more_terms_phrase, term_phrase};
ghost use Rattle.boc_reader.specs.Grammar.{more_factors_phrase, unary_phrase, atom_phrase, closed_phrase, ref_phrase, name_phrase, list_phrase, written_phrase};
ghost use Rattle.boc_reader.specs.Grammar.{let_phrase, arguments_phrase, call_phrase, stmt_phrase, block_phrase, braced_phrase, else_phrase, pair_phrase};
ghost use Rattle.boc_reader.specs.Grammar.{body_phrase, size_phrase, initial_phrase, cown_phrase, cowns_phrase, signature_phrase, def_phrase, defs_phrase};
ghost use Rattle.boc_reader.specs.Grammar.{main_phrase};
ghost use Rattle.boc_reader.specs.Placed.{tokens_of, Refusal};
ghost use Rattle.boc_reader.specs.Listing.{AreLeft, main_tokens};
ghost use Rattle.boc_reader.specs.Views.{name_of, expr_of, sum_of, term_of, unary_of, atom_of, named_cown_of, stmt_of, block_of, cown_of, def_of, tree_of};

use crate::cursor::Cursor;
use crate::fault::{Fault, ShapeFault};
use crate::level::{Comparison, SumOperator, TermOperator};
use crate::natural::Natural;
use crate::shape::{
    Atom, CownShape, DefShape, Expr, NamedCown, Spot, Stmt, Sum, Term, Tree, Unary,
};
use crate::terminal::{Keyword, Sign};
use crate::token::{Placed, Token};
use boc_program::limits::{MOST_ARGUMENTS, MOST_COWNS, MOST_DEFS, MOST_HELD, MOST_NODES};
use std::alloc::Global;

// The most parameters of a kind, arguments and references.
pub(crate) const MOST_LISTED: usize = MOST_ARGUMENTS;

const _: () = prove!(MOST_LISTED == MOST_HELD);

type Read<T> = Result<T, Fault<ShapeFault>>;

/// Returns the tree of a text that has these tokens and ends at this byte.
pub fn parse_tree<'a>(alloc: Global, tokens: &[Placed<'a>]) -> Read<Tree<'a>>
    ensures left { IfOk result (λ t. AreLeft t.defs.items (main_tokens (block_of t.main.items))) }
    ensures shape { MatchResult result (λ t. HasShape (tokens_of tokens.now) (tree_of t))
        (λ f. Refusal f (NoShape (tokens_of tokens.now))) }
{
    let mut cursor = Cursor::new(tokens, MOST_COWNS as u32);
    let cowns = cowns(alloc, &mut cursor)?;
    cursor.refill(MOST_DEFS as u32);
    let defs = defs(alloc, &mut cursor)?;
    let main = main_block(alloc, &mut cursor)?;
    Ok(Tree { cowns, defs, main })
}

// Reads main's body, and the end of the text.
fn main_block<'a>(alloc: Global, cursor: &mut Cursor<'_, 'a>) -> Read<Vec<Stmt<'a>>>
    ensures { Parses main_phrase (λ v. block_of v.items) cursor.old result cursor.new }
{
    cursor.keyword(Keyword::Main)?;
    let main = body(alloc, cursor)?;
    cursor.end()?;
    Ok(main)
}

fn cowns<'a>(alloc: Global, cursor: &mut Cursor<'_, 'a>) -> Read<Vec<CownShape<'a>>>
    ensures { Parses cowns_phrase (λ v. map cown_of v.items) cursor.old result cursor.new }
{
    let mut all = Vec::new(alloc);
    'cowns: while cursor.is_next(Keyword::Cown) {
        all.push(cown(cursor)?)?;
    }
    Ok(all)
}

fn cown<'a>(cursor: &mut Cursor<'_, 'a>) -> Read<CownShape<'a>>
    ensures answers { Parses cown_phrase cown_of cursor.old result cursor.new }
    ensures shorter { OnOk result (length cursor.new.tokens < length cursor.old.tokens) }
{
    cursor.keyword(Keyword::Cown)?;
    let name = cursor.name()?;
    let size = size(cursor, name.at)?;
    let (negative, value) = initial(cursor)?;
    Ok(CownShape {
        name,
        size,
        negative,
        value,
    })
}

// Reads the size of an array, or none for a single cown, whose name is at this byte.
fn size(cursor: &mut Cursor<'_, '_>, name_at: usize) -> Read<Option<u64>>
    ensures answers { Parses size_phrase (λ n. n) cursor.old result cursor.new }
    ensures shorter { OnOk result (length cursor.new.tokens ≤ length cursor.old.tokens) }
{
    if !cursor.accept(Sign::OpenIndex) {
        cursor.take_room(1, name_at)?;
        return Ok(None);
    }
    let at = cursor.position();
    let size = cursor.number()?.value;
    if size == 0 {
        return Err(Fault::At(ShapeFault::Unexpected, at));
    }
    cursor.take_room(size, at)?;
    cursor.take(Sign::CloseIndex)?;
    Ok(Some(size))
}

// Reads the value that a cown begins with, and whether there is a minus before it.
fn initial(cursor: &mut Cursor<'_, '_>) -> Read<(bool, Natural)>
    ensures answers { Parses initial_phrase (λ v. (v.0, v.1.value)) cursor.old result cursor.new }
    ensures shorter { OnOk result (length cursor.new.tokens < length cursor.old.tokens) }
{
    cursor.take(Sign::Assign)?;
    let negative = cursor.accept(Sign::Minus);
    let value = cursor.number()?;
    cursor.take(Sign::Semicolon)?;
    Ok((negative, value))
}

fn defs<'a>(alloc: Global, cursor: &mut Cursor<'_, 'a>) -> Read<Vec<DefShape<'a>>>
    ensures left { IfOk result (λ v. AreLeft v.items cursor.new.tokens) }
    ensures answers { Parses defs_phrase (λ v. map def_of v.items) cursor.old result cursor.new }
{
    let mut all = Vec::new(alloc);
    'defs: while cursor.is_next(Keyword::Def) {
        all.push(def(alloc, cursor)?)?;
    }
    Ok(all)
}

fn def<'a>(alloc: Global, cursor: &mut Cursor<'_, 'a>) -> Read<DefShape<'a>>
    ensures answers { Parses def_phrase def_of cursor.old result cursor.new }
    ensures left { IfOk result (λ d. length cursor.old.tokens ≡ d.left + 1) }
    ensures shorter { OnOk result (length cursor.new.tokens < length cursor.old.tokens) }
{
    cursor.node()?;
    cursor.keyword(Keyword::Def)?;
    let left = cursor.left();
    let (name, (params, cowns)) = signature(alloc, cursor)?;
    let block = body(alloc, cursor)?;
    Ok(DefShape {
        name,
        left,
        params,
        cowns,
        block,
    })
}

type Signature<'a> = (Spot<'a>, (Vec<Spot<'a>>, Vec<Spot<'a>>));

// Reads the name of a def, and its parameters.
fn signature<'a>(alloc: Global, cursor: &mut Cursor<'_, 'a>) -> Read<Signature<'a>>
    ensures answers { Parses signature_phrase (λ s. (name_of s.0, (map name_of s.1.0.items, map name_of s.1.1.items))) cursor.old result cursor.new }
    ensures shorter { OnOk result (length cursor.new.tokens < length cursor.old.tokens) }
{
    let name = cursor.name()?;
    cursor.take(Sign::Open)?;
    let params = names(alloc, cursor, Sign::Semicolon)?;
    let cowns = names(alloc, cursor, Sign::Close)?;
    Ok((name, (params, cowns)))
}

// Reads names, and the sign after them.
fn names<'a>(alloc: Global, cursor: &mut Cursor<'_, 'a>, close: Sign) -> Read<Vec<Spot<'a>>>
    requires { close ≢ Comma }
    ensures answers { Parses (list_phrase name_phrase close) (λ v. map name_of v.items) cursor.old result cursor.new }
    ensures shorter { OnOk result (length cursor.new.tokens < length cursor.old.tokens) }
{
    let mut all = Vec::new(alloc);
    if cursor.accept(close) {
        return Ok(all);
    }
    'names: loop {
        if all.len() == MOST_LISTED {
            return Err(ninth(cursor));
        }
        all.push(cursor.name()?)?;
        if cursor.accept(close) {
            return Ok(all);
        }
        cursor.take(Sign::Comma)?;
    }
}

// Returns the fault where eight parameters or references have been read, and a comma.
fn ninth(cursor: &Cursor<'_, '_>) -> Fault<ShapeFault> {
    match cursor.peek() {
        Some(Token::Name(_)) => Fault::At(ShapeFault::TooMany, cursor.position()),
        _ => cursor.unexpected(),
    }
}

// Reads a block in its braces, with the limit of a whole body.
fn body<'a>(alloc: Global, cursor: &mut Cursor<'_, 'a>) -> Read<Vec<Stmt<'a>>>
    ensures answers { Parses body_phrase (λ v. block_of v.items) cursor.old result cursor.new }
    ensures shorter { OnOk result (length cursor.new.tokens < length cursor.old.tokens) }
{
    let outer = cursor.refill(MOST_NODES as u32);
    let body = braced(alloc, cursor)?;
    cursor.refill(outer);
    Ok(body)
}

// Reads a block in its braces.
#[cycle(body)]
fn braced<'a>(alloc: Global, cursor: &mut Cursor<'_, 'a>) -> Read<Vec<Stmt<'a>>>
    ensures answers { Parses braced_phrase (λ v. block_of v.items) cursor.old result cursor.new }
    ensures shorter { OnOk result (length cursor.new.tokens < length cursor.old.tokens) }
{
    cursor.take(Sign::OpenBlock)?;
    let body = block(alloc, cursor)?;
    Ok(body)
}

// Reads statements, and the brace after them.
#[cycle(body)]
fn block<'a>(alloc: Global, cursor: &mut Cursor<'_, 'a>) -> Read<Vec<Stmt<'a>>>
    ensures answers { Parses block_phrase (λ v. block_of v.items) cursor.old result cursor.new }
    ensures shorter { OnOk result (length cursor.new.tokens < length cursor.old.tokens) }
{
    let mut all = Vec::new(alloc);
    'stmts: while !cursor.accept(Sign::CloseBlock) {
        all.push(stmt(alloc, cursor)?)?;
    }
    Ok(all)
}

#[cycle(body)]
fn stmt<'a>(alloc: Global, cursor: &mut Cursor<'_, 'a>) -> Read<Stmt<'a>>
    ensures answers { Parses stmt_phrase stmt_of cursor.old result cursor.new }
    ensures shorter { OnOk result (length cursor.new.tokens < length cursor.old.tokens) }
{
    if cursor.is_next(Keyword::If) {
        return choice(alloc, cursor);
    }
    if cursor.is_next(Keyword::Repeat) {
        return repeated(alloc, cursor);
    }
    simple(alloc, cursor)
}

// Reads a statement with no block.
fn simple<'a>(alloc: Global, cursor: &mut Cursor<'_, 'a>) -> Read<Stmt<'a>>
    requires no_if { NoKeyword If cursor.old.tokens }
    requires no_repeat { NoKeyword Repeat cursor.old.tokens }
    ensures answers { Parses stmt_phrase stmt_of cursor.old result cursor.new }
    ensures shorter { OnOk result (length cursor.new.tokens < length cursor.old.tokens) }
{
    match cursor.peek() {
        Some(Token::Name(_)) => {
            cursor.node()?;
            let (name, value) = assigned(alloc, cursor)?;
            Ok(Stmt::Assign(name, value))
        }
        Some(Token::Keyword(Keyword::Let)) => {
            cursor.begin()?;
            let (name, value) = assigned(alloc, cursor)?;
            Ok(Stmt::Let(name, value))
        }
        Some(Token::Keyword(Keyword::Work)) => {
            cursor.begin()?;
            let ticks = closed(alloc, cursor, Sign::Semicolon)?;
            Ok(Stmt::Work(ticks))
        }
        Some(Token::Keyword(Keyword::When)) => {
            cursor.begin()?;
            let (def, (args, refs)) = call(alloc, cursor)?;
            Ok(Stmt::When(def, args, refs))
        }
        _ => Err(cursor.unexpected()),
    }
}

// Reads an `if`, which is next.
#[cycle(body)]
fn choice<'a>(alloc: Global, cursor: &mut Cursor<'_, 'a>) -> Read<Stmt<'a>>
    requires { cursor.old.tokens ≡ keyword If ∷ drop 1 cursor.old.tokens }
    ensures answers { Parses stmt_phrase stmt_of cursor.old result cursor.new }
    ensures shorter { OnOk result (length cursor.new.tokens < length cursor.old.tokens) }
{
    cursor.begin()?;
    let test = expr(alloc, cursor)?;
    let (body, other) = blocks(alloc, cursor)?;
    match other {
        None => Ok(Stmt::If(test, body)),
        Some(other) => Ok(Stmt::IfElse(test, body, other)),
    }
}

// Reads a block, and that of an `else`, if one is there.
#[cycle(body)]
fn blocks<'a>(
    alloc: Global,
    cursor: &mut Cursor<'_, 'a>,
) -> Read<(Vec<Stmt<'a>>, Option<Vec<Stmt<'a>>>)>
    ensures answers { Parses (pair_phrase braced_phrase else_phrase) (λ w. (block_of w.0.items, option_map (λ b. block_of b.items) w.1)) cursor.old result
        cursor.new }
    ensures shorter { OnOk result (length cursor.new.tokens < length cursor.old.tokens) }
{
    let body = braced(alloc, cursor)?;
    if !cursor.is_next(Keyword::Else) {
        return Ok((body, None));
    }
    cursor.skip();
    let other = braced(alloc, cursor)?;
    Ok((body, Some(other)))
}

// Reads a `repeat`, which is next.
#[cycle(body)]
fn repeated<'a>(alloc: Global, cursor: &mut Cursor<'_, 'a>) -> Read<Stmt<'a>>
    requires { cursor.old.tokens ≡ keyword Repeat ∷ drop 1 cursor.old.tokens }
    ensures answers { Parses stmt_phrase stmt_of cursor.old result cursor.new }
    ensures shorter { OnOk result (length cursor.new.tokens < length cursor.old.tokens) }
{
    cursor.begin()?;
    let turns = expr(alloc, cursor)?;
    let body = braced(alloc, cursor)?;
    Ok(Stmt::Repeat(turns, body))
}

// Reads a name, and what is written to it.
fn assigned<'a>(alloc: Global, cursor: &mut Cursor<'_, 'a>) -> Read<(Spot<'a>, Expr<'a>)>
    ensures answers { Parses let_phrase (λ w. (name_of w.0, expr_of w.1)) cursor.old result cursor.new }
    ensures shorter { OnOk result (length cursor.new.tokens < length cursor.old.tokens) }
{
    let name = cursor.name()?;
    let value = written(alloc, cursor)?;
    Ok((name, value))
}

fn written<'a>(alloc: Global, cursor: &mut Cursor<'_, 'a>) -> Read<Expr<'a>>
    ensures answers { Parses written_phrase expr_of cursor.old result cursor.new }
    ensures shorter { OnOk result (length cursor.new.tokens < length cursor.old.tokens) }
{
    cursor.take(Sign::Assign)?;
    let value = closed(alloc, cursor, Sign::Semicolon)?;
    Ok(value)
}

type Arguments<'a> = (Vec<Expr<'a>>, Vec<NamedCown<'a>>);

// Reads what comes after `when`.
fn call<'a>(alloc: Global, cursor: &mut Cursor<'_, 'a>) -> Read<(Spot<'a>, Arguments<'a>)>
    ensures answers { Parses call_phrase (λ w. (name_of w.0, (map expr_of w.1.0.items, map named_cown_of w.1.1.items))) cursor.old result cursor.new }
    ensures shorter { OnOk result (length cursor.new.tokens < length cursor.old.tokens) }
{
    let def = cursor.name()?;
    cursor.take(Sign::Open)?;
    let arguments = arguments(alloc, cursor)?;
    cursor.take(Sign::Semicolon)?;
    Ok((def, arguments))
}

fn arguments<'a>(alloc: Global, cursor: &mut Cursor<'_, 'a>) -> Read<Arguments<'a>>
    ensures answers { Parses arguments_phrase (λ w. (map expr_of w.0.items, map named_cown_of w.1.items)) cursor.old result cursor.new }
    ensures shorter { OnOk result (length cursor.new.tokens < length cursor.old.tokens) }
{
    let args = exprs(alloc, cursor)?;
    let refs = refs(alloc, cursor)?;
    Ok((args, refs))
}

// Reads arguments, and the semicolon after them.
fn exprs<'a>(alloc: Global, cursor: &mut Cursor<'_, 'a>) -> Read<Vec<Expr<'a>>>
    ensures answers { Parses (list_phrase expr_phrase Semicolon) (λ v. map expr_of v.items) cursor.old result cursor.new }
    ensures shorter { OnOk result (length cursor.new.tokens < length cursor.old.tokens) }
{
    let mut all = Vec::new(alloc);
    if cursor.accept(Sign::Semicolon) {
        return Ok(all);
    }
    'exprs: loop {
        if all.len() == MOST_LISTED {
            return Err(ninth_argument(cursor));
        }
        all.push(expr(alloc, cursor)?)?;
        if cursor.accept(Sign::Semicolon) {
            return Ok(all);
        }
        cursor.take(Sign::Comma)?;
    }
}

// Returns the fault where eight arguments have been read, and a comma.
fn ninth_argument(cursor: &Cursor<'_, '_>) -> Fault<ShapeFault> {
    match cursor.peek() {
        Some(Token::Number(_) | Token::Name(_) | Token::Sign(Sign::Open | Sign::Minus)) => {
            Fault::At(ShapeFault::TooMany, cursor.position())
        }
        _ => cursor.unexpected(),
    }
}

// Reads references, and the parenthesis after them.
fn refs<'a>(alloc: Global, cursor: &mut Cursor<'_, 'a>) -> Read<Vec<NamedCown<'a>>>
    ensures answers { Parses (list_phrase ref_phrase Close) (λ v. map named_cown_of v.items) cursor.old result cursor.new }
    ensures shorter { OnOk result (length cursor.new.tokens < length cursor.old.tokens) }
{
    let mut all = Vec::new(alloc);
    if cursor.accept(Sign::Close) {
        return Ok(all);
    }
    'refs: loop {
        if all.len() == MOST_LISTED {
            return Err(ninth(cursor));
        }
        all.push(reference(alloc, cursor)?)?;
        if cursor.accept(Sign::Close) {
            return Ok(all);
        }
        cursor.take(Sign::Comma)?;
    }
}

fn reference<'a>(alloc: Global, cursor: &mut Cursor<'_, 'a>) -> Read<NamedCown<'a>>
    ensures answers { Parses ref_phrase named_cown_of cursor.old result cursor.new }
    ensures shorter { OnOk result (length cursor.new.tokens < length cursor.old.tokens) }
{
    let name = cursor.name()?;
    cursor.take_room(1, name.at)?;
    if !cursor.accept(Sign::OpenIndex) {
        return Ok(NamedCown::Alone(name));
    }
    let index = closed(alloc, cursor, Sign::CloseIndex)?;
    Ok(NamedCown::Member(name, index))
}

// Reads an expression, and the sign after it.
#[cycle(expr)]
fn closed<'a>(alloc: Global, cursor: &mut Cursor<'_, 'a>, close: Sign) -> Read<Expr<'a>>
    requires { tightness close ≡ 0 }
    ensures answers { Parses (closed_phrase expr_phrase close) expr_of cursor.old result cursor.new }
    ensures shorter { OnOk result (length cursor.new.tokens < length cursor.old.tokens) }
{
    let inner = expr(alloc, cursor)?;
    cursor.take(close)?;
    Ok(inner)
}

#[cycle(expr)]
fn expr<'a>(alloc: Global, cursor: &mut Cursor<'_, 'a>) -> Read<Expr<'a>>
    ensures answers { Parses expr_phrase expr_of cursor.old result cursor.new }
    ensures shorter { OnOk result (length cursor.new.tokens < length cursor.old.tokens) }
{
    let left = sum(alloc, cursor)?;
    match compared(alloc, cursor)? {
        None => Ok(Expr::Plain(left)),
        Some((op, right)) => Ok(Expr::Compared(left, op, right)),
    }
}

// Reads a comparison and what comes after it, or nothing.
#[cycle(expr)]
fn compared<'a>(
    alloc: Global,
    cursor: &mut Cursor<'_, 'a>,
) -> Read<Option<(Comparison, Box<Sum<'a>>)>>
    ensures answers { Parses compared_phrase (option_map (λ w. (w.0, sum_of w.1.value))) cursor.old result cursor.new }
    ensures shorter { OnOk result (length cursor.new.tokens ≤ length cursor.old.tokens) }
{
    match cursor.comparison()? {
        None => Ok(None),
        Some(op) => {
            let right = sum(alloc, cursor)?;
            Ok(Some((op, right)))
        }
    }
}

#[cycle(expr)]
fn sum<'a>(alloc: Global, cursor: &mut Cursor<'_, 'a>) -> Read<Box<Sum<'a>>>
    ensures answers { Parses sum_phrase (λ b. sum_of b.value) cursor.old result cursor.new }
    ensures shorter { OnOk result (length cursor.new.tokens < length cursor.old.tokens) }
{
    let first = term(alloc, cursor)?;
    let sum = match more_terms(alloc, cursor)? {
        None => Sum::One(first),
        Some((op, others)) => Sum::More(first, op, others),
    };
    Ok(Box::new(alloc, sum)?)
}

// Reads an operator and the terms after it, or nothing.
#[cycle(expr)]
fn more_terms<'a>(
    alloc: Global,
    cursor: &mut Cursor<'_, 'a>,
) -> Read<Option<(SumOperator, Box<Sum<'a>>)>>
    ensures answers { Parses more_terms_phrase (option_map (λ w. (w.0, sum_of w.1.value))) cursor.old result cursor.new }
    ensures shorter { OnOk result (length cursor.new.tokens ≤ length cursor.old.tokens) }
{
    match cursor.sum_operator()? {
        None => Ok(None),
        Some(op) => {
            let others = sum(alloc, cursor)?;
            Ok(Some((op, others)))
        }
    }
}

#[cycle(expr)]
fn term<'a>(alloc: Global, cursor: &mut Cursor<'_, 'a>) -> Read<Box<Term<'a>>>
    ensures answers { Parses term_phrase (λ b. term_of b.value) cursor.old result cursor.new }
    ensures shorter { OnOk result (length cursor.new.tokens < length cursor.old.tokens) }
{
    let first = unary(alloc, cursor)?;
    let term = match more_factors(alloc, cursor)? {
        None => Term::One(first),
        Some((op, others)) => Term::More(first, op, others),
    };
    Ok(Box::new(alloc, term)?)
}

// Reads an operator and the factors after it, or nothing.
#[cycle(expr)]
fn more_factors<'a>(
    alloc: Global,
    cursor: &mut Cursor<'_, 'a>,
) -> Read<Option<(TermOperator, Box<Term<'a>>)>>
    ensures answers { Parses more_factors_phrase (option_map (λ w. (w.0, term_of w.1.value))) cursor.old result cursor.new }
    ensures shorter { OnOk result (length cursor.new.tokens ≤ length cursor.old.tokens) }
{
    match cursor.term_operator()? {
        None => Ok(None),
        Some(op) => {
            let others = term(alloc, cursor)?;
            Ok(Some((op, others)))
        }
    }
}

#[cycle(expr)]
fn unary<'a>(alloc: Global, cursor: &mut Cursor<'_, 'a>) -> Read<Unary<'a>>
    ensures answers { Parses unary_phrase unary_of cursor.old result cursor.new }
    ensures shorter { OnOk result (length cursor.new.tokens < length cursor.old.tokens) }
{
    if !cursor.minus()? {
        let atom = atom(alloc, cursor)?;
        return Ok(Unary::Plain(atom));
    }
    let inner = unary(alloc, cursor)?;
    Ok(Unary::Negated(Box::new(alloc, inner)?))
}

#[cycle(expr)]
fn atom<'a>(alloc: Global, cursor: &mut Cursor<'_, 'a>) -> Read<Atom<'a>>
    ensures answers { Parses atom_phrase atom_of cursor.old result cursor.new }
    ensures shorter { OnOk result (length cursor.new.tokens < length cursor.old.tokens) }
{
    match cursor.peek() {
        Some(Token::Number(n)) => {
            cursor.begin()?;
            Ok(Atom::Number(n))
        }
        Some(Token::Name(name)) => {
            let at = cursor.position();
            cursor.begin()?;
            Ok(Atom::Name(Spot { name, at }))
        }
        Some(Token::Sign(Sign::Open)) => {
            cursor.begin()?;
            let inner = closed(alloc, cursor, Sign::Close)?;
            Ok(Atom::Parens(Box::new(alloc, inner)?))
        }
        _ => Err(cursor.unexpected()),
    }
}
