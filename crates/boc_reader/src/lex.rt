// From bytes to tokens.

ghost use Rattle.std.specs.Prelude.{◌≡◌, ◌≢◌, ◌+◌, ◌<◌, ◌≤◌, ◌^◌, ◌&&◌, ◌∷◌, ◌++◌, [], ℕ, List, All, length, nat_lt, MatchResult, MatchOption, IfSome, IfOk};
ghost use Rattle.std.specs.Prelude.{true, false, Some, None};
ghost use Rattle.std.specs.Bool.{OnTrue};
ghost use Rattle.std.specs.Char.{is_ascii_digit};
ghost use Rattle.std.specs.List.{take_while, list_all};
ghost use Rattle.std.specs.Str.{byte, IsAscii};
ghost use Rattle.boc_reader.specs.Placed.{token_of, tokens_of, ArePlaced, AreReached, AreEnded, AreTokens, IsEndOf};
ghost use Rattle.boc_reader.specs.Tokens as the;
ghost use Rattle.boc_reader.specs.Tokens.{sign, is_name_byte, is_blank, is_numeral, value_of, begins_with_digit, token_of_run, keyword_of, single_sign};
ghost use Rattle.boc_reader.specs.Tokens.{pair_sign, tokens_of_text, IsApart};
ghost use Rattle.boc_reader.specs.WrongTokens.{pieces_of, HasRead, BeginsWrong, IsWrongPiece, IsFirstWrong};

use crate::fault::{Fault, TokenFault};
use crate::natural::Natural;
use crate::terminal::{Keyword, Sign};
use crate::token::{Placed, Token};
use std::alloc::{AllocError, Global};

fn is_name_byte(b: u8) -> bool
    ensures { result ≡ is_name_byte b }
{
    b.is_ascii_alphanumeric() || b == b'_'
}

fn is_blank(b: u8) -> bool
    ensures { result ≡ is_blank b }
{
    b == b' ' || b == b'\t' || b == b'\r' || b == b'\n'
}

// Returns how many name bytes are at the front.
fn run_len(text: &[u8]) -> usize
    ensures { result ≡ length (take_while is_name_byte text.now) }
{
    text.iter().take_while(|b| is_name_byte(**b)).count()
}

fn keyword_of(run: &[u8]) -> Option<Keyword>
    ensures { result ≡ keyword_of run.now }
{
    if run == b"cown".as_slice() {
        Some(Keyword::Cown)
    } else if run == b"def".as_slice() {
        Some(Keyword::Def)
    } else if run == b"main".as_slice() {
        Some(Keyword::Main)
    } else if run == b"let".as_slice() {
        Some(Keyword::Let)
    } else if run == b"work".as_slice() {
        Some(Keyword::Work)
    } else if run == b"if".as_slice() {
        Some(Keyword::If)
    } else if run == b"else".as_slice() {
        Some(Keyword::Else)
    } else if run == b"repeat".as_slice() {
        Some(Keyword::Repeat)
    } else if run == b"when".as_slice() {
        Some(Keyword::When)
    } else {
        None
    }
}

fn pair_sign(b: u8) -> Option<Sign>
    ensures { result ≡ pair_sign b }
{
    match b {
        b'=' => Some(Sign::Equal),
        b'!' => Some(Sign::NotEqual),
        b'<' => Some(Sign::AtMost),
        b'>' => Some(Sign::AtLeast),
        _ => None,
    }
}

fn single_sign(b: u8) -> Option<Sign>
    ensures { result ≡ single_sign b }
{
    match b {
        b'=' => Some(Sign::Assign),
        b'<' => Some(Sign::Less),
        b'>' => Some(Sign::Greater),
        b'+' => Some(Sign::Plus),
        b'-' => Some(Sign::Minus),
        b'*' => Some(Sign::Star),
        b'/' => Some(Sign::Slash),
        b'%' => Some(Sign::Percent),
        b'(' => Some(Sign::Open),
        b')' => Some(Sign::Close),
        b'{' => Some(Sign::OpenBlock),
        b'}' => Some(Sign::CloseBlock),
        b'[' => Some(Sign::OpenIndex),
        b']' => Some(Sign::CloseIndex),
        b';' => Some(Sign::Semicolon),
        b',' => Some(Sign::Comma),
        _ => None,
    }
}

fn are_digits(run: &[u8]) -> bool
    ensures value { result ≡ list_all is_ascii_digit run.now }
    ensures digits { OnTrue result (All (λ d. (byte "0" ≤ d) × (d ≤ byte "9")) run.now) }
{
    run.iter().all(|d| d.is_ascii_digit())
}

fn is_numeral(run: &[u8]) -> bool
    ensures value { result ≡ is_numeral run.now }
    ensures digits { OnTrue result (All (λ d. (byte "0" ≤ d) × (d ≤ byte "9")) run.now) }
{
    match run.split_first() {
        None => false,
        Some((first, others)) => are_digits(run) && (b'0' < *first || others.is_empty()),
    }
}

const LARGEST: u64 = 9_223_372_036_854_775_807;

fn number_of(run: &[u8]) -> Result<Natural, TokenFault>
    requires digit { begins_with_digit run.now ≡ true }
    ensures { MatchResult result (λ n. (is_numeral run.now ≡ true) × (value_of run.now < 2 ^ 63) × (n.value ≡ value_of run.now))
        (λ fault. IsWrongPiece fault (the.run run.now)) }
{
    if !is_numeral(run) {
        return Err(TokenFault::BadToken);
    }
    let mut value = 0;
    for byte in run {
        let digit = u64::from(*byte - b'0');
        if (LARGEST - digit) / 10 < value {
            return Err(TokenFault::NumberTooLarge);
        }
        value = 10 * value + digit;
    }
    Ok(Natural { value })
}

// Returns ASCII bytes as the text that they are.
fn ascii(bytes: &[u8]) -> &str
    requires { IsAscii bytes.now }
    ensures { result.now ≡ bytes.now }
{
    match str::from_utf8(bytes) {
        Ok(text) => text,
        Err(_) => unreachable!(),
    }
}

fn begins_with_digit(run: &[u8]) -> bool
    ensures { result ≡ begins_with_digit run.now }
{
    match run {
        [] => false,
        [first, ..] => first.is_ascii_digit(),
    }
}

const LONGEST_NAME: usize = 32;

// Returns what a run of name bytes is.
#[tactic(auto, unfolding(crate::specs::Tokens::token_of_run))]
fn token_of_run<'a>(run: &'a [u8]) -> Result<Token<'a>, TokenFault>
    requires { IsAscii run.now }
    ensures { MatchResult result (λ t. token_of_run run.now ≡ Some (token_of t)) (λ fault. IsWrongPiece fault (the.run run.now)) }
{
    if begins_with_digit(run) {
        return Ok(Token::Number(number_of(run)?));
    }
    match keyword_of(run) {
        Some(keyword) => Ok(Token::Keyword(keyword)),
        None if run.len() <= LONGEST_NAME => Ok(Token::Name(ascii(run))),
        None => Err(TokenFault::BadToken),
    }
}

// Returns what follows a comment: the line feed, the end, or a byte that no text may have.
fn after_comment(text: &[u8]) -> &[u8]
    ensures read { HasRead (byte "#" ∷ text.now) result.now [] }
    ensures shorter { length result.now ≤ length text.now }
    ensures end { IsEndOf result.now text.now }
{
    let mut rest = text;
    while let Some((first, after)) = rest.split_first() {
        if *first == b'\n' || *first >= 128 {
            break;
        }
        rest = after;
    }
    rest
}

// Returns the longest run of name bytes at the front, and what follows it.
fn split_run(text: &[u8]) -> Option<(&[u8], &[u8])>
    ensures piece { MatchOption result ((b : ℕ) (bs : List ℕ) → text.now ≡ b ∷ bs → is_name_byte b ≡ false)
        (λ x. pieces_of text.now ≡ the.run x.0.now ∷ pieces_of x.1.now) }
    ensures whole { IfSome result (λ x. length x.0.now + length x.1.now ≡ length text.now) }
    ensures ascii { IfSome result (λ x. IsAscii x.0.now) }
    ensures shorter { IfSome result (λ x. length x.1.now < length text.now) }
    ensures end { IfSome result (λ x. IsEndOf x.1.now text.now) }
{
    let len = run_len(text);
    if len == 0 {
        return None;
    }
    Some(text.split_at(len))
}

// Returns a sign of two bytes at the front, and what follows it.
fn split_pair(first: u8, after: &[u8]) -> Option<(Sign, &[u8])>
    ensures read { MatchOption result (IsApart first after.now) (λ x. HasRead (first ∷ after.now) x.1.now (sign x.0 ∷ [])) }
    ensures shorter { IfSome result (λ x. length x.1.now < length after.now) }
    ensures end { IfSome result (λ x. IsEndOf x.1.now after.now) }
{
    match after.split_first() {
        Some((second, others)) if *second == b'=' => match pair_sign(first) {
            Some(sign) => Some((sign, others)),
            None => None,
        },
        _ => None,
    }
}

// Returns the sign at the front, and what follows it.
fn split_sign(first: u8, after: &[u8]) -> Result<(Sign, &[u8]), TokenFault>
    requires no_name_byte { is_name_byte first ≡ false }
    requires no_blank { is_blank first ≡ false }
    requires no_comment { first ≢ byte "#" }
    ensures read { MatchResult result (λ x. HasRead (first ∷ after.now) x.1.now (sign x.0 ∷ [])) (λ fault. BeginsWrong fault (first ∷ after.now)) }
    ensures shorter { IfOk result (λ x. length x.1.now ≤ length after.now) }
    ensures end { IfOk result (λ x. IsEndOf x.1.now after.now) }
{
    if let Some(found) = split_pair(first, after) {
        return Ok(found);
    }
    match single_sign(first) {
        Some(sign) => Ok((sign, after)),
        None if first >= 128 => Err(TokenFault::NotAscii),
        None => Err(TokenFault::BadToken),
    }
}

// Returns the token at the front, and what follows it.
fn split_token(text: &[u8]) -> Result<(Token<'_>, &[u8]), TokenFault>
    requires some { text.now ≢ [] }
    requires no_blank { (b : ℕ) (bs : List ℕ) → text.now ≡ b ∷ bs → (is_blank b ≡ false) × (b ≢ byte "#") }
    ensures read { MatchResult result (λ x. HasRead text.now x.1.now (token_of x.0 ∷ [])) (λ fault. BeginsWrong fault text.now) }
    ensures shorter { IfOk result (λ x. length x.1.now < length text.now) }
    ensures end { IfOk result (λ x. IsEndOf x.1.now text.now) }
{
    if let Some((run, after)) = split_run(text) {
        return Ok((token_of_run(run)?, after));
    }
    let Some((first, after)) = text.split_first() else {
        unreachable!()
    };
    let (sign, after) = split_sign(*first, after)?;
    Ok((Token::Sign(sign), after))
}

/// Returns the tokens of a text, each with its place. A text that has none is refused for the first thing that is wrong with it, which begins at the reported
/// byte.
pub fn tokens(alloc: Global, text: &[u8]) -> Result<Vec<Placed<'_>>, Fault<TokenFault>>
    ensures tokens { MatchResult result (λ v. tokens_of_text text.now ≡ Some (tokens_of v.items)) (λ fault. IsFirstWrong fault text.now) }
    ensures places { IfOk result (λ v. ArePlaced text.now v.items) }
    ensures reached { IfOk result (λ v. AreReached text.now [] v.items) }
    ensures ended { IfOk result (λ v. AreEnded text.now [] v.items) }
{
    let mut all = Vec::new(alloc);
    let mut rest = text;
    while let Some((first, after)) = rest.split_first() {
        if is_blank(*first) {
            rest = after;
        } else if *first == b'#' {
            rest = after_comment(after);
        } else {
            let at = text.len() - rest.len();
            match split_token(rest) {
                Ok((token, after)) => {
                    let end = text.len() - after.len();
                    all.push(Placed { token, at, end })?;
                    rest = after;
                }
                Err(kind) => return Err(Fault::At(kind, at)),
            }
        }
    }
    Ok(all)
}

/// Reads the tokens of a text, each with its place; none where something in the text is no token.
pub fn read_tokens(alloc: Global, text: &[u8]) -> Result<Option<Vec<Placed<'_>>>, AllocError>
    ensures { IfOk result (λ found. MatchOption found (tokens_of_text text.now ≡ None) (λ v. AreTokens v.items text.now)) }
{
    match tokens(alloc, text) {
        Ok(tokens) => Ok(Some(tokens)),
        Err(Fault::At(_, _)) => Ok(None),
        Err(Fault::Memory) => Err(AllocError),
    }
}
