// A cursor among the tokens.

ghost use Rattle.std.specs.Prelude.{◌≡◌, ◌≢◌, ◌+◌, ◌<◌, ◌∷◌, [], ℕ, List, drop, length, MatchResult, MatchOption, MatchBool, IfErr};
ghost use Rattle.std.specs.Bool.{OnTrue, OnFalse};
ghost use Rattle.boc_reader.specs.Tokens as the;
ghost use Rattle.boc_reader.specs.Tokens.{name, number, keyword, sign};
ghost use Rattle.boc_reader.specs.Shape.{comparison_sign, sum_sign, term_sign};
ghost use Rattle.boc_reader.specs.declared.level.Comparison.{Comparison};
ghost use Rattle.boc_reader.specs.declared.level.SumOperator.{SumOperator};
ghost use Rattle.boc_reader.specs.declared.level.TermOperator.{TermOperator};
ghost use Rattle.boc_reader.specs.declared.terminal.Sign.TheVariants.{Minus};
ghost use Rattle.boc_reader.specs.declared.fault.Fault.TheVariants.{At};
ghost use Rattle.boc_reader.specs.Grammar.{NoSign, NoKeyword, NoOperator};
ghost use Rattle.boc_reader.specs.Placed.{token_of, tokens_of, position_of, Refusal};

use crate::fault::{Fault, ShapeFault};
use crate::level::{Comparison, SumOperator, TermOperator};
use crate::natural::Natural;
use crate::shape::Spot;
use crate::terminal::{Keyword, Sign};
use crate::token::{Placed, Token};
use boc_program::limits::MOST_TEXT;
use std::marker::Model;
use std::mem;

/// What is left of the tokens, and of the limit: how many more nodes the body may have, or how
/// many more cowns or defs the text.
#[derive(Drop)]
pub struct Cursor<'t, 'a> {
    rest: &'t [Placed<'a>],
    room: u32,
}

impl<'t, 'a> Model for Cursor<'t, 'a> {
    ghost use Rattle.boc_reader.specs.Placed.{tokens_of, position_of};
    ghost use Rattle.boc_reader.specs.Phrases.{Ahead};

    ghost Value = { Ahead };

    ghost view = { λ c. record { tokens = tokens_of c.rest.now; position = position_of c.rest.now; room = c.room } };
}

impl<'t, 'a> Cursor<'t, 'a> {
    /// Returns the cursor before all tokens of a text.
    pub fn new(tokens: &'t [Placed<'a>], room: u32) -> Cursor<'t, 'a>
        ensures tokens { result.tokens ≡ tokens_of tokens.now }
        ensures position { result.position ≡ position_of tokens.now }
        ensures room { result.room ≡ room }
    {
        Cursor { rest: tokens, room }
    }

    /// Returns the byte at which the next token begins. Where none is left it is one that is after every text.
    pub fn position(&self) -> usize
        ensures { result ≡ self.now.position }
    {
        match self.rest {
            [] => MOST_TEXT,
            [first, ..] => first.at,
        }
    }

    /// Returns how many tokens are left.
    pub fn left(&self) -> usize
        ensures { result ≡ length self.now.tokens }
    {
        self.rest.len()
    }

    /// Returns the fault that the next token is not what the grammar allows there.
    pub fn unexpected(&self) -> Fault<ShapeFault>
        ensures { result ≡ At ShapeFault.Unexpected self.now.position }
    {
        Fault::At(ShapeFault::Unexpected, self.position())
    }

    /// Returns the next token.
    pub fn peek(&self) -> Option<Token<'a>>
        ensures { MatchOption result (self.now.tokens ≡ [])
            (λ t. self.now.tokens ≡ token_of t ∷ drop 1 self.now.tokens) }
    {
        match self.rest {
            [] => None,
            [first, ..] => Some(first.token),
        }
    }

    /// Goes past the next token.
    pub fn skip(&mut self)
        requires { self.old.tokens ≢ [] }
        ensures tokens { self.new.tokens ≡ drop 1 self.old.tokens }
        ensures room { self.new.room ≡ self.old.room }
    {
        self.rest = &self.rest[1..];
    }

    /// Sets what is left of the limit, and returns what was left before.
    pub fn refill(&mut self, room: u32) -> u32
        ensures tokens { self.new.tokens ≡ self.old.tokens }
        ensures room { self.new.room ≡ room }
        ensures had { result ≡ self.old.room }
    {
        mem::replace(&mut self.room, room)
    }

    /// Takes `count` from the limit for what is at this byte.
    pub fn take_room(&mut self, count: u64, at: usize) -> Result<(), Fault<ShapeFault>>
        ensures tokens { self.new.tokens ≡ self.old.tokens }
        ensures room { MatchResult result (λ _. count + self.new.room ≡ self.old.room)
            (λ f. Refusal f (self.old.room < count)) }
        ensures fault { IfErr result (λ f. f ≡ At ShapeFault.TooMany at) }
    {
        if u64::from(self.room) < count {
            return Err(Fault::At(ShapeFault::TooMany, at));
        }
        self.room -= count as u32;
        Ok(())
    }

    /// Takes one from the limit for the node that the next token begins.
    pub fn node(&mut self) -> Result<(), Fault<ShapeFault>>
        ensures tokens { self.new.tokens ≡ self.old.tokens }
        ensures room { MatchResult result (λ _. 1 + self.new.room ≡ self.old.room)
            (λ f. Refusal f (self.old.room ≡ 0)) }
    {
        self.take_room(1, self.position())
    }

    /// Goes past the next token, which begins a node.
    pub fn begin(&mut self) -> Result<(), Fault<ShapeFault>>
        requires { self.old.tokens ≢ [] }
        ensures { MatchResult result
            (λ _. (self.new.tokens ≡ drop 1 self.old.tokens) × (1 + self.new.room ≡ self.old.room))
            (λ f. Refusal f (self.old.room ≡ 0)) }
    {
        self.node()?;
        self.skip();
        Ok(())
    }

    /// Returns whether the next token is this keyword.
    pub fn is_next(&self, wanted: Keyword) -> bool
        ensures next { OnTrue result (self.now.tokens ≡ keyword wanted ∷ drop 1 self.now.tokens) }
        ensures other { OnFalse result (NoKeyword wanted self.now.tokens) }
    {
        matches!(self.peek(), Some(Token::Keyword(found)) if found == wanted)
    }

    /// Goes past this sign, if it is next.
    pub fn accept(&mut self, wanted: Sign) -> bool
        ensures taken { OnTrue result ((self.old.tokens ≡ sign wanted ∷ self.new.tokens) × (self.new.room ≡ self.old.room)) }
        ensures stays { OnFalse result ((self.new ≡ self.old) × NoSign wanted self.old.tokens) }
    {
        match self.peek() {
            Some(Token::Sign(found)) if found == wanted => {
                self.skip();
                true
            }
            _ => false,
        }
    }

    /// Goes past this sign.
    pub fn take(&mut self, wanted: Sign) -> Result<(), Fault<ShapeFault>>
        ensures { MatchResult result (λ _. (self.old.tokens ≡ sign wanted ∷ self.new.tokens) × (self.new.room ≡ self.old.room))
            (λ f. Refusal f (NoSign wanted self.old.tokens)) }
    {
        match self.peek() {
            Some(Token::Sign(found)) if found == wanted => {
                self.skip();
                Ok(())
            }
            _ => Err(self.unexpected()),
        }
    }

    /// Goes past this keyword.
    pub fn keyword(&mut self, wanted: Keyword) -> Result<(), Fault<ShapeFault>>
        ensures { MatchResult result (λ _. (self.old.tokens ≡ keyword wanted ∷ self.new.tokens) × (self.new.room ≡ self.old.room))
            (λ f. Refusal f (NoKeyword wanted self.old.tokens)) }
    {
        match self.peek() {
            Some(Token::Keyword(found)) if found == wanted => {
                self.skip();
                Ok(())
            }
            _ => Err(self.unexpected()),
        }
    }

    /// Goes past a name.
    pub fn name(&mut self) -> Result<Spot<'a>, Fault<ShapeFault>>
        ensures { MatchResult result (λ x. (self.old.tokens ≡ name x.name.now ∷ self.new.tokens) × (self.new.room ≡ self.old.room))
            (λ f. Refusal f ((x : List ℕ) (after : List the.Token) → self.old.tokens ≢ name x ∷ after)) }
    {
        match self.peek() {
            Some(Token::Name(name)) => {
                let at = self.position();
                self.skip();
                Ok(Spot { name, at })
            }
            _ => Err(self.unexpected()),
        }
    }

    /// Goes past a number.
    pub fn number(&mut self) -> Result<Natural, Fault<ShapeFault>>
        ensures { MatchResult result (λ n. (self.old.tokens ≡ number n.value ∷ self.new.tokens) × (self.new.room ≡ self.old.room))
            (λ f. Refusal f ((n : ℕ) (after : List the.Token) → self.old.tokens ≢ number n ∷ after)) }
    {
        match self.peek() {
            Some(Token::Number(n)) => {
                self.skip();
                Ok(n)
            }
            _ => Err(self.unexpected()),
        }
    }

    /// Goes past a comparison, which is a node, if one is next.
    pub fn comparison(&mut self) -> Result<Option<Comparison>, Fault<ShapeFault>>
        ensures { MatchResult result
            (λ found. MatchOption found
            ((self.new ≡ self.old) × NoOperator comparison_sign self.old.tokens)
            (λ op. (self.old.tokens ≡ sign (comparison_sign op) ∷ self.new.tokens) × (1 + self.new.room ≡ self.old.room)))
            (λ f. Refusal f ((self.old.room ≡ 0) × (op : Comparison) × (self.old.tokens ≡ sign (comparison_sign op) ∷ drop 1 self.old.tokens))) }
    {
        let op = match self.peek() {
            Some(Token::Sign(Sign::Equal)) => Comparison::Equal,
            Some(Token::Sign(Sign::NotEqual)) => Comparison::NotEqual,
            Some(Token::Sign(Sign::Less)) => Comparison::Less,
            Some(Token::Sign(Sign::AtMost)) => Comparison::AtMost,
            Some(Token::Sign(Sign::Greater)) => Comparison::Greater,
            Some(Token::Sign(Sign::AtLeast)) => Comparison::AtLeast,
            _ => return Ok(None),
        };
        self.begin()?;
        Ok(Some(op))
    }

    /// Goes past an operator between terms, which is a node, if one is next.
    pub fn sum_operator(&mut self) -> Result<Option<SumOperator>, Fault<ShapeFault>>
        ensures { MatchResult result
            (λ found. MatchOption found
            ((self.new ≡ self.old) × NoOperator sum_sign self.old.tokens)
            (λ op. (self.old.tokens ≡ sign (sum_sign op) ∷ self.new.tokens) × (1 + self.new.room ≡ self.old.room)))
            (λ f. Refusal f ((self.old.room ≡ 0) × (op : SumOperator) × (self.old.tokens ≡ sign (sum_sign op) ∷ drop 1 self.old.tokens))) }
    {
        let op = match self.peek() {
            Some(Token::Sign(Sign::Plus)) => SumOperator::Add,
            Some(Token::Sign(Sign::Minus)) => SumOperator::Subtract,
            _ => return Ok(None),
        };
        self.begin()?;
        Ok(Some(op))
    }

    /// Goes past an operator between factors, which is a node, if one is next.
    pub fn term_operator(&mut self) -> Result<Option<TermOperator>, Fault<ShapeFault>>
        ensures { MatchResult result
            (λ found. MatchOption found
            ((self.new ≡ self.old) × NoOperator term_sign self.old.tokens)
            (λ op. (self.old.tokens ≡ sign (term_sign op) ∷ self.new.tokens) × (1 + self.new.room ≡ self.old.room)))
            (λ f. Refusal f ((self.old.room ≡ 0) × (op : TermOperator) × (self.old.tokens ≡ sign (term_sign op) ∷ drop 1 self.old.tokens))) }
    {
        let op = match self.peek() {
            Some(Token::Sign(Sign::Star)) => TermOperator::Multiply,
            Some(Token::Sign(Sign::Slash)) => TermOperator::Divide,
            Some(Token::Sign(Sign::Percent)) => TermOperator::Remainder,
            _ => return Ok(None),
        };
        self.begin()?;
        Ok(Some(op))
    }

    /// Goes past a minus, which is a node, if one is next.
    pub fn minus(&mut self) -> Result<bool, Fault<ShapeFault>>
        ensures { MatchResult result
            (λ found. MatchBool found
            ((self.old.tokens ≡ sign Minus ∷ self.new.tokens) × (1 + self.new.room ≡ self.old.room))
            ((self.new ≡ self.old) × NoSign Minus self.old.tokens))
            (λ f. Refusal f (self.old.room ≡ 0)) }
    {
        if !matches!(self.peek(), Some(Token::Sign(Sign::Minus))) {
            return Ok(false);
        }
        self.begin()?;
        Ok(true)
    }

    /// Checks that no token is left.
    pub fn end(&self) -> Result<(), Fault<ShapeFault>>
        ensures { MatchResult result (λ _. self.now.tokens ≡ []) (λ f. Refusal f (self.now.tokens ≢ [])) }
    {
        match self.peek() {
            None => Ok(()),
            Some(_) => Err(self.unexpected()),
        }
    }
}
