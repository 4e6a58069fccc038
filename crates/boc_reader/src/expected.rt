// What the grammar and the limits allow where the shape of a text goes wrong.

ghost use Rattle.std.specs.Prelude.{◌≤◌, length};

use crate::lex::read_tokens;
use crate::room::Room;
use crate::stray::{first_wrong, goes_on, may_stand, read};
use crate::token::{Placed, Token};
use crate::wanted::Wanted;
use std::alloc::{AllocError, Global};

/// What is allowed at the first place where the shape of a text goes wrong.
#[derive(Drop, Debug)]
pub struct Expected<'a> {
    tokens: Vec<Placed<'a>>,
    before: usize,
    wanted: Vec<Wanted>,
    room: Room,
    ghost within: { before ≤ length tokens.items },
}

impl<'a> Expected<'a> {
    ghost use Rattle.std.specs.Prelude.{◌≡◌, ◌∷◌, ◌++◌, [], List, ℕ, None, true, false, drop, reverse, IfOk, MatchOption};
    ghost use Rattle.boc_reader.specs.Placed.{token_of};
    ghost use Rattle.boc_reader.specs.Wanted.{wanted_behind};
    ghost use Rattle.boc_reader.specs.WrongShape.{AreWhole, BeginTree};
    ghost use Rattle.boc_reader.specs.Expected.{IsExpected, IsRight, front_of, is_allowed, is_lacked, may_end};

    /// Finds what is allowed where the shape of a text goes wrong first; nothing if the text has no tokens, or those of a program.
    pub fn of_text(alloc: Global, text: &'a [u8]) -> Result<Option<Expected<'a>>, AllocError>
        ensures { IfOk result (λ found. MatchOption found (IsRight text.now) (λ expected. IsExpected expected text.now)) }
    {
        let Some(tokens) = read_tokens(alloc, text)? else {
            return Ok(None);
        };
        match first_wrong(alloc, &tokens)? {
            Some(stray) => Ok(Some(Expected {
                tokens,
                before: stray.before,
                wanted: stray.wanted,
                room: stray.room,
            })),
            None => Ok(None),
        }
    }

    /// Returns the token that is found there and those after it, or none at the end of the text.
    pub fn found(&self) -> &[Placed<'a>]
        ensures { result.now ≡ drop self.now.before self.now.tokens.items }
    {
        &self.tokens[self.before..]
    }

    /// Says whether a token is allowed there, instead of what is found.
    pub fn allows(&self, token: Token<'_>) -> bool
        ensures { result ≡ is_allowed self.now token.entry }
    {
        may_stand(&self.wanted, token, self.found(), self.room)
    }

    /// Says whether a token is allowed there, and after it what is found: that token, or the end of the text.
    pub fn lacks(&self, alloc: Global, token: Token<'_>) -> Result<bool, AllocError>
        ensures { IfOk result (λ lacks. lacks ≡ is_lacked self.now token.entry) }
    {
        let mut wanted = Vec::from_slice(alloc, &self.wanted)?;
        match read(&mut wanted, token, self.found(), self.room)? {
            Ok(room) => Ok(goes_on(&wanted, self.found(), room)),
            Err(_) => Ok(false),
        }
    }

    /// Says whether the text may end there.
    pub fn may_end(&self) -> bool
        ensures { result ≡ may_end self.now }
    {
        self.wanted.is_empty()
    }

    /// A token that is allowed there begins a program with those before it, whatever the limits; one that the grammar refuses there begins none. Only a
    /// text that may end there is all of a program.
    pub fn programs_begin_so()
        ensures allowed { (e : Expected) (text : List ℕ) (t : Token) → IsExpected e text → is_allowed e t ≡ true → BeginTree (front_of e ++ token_of t ∷ []) }
        ensures refused { (e : Expected) (text : List ℕ) (t : Token) → IsExpected e text → wanted_behind (token_of t) (reverse e.wanted.items) ≡ None
            → BeginTree (front_of e ++ token_of t ∷ []) → ⊥ }
        ensures ended { (e : Expected) (text : List ℕ) → IsExpected e text → may_end e ≡ true → AreWhole (front_of e) }
        ensures unended { (e : Expected) (text : List ℕ) → IsExpected e text → may_end e ≡ false → AreWhole (front_of e) → ⊥ }
    {}
}
