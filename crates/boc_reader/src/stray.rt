// Where a fault of the shape of a text is.

ghost use Rattle.std.specs.Prelude.{◌≡◌, ◌++◌, [], ◌∷◌, drop, take, reverse, is_some, IfOk, OnOk, MatchResult, MatchOption, Some};
ghost use Rattle.boc_reader.specs.Placed.{ArePlaced, AreReached, token_of, tokens_of};
ghost use Rattle.boc_reader.specs.Wanted.{wanted_behind};
ghost use Rattle.boc_reader.specs.Room.{goes_on, within_behind};
ghost use Rattle.boc_reader.specs.Grammar.{NoShape};
ghost use Rattle.boc_reader.specs.WrongShape.{IsReading, IsStray, IsWrongThere, ShapeFaultStandsAt, StandAt};
ghost use Rattle.boc_reader.specs.Tokens.{tokens_of_text};

use crate::fault::ShapeFault;
use crate::room::Room;
use crate::token::{Placed, Token};
use crate::wanted::{Wanted, behind};
use std::alloc::{AllocError, Global};

/// Returns the first fault of the shape of a text that has these tokens, and its place. That is the first token that the grammar doesn't allow there, or with
/// which a limit is passed; or the end of the text, where more is wanted after all of them.
pub(crate) fn first_fault(
    alloc: Global,
    text: &[u8],
    tokens: &[Placed<'_>],
) -> Result<(ShapeFault, usize), AllocError>
    requires has_tokens { tokens_of_text text.now ≡ Some (tokens_of tokens.now) }
    requires placed { ArePlaced text.now tokens.now }
    requires reached { AreReached text.now [] tokens.now }
    requires none { NoShape (tokens_of tokens.now) }
    ensures { IfOk result (λ found. ShapeFaultStandsAt found.0 text.now found.1) }
{
    match first_wrong(alloc, tokens)? {
        Some(stray) => Ok((stray.fault, place_of(text, tokens, stray.before))),
        None => unreachable!(),
    }
}

// Returns the byte at which the token after `before` others begins, or the end of the text after all of them.
fn place_of(text: &[u8], tokens: &[Placed<'_>], before: usize) -> usize
    requires placed { ArePlaced text.now tokens.now }
    requires reached { AreReached text.now [] tokens.now }
    ensures { StandAt text.now result (take before (tokens_of tokens.now)) (drop before (tokens_of tokens.now)) }
{
    match tokens.get(before) {
        Some(token) => token.at,
        None => text.len(),
    }
}

/// Where the tokens of a text go wrong first: what is wrong there, how many of them come before that, what is wanted after those, the last first, and what
/// the limits leave.
#[derive(Drop, Debug)]
pub(crate) struct Stray {
    pub(crate) fault: ShapeFault,
    pub(crate) before: usize,
    pub(crate) wanted: Vec<Wanted>,
    pub(crate) room: Room,
}

/// Finds what is wrong with the shape of these tokens first; nothing where they are those of a program.
pub(crate) fn first_wrong(alloc: Global, tokens: &[Placed<'_>]) -> Result<Option<Stray>, AllocError>
    ensures { IfOk result (λ found. MatchOption found (NoShape (tokens_of tokens.now) → ⊥) (λ stray. IsStray stray (tokens_of tokens.now))) }
{
    let mut wanted = Vec::new(alloc);
    wanted.push(Wanted::Cowns)?;
    let mut room = Room::of_text();
    for (before, placed) in tokens.iter().enumerate() {
        match read(&mut wanted, placed.token, &tokens[before + 1..], room)? {
            Ok(left) => room = left,
            Err(fault) => {
                return Ok(Some(Stray {
                    fault,
                    before,
                    wanted,
                    room,
                }));
            }
        }
    }
    if wanted.is_empty() {
        return Ok(None);
    }
    Ok(Some(Stray {
        fault: ShapeFault::Unexpected,
        before: tokens.len(),
        wanted,
        room,
    }))
}

/// How a token is read: what is wanted after it, before this much of what was wanted, and what the limits leave.
#[derive(Clone, Copy, Debug)]
pub(crate) struct Reading {
    then: &'static [Wanted],
    kept: usize,
    room: Room,
}

/// Finds how a token is read before others, where all this is wanted, the last first, and the limits leave this; or what is wrong with the token.
pub(crate) fn step(
    wanted: &[Wanted],
    token: Token<'_>,
    after: &[Placed<'_>],
    room: Room,
) -> Result<Reading, ShapeFault>
    ensures { MatchResult result (λ reading. IsReading reading (token_of token.entry) (tokens_of after.now) wanted.now room)
        (λ fault. IsWrongThere fault (token_of token.entry) (tokens_of after.now) (reverse wanted.now) room) }
{
    let Some((next, others)) = wanted.split_last() else {
        return Err(ShapeFault::Unexpected);
    };
    match behind(token, *next) {
        Some(then) => match room.left_behind(token, after, *next) {
            Some(room) => Ok(Reading {
                then,
                kept: others.len(),
                room,
            }),
            None => Err(ShapeFault::TooMany),
        },
        None if next.may_be_left_out() => step(others, token, after, room),
        None => Err(ShapeFault::Unexpected),
    }
}

/// Reads a token before others, where all this is wanted, the last first, and the limits leave this. It leaves what is wanted after the token, and returns
/// what the limits leave there; or what is wrong with the token, and then all stays wanted that was.
pub(crate) fn read(
    wanted: &mut Vec<Wanted>,
    token: Token<'_>,
    after: &[Placed<'_>],
    room: Room,
) -> Result<Result<Room, ShapeFault>, AllocError>
    ensures { IfOk result (λ read. MatchResult read
        (λ left. (wanted_behind (token_of token.entry) (reverse wanted.old.items) ≡ Some (reverse wanted.new.items))
        × (within_behind (token_of token.entry) (tokens_of after.now) (reverse wanted.old.items) room
        ≡ Some (record { wanted = reverse wanted.new.items; room = left })))
        (λ fault. IsWrongThere fault (token_of token.entry) (tokens_of after.now) (reverse wanted.old.items) room
        × (wanted.new.items ≡ wanted.old.items))) }
{
    match step(wanted, token, after, room) {
        Ok(reading) => {
            wanted.truncate(reading.kept);
            want(wanted, reading.then)?;
            Ok(Ok(reading.room))
        }
        Err(fault) => Ok(Err(fault)),
    }
}

/// Says whether a token is allowed before these, where all this is wanted, the last first, and the limits leave this.
pub(crate) fn may_stand(
    wanted: &[Wanted],
    token: Token<'_>,
    after: &[Placed<'_>],
    room: Room,
) -> bool
    ensures { result ≡ is_some (within_behind (token_of token.entry) (tokens_of after.now) (reverse wanted.now) room) }
{
    step(wanted, token, after, room).is_ok()
}

/// Says whether the first of these tokens is allowed where all this is wanted, the last first, and the limits leave this; or, without a token, whether the
/// text may end there.
pub(crate) fn goes_on(wanted: &[Wanted], found: &[Placed<'_>], room: Room) -> bool
    ensures { result ≡ goes_on (tokens_of found.now) (record { wanted = reverse wanted.now; room = room }) }
{
    match found.first() {
        Some(found) => may_stand(wanted, found.token, &[], room),
        None => wanted.is_empty(),
    }
}

// Wants all of these first, one after the other.
fn want(wanted: &mut Vec<Wanted>, then: &[Wanted]) -> Result<(), AllocError>
    ensures { OnOk result (reverse wanted.new.items ≡ then.now ++ reverse wanted.old.items) }
{
    wanted.extend(then.iter().rev().copied())
}
