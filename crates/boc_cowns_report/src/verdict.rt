// What holds the rows back.

ghost use Rattle.std.specs.Prelude.{◌≡◌, ◌++◌, ◌<◌, ◌^◌, OnOk};
ghost use Rattle.boc_names.specs.Names.{texts_of};
ghost use Rattle.boc_order.specs.Least.{start_or_0};
ghost use Rattle.boc_cowns.specs.Hot.{busy_until};
ghost use Rattle.boc_cowns_report.specs.CownsTexts.{by_cowns_text, by_last_text, is_late, is_most, last_busy, late_text, load_text, order_text, part_text};
ghost use Rattle.boc_cowns_report.specs.CownsTexts.{readers_text, reads_text, shared_text, span_with_text, spawns_text, verdict_text};

use boc_cowns::{HotCown, HotCowns};
use boc_names::{Names, text_at};
use boc_plans::sharing::Sharing;
use boc_text::put_number;
use std::alloc::AllocError;

// The spawns, or a cown, are what holds the rows back from this many of 100 ticks of the span on.
const MOST: u128 = 75;

// Returns whether these are that many ticks of the span.
fn is_most(ticks: u64, span: u64) -> bool
    ensures { result ≡ is_most ticks span }
{
    u128::from(ticks) * 100 >= u128::from(span) * MOST
}

// Returns whether this many of 100 of the ticks by which the span is above what the spawns alone need are before a tick.
fn is_late(tick: u128, spawns: u64, span: u64) -> bool
    requires { tick < 2 ^ 65 }
    ensures { result ≡ is_late tick spawns span }
{
    tick * 100 >= u128::from(span) * MOST + u128::from(spawns) * (100 - MOST)
}

// Returns a tick before which no row that wrote a cown starts, in whatever order.
fn held_from(own: &HotCown) -> u64
    ensures { result ≡ start_or_0 own.now.from }
{
    own.from.unwrap_or(0)
}

// Returns a tick before which the rows that wrote a cown are not all done, in whatever order.
fn busy_until(own: &HotCown) -> u128
    ensures is { result ≡ busy_until own.now }
    ensures low { result < 2 ^ 65 }
{
    u128::from(held_from(own)) + u128::from(own.held)
}

// Returns of a cown and some others the one that is busy until the latest tick, and of several the first.
fn last_busy(own: HotCown, others: &[HotCown]) -> HotCown
    ensures { result ≡ last_busy own others.now }
{
    match others {
        [] => own,
        [next, others @ ..] => {
            let last = if busy_until(&own) < busy_until(next) {
                *next
            } else {
                own
            };
            last_busy(last, others)
        }
    }
}

// Appends the spawns to a text, which need so long alone that no cown is to blame.
fn put_spawns(text: &mut Vec<u8>, hot: &HotCowns) -> Result<(), AllocError>
    ensures { OnOk result (text.new.items ≡ text.old.items ++ spawns_text hot.now) }
{
    text.extend_from_slice(b"spawns: they alone need ")?;
    put_number(text, hot.least.spawns)?;
    text.extend_from_slice(b" of ")?;
    put_number(text, hot.span)?;
    text.extend_from_slice(b" ticks; spawn earlier, or do less")?;
    Ok(())
}

// Appends to a text for how much of the span a cown is held.
fn put_part(
    text: &mut Vec<u8>,
    names: &Names,
    hot: &HotCowns,
    own: HotCown,
) -> Result<(), AllocError>
    ensures { OnOk result (text.new.items ≡ text.old.items ++ part_text names.now hot.now own) }
{
    text.extend_from_slice(b"load: ")?;
    text.extend_from_slice(text_at(&names.cowns, own.cown as usize))?;
    text.extend_from_slice(b" is held ")?;
    put_number(text, own.held)?;
    text.extend_from_slice(b" of ")?;
    put_number(text, hot.span)
}

// Appends the cown that is held for long to a text.
fn put_load(
    text: &mut Vec<u8>,
    names: &Names,
    hot: &HotCowns,
    own: HotCown,
) -> Result<(), AllocError>
    ensures { OnOk result (text.new.items ≡ text.old.items ++ load_text names.now hot.now own) }
{
    put_part(text, names, hot, own)?;
    text.extend_from_slice(b" ticks; split it, or shorten what holds it")?;
    Ok(())
}

// Appends the order to a text, where no cown is held for longer than this one.
fn put_order(text: &mut Vec<u8>, hot: &HotCowns, own: HotCown) -> Result<(), AllocError>
    ensures { OnOk result (text.new.items ≡ text.old.items ++ order_text hot.now own) }
{
    text.extend_from_slice(b"order: no cown is held for more than ")?;
    put_number(text, own.held)?;
    text.extend_from_slice(b" of ")?;
    put_number(text, hot.span)?;
    text.extend_from_slice(b" ticks; another order of the behaviours may end sooner")?;
    Ok(())
}

// Appends the cown that keeps every order from an end before late to a text, and the tick before which no row that wrote it starts.
fn put_late(
    text: &mut Vec<u8>,
    names: &Names,
    hot: &HotCowns,
    own: HotCown,
) -> Result<(), AllocError>
    ensures { OnOk result (text.new.items ≡ text.old.items ++ late_text names.now hot.now own) }
{
    put_part(text, names, hot, own)?;
    text.extend_from_slice(b" ticks, none of them before tick ")?;
    put_number(text, held_from(&own))?;
    text.extend_from_slice(b"; spawn earlier, split it, or shorten what holds it")?;
    Ok(())
}

// Appends to a text what of the cowns holds the rows back, where the one is held longest, and the other busy until the latest tick.
fn put_by_last(
    text: &mut Vec<u8>,
    names: &Names,
    hot: &HotCowns,
    own: HotCown,
    last: HotCown,
) -> Result<(), AllocError>
    ensures { OnOk result (text.new.items ≡ text.old.items ++ by_last_text names.now hot.now own last) }
{
    if is_late(busy_until(&last), hot.least.spawns, hot.span) {
        put_late(text, names, hot, last)
    } else {
        put_order(text, hot, own)
    }
}

// Appends to a text what of the cowns holds the rows back, where this one is held longest, and these are the others.
fn put_by_cowns(
    text: &mut Vec<u8>,
    names: &Names,
    hot: &HotCowns,
    own: HotCown,
    others: &[HotCown],
) -> Result<(), AllocError>
    ensures { OnOk result (text.new.items ≡ text.old.items ++ by_cowns_text names.now hot.now own others.now) }
{
    if is_most(own.held, hot.span) {
        put_load(text, names, hot, own)
    } else {
        put_by_last(text, names, hot, own, last_busy(own, others))
    }
}

/// Appends to a text what holds the rows back. `AllocError` says that memory was refused.
pub fn put_verdict(text: &mut Vec<u8>, names: &Names, hot: &HotCowns) -> Result<(), AllocError>
    ensures { OnOk result (text.new.items ≡ text.old.items ++ verdict_text names.now hot.now hot.now.cowns.items) }
{
    match hot.cowns.as_slice() {
        [] => put_spawns(text, hot),
        [own, others @ ..] => {
            if is_most(hot.least.spawns, hot.span) {
                put_spawns(text, hot)
            } else {
                put_by_cowns(text, names, hot, *own, others)
            }
        }
    }
}

// Appends to a text how many of the rows of a cown only read it.
fn put_reads(text: &mut Vec<u8>, names: &Names, own: HotCown) -> Result<(), AllocError>
    requires { own.wrote < own.rows }
    ensures { OnOk result (text.new.items ≡ text.old.items ++ reads_text names.now own) }
{
    text.extend_from_slice(b": ")?;
    put_number(text, u64::from(own.rows - own.wrote))?;
    text.extend_from_slice(b" of the ")?;
    put_number(text, u64::from(own.rows))?;
    text.extend_from_slice(b" rows of ")?;
    text.extend_from_slice(text_at(&names.cowns, own.cown as usize))?;
    text.extend_from_slice(b" only read it")
}

// Appends to a text how many of the rows of the first cown only read it, if any.
fn put_readers(text: &mut Vec<u8>, names: &Names, cowns: &[HotCown]) -> Result<(), AllocError>
    ensures { OnOk result (text.new.items ≡ text.old.items ++ readers_text names.now cowns.now) }
{
    match cowns {
        [own, ..] if own.wrote < own.rows => put_reads(text, names, *own),
        _ => Ok(()),
    }
}

// Appends the span with shared reads to a text.
fn put_span_with(text: &mut Vec<u8>, names: &Names, hot: &HotCowns) -> Result<(), AllocError>
    ensures { OnOk result (text.new.items ≡ text.old.items ++ span_with_text names.now hot.now) }
{
    text.extend_from_slice(b"with --shared-reads the span is ")?;
    put_number(text, hot.shared)?;
    put_readers(text, names, &hot.cowns)?;
    text.extend_from_slice(b"\n")?;
    Ok(())
}

/// Appends to a text what shared reads would save, where reads aren't shared and the span would be less. `AllocError` says that memory was refused.
pub fn put_shared(
    text: &mut Vec<u8>,
    names: &Names,
    sharing: Sharing,
    hot: &HotCowns,
) -> Result<(), AllocError>
    ensures { OnOk result (text.new.items ≡ text.old.items ++ shared_text names.now sharing hot.now) }
{
    match sharing {
        Sharing::Exclusive => {
            if hot.shared < hot.span {
                put_span_with(text, names, hot)
            } else {
                Ok(())
            }
        }
        Sharing::SharedReads => Ok(()),
    }
}
