// What is reported for a number of workers.

ghost use Rattle.std.specs.Prelude.{◌≡◌, ◌++◌, OnOk, decimal};
ghost use Rattle.boc_advice_report.specs.AdviceTexts.{count_text};
ghost use Rattle.boc_advice_report.specs.WorkersTexts.{busy_of, busy_text, chain_verdict, ends_text, is_most, least_of, part_text, plan_verdict};
ghost use Rattle.boc_advice_report.specs.WorkersTexts.{saves_text, share_of, share_text, verdict_text, workers_text, workers_verdict};

use boc_text::put_number;
use boc_why_report::workers_word;
use itoa::Buffer;
use std::alloc::AllocError;

/// What some rows take by some workers. All times are ticks.
#[derive(Clone, Copy, PartialEq, Eq, Debug)]
pub struct ForWorkers {
    /// How many workers there are.
    pub p: u32,
    /// The ticks of all rows together.
    pub work: u64,
    /// The end of the earliest plan.
    pub span: u64,
    /// The end of the greedy plan.
    pub end: u64,
}

// From this many of 100 ticks of the end on the work, or the span, is what holds the rows back.
const MOST: u128 = 90;

impl ForWorkers {
    // Returns how much of the work each worker has, rounded up; nothing where there is none.
    fn share(&self) -> u64
        ensures { result ≡ share_of self.now }
    {
        if self.p == 0 {
            return 0;
        }
        self.work.div_ceil(u64::from(self.p))
    }

    // Returns a tick before which no plan for the workers ends.
    fn least(&self) -> u64
        ensures { result ≡ least_of self.now }
    {
        self.share().max(self.span)
    }

    // Returns for how much of the time the workers are busy, in percent, rounded down.
    fn busy(&self) -> u128
        ensures { result ≡ busy_of self.now }
    {
        let time = u128::from(self.p) * u128::from(self.end);
        if time == 0 {
            return 0;
        }
        u128::from(self.work) * 100 / time
    }
}

// Returns whether these are most of the ticks of an end.
fn is_most(ticks: u64, end: u64) -> bool
    ensures { result ≡ is_most ticks end }
{
    u128::from(ticks) * 100 >= u128::from(end) * MOST
}

// Appends a number of up to 128 bits to a text.
fn put_large(text: &mut Vec<u8>, number: u128) -> Result<(), AllocError>
    ensures { OnOk result (text.new.items ≡ text.old.items ++ decimal number) }
{
    text.extend_from_slice(Buffer::new().format(number).as_bytes())
}

/// Appends a number of workers to a text.
pub(crate) fn put_count(text: &mut Vec<u8>, workers: u32) -> Result<(), AllocError>
    ensures { OnOk result (text.new.items ≡ text.old.items ++ count_text workers) }
{
    put_number(text, u64::from(workers))?;
    text.extend_from_slice(workers_word(workers).as_bytes())
}

// Appends to a text when the greedy plan ends, and a tick before which no plan for the workers does.
fn put_ends(text: &mut Vec<u8>, own: &ForWorkers) -> Result<(), AllocError>
    ensures { OnOk result (text.new.items ≡ text.old.items ++ ends_text own.now) }
{
    put_count(text, own.p)?;
    text.extend_from_slice(b"   end ")?;
    put_number(text, own.end)?;
    text.extend_from_slice(b"   least ")?;
    put_number(text, own.least())?;
    Ok(())
}

// Appends to a text how much of the work each worker has.
fn put_share(text: &mut Vec<u8>, own: &ForWorkers) -> Result<(), AllocError>
    ensures { OnOk result (text.new.items ≡ text.old.items ++ share_text own.now) }
{
    text.extend_from_slice(b"   work/")?;
    put_number(text, u64::from(own.p))?;
    text.extend_from_slice(b" ")?;
    put_number(text, own.share())?;
    Ok(())
}

// Appends to a text for how much of the time the workers are busy.
fn put_busy(text: &mut Vec<u8>, own: &ForWorkers) -> Result<(), AllocError>
    ensures { OnOk result (text.new.items ≡ text.old.items ++ busy_text own.now) }
{
    text.extend_from_slice(b"   busy ")?;
    put_large(text, own.busy())?;
    text.extend_from_slice(b"%\n")?;
    Ok(())
}

/// Appends the line of some workers to a text. It has the end of the greedy plan, a tick before which no plan for them ends, how much of the work each has,
/// and for how much of the time they are busy. `AllocError` says that memory was refused.
pub fn put_workers(text: &mut Vec<u8>, own: &ForWorkers) -> Result<(), AllocError>
    ensures { OnOk result (text.new.items ≡ text.old.items ++ workers_text own.now) }
{
    put_ends(text, own)?;
    put_share(text, own)?;
    put_busy(text, own)?;
    Ok(())
}

// Appends two numbers of ticks to a text, the one of the other.
fn put_part(text: &mut Vec<u8>, ticks: u64, end: u64) -> Result<(), AllocError>
    ensures { OnOk result (text.new.items ≡ text.old.items ++ part_text ticks end) }
{
    put_number(text, ticks)?;
    text.extend_from_slice(b" of ")?;
    put_number(text, end)?;
    text.extend_from_slice(b" ticks; ")
}

// Appends to a text that the workers are what holds the rows back.
fn put_too_few(text: &mut Vec<u8>, own: &ForWorkers) -> Result<(), AllocError>
    ensures { OnOk result (text.new.items ≡ text.old.items ++ workers_verdict own.now) }
{
    let share = own.share();
    text.extend_from_slice(b"workers: the work alone takes ")?;
    put_count(text, own.p)?;
    text.push(b' ')?;
    put_part(text, share, own.end)?;
    text.extend_from_slice(b"a change that leaves the work as it is saves at most ")?;
    put_number(text, own.end.saturating_sub(share))?;
    Ok(())
}

// Appends to a text what more workers save at most.
fn put_more_workers(text: &mut Vec<u8>, saved: u64) -> Result<(), AllocError>
    ensures { OnOk result (text.new.items ≡ text.old.items ++ saves_text saved) }
{
    if saved == 0 {
        return text.extend_from_slice(b"nothing");
    }
    text.extend_from_slice(b"at most ")?;
    put_number(text, saved)
}

// Appends to a text that the chain is what holds the rows back.
fn put_chain_alone(text: &mut Vec<u8>, own: &ForWorkers) -> Result<(), AllocError>
    ensures { OnOk result (text.new.items ≡ text.old.items ++ chain_verdict own.now) }
{
    text.extend_from_slice(b"chain: the critical path takes ")?;
    put_part(text, own.span, own.end)?;
    text.extend_from_slice(b"more workers save ")?;
    put_more_workers(text, own.end.saturating_sub(own.span))
}

// Appends to a text that neither the workers nor the chain hold the rows back.
fn put_neither(text: &mut Vec<u8>, own: &ForWorkers) -> Result<(), AllocError>
    ensures { OnOk result (text.new.items ≡ text.old.items ++ plan_verdict own.now) }
{
    let least = own.least();
    text.extend_from_slice(b"plan: neither the work nor the critical path takes more than ")?;
    put_part(text, least, own.end)?;
    text.extend_from_slice(b"earlier spawns or another order may save up to ")?;
    put_number(text, own.end.saturating_sub(least))?;
    Ok(())
}

/// Appends to a text what holds the rows back, where there are this many workers: that they are too few, the chain, or neither. `AllocError` says that memory
/// was refused.
pub fn put_verdict(text: &mut Vec<u8>, own: &ForWorkers) -> Result<(), AllocError>
    ensures { OnOk result (text.new.items ≡ text.old.items ++ verdict_text own.now) }
{
    if is_most(own.share(), own.end) {
        put_too_few(text, own)?;
    } else if is_most(own.span, own.end) {
        put_chain_alone(text, own)?;
    } else {
        put_neither(text, own)?;
    }
    text.extend_from_slice(b"\n")
}
