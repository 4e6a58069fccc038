//! A worker that serves one behaviour after another.

ghost use Rattle.std.specs.Prelude.{◌≡◌, ◌↔◌, ℕ, [], false, IfOk, IsTrue, None, OnErr, OnOk, length};

use crate::calls::{Advanced, Child, FinishFault, Job, Leaving, Left, OpenFault, Started, Tell};
use crate::dispatcher::Core;
use boc_chain::Chains;
use boc_eval::{Frame, Outcome, Spare, ToldRow};
use boc_program::body::EndStatus;
use boc_runs::step::Step;
use std::alloc::{AllocError, Global};

/// What a row's frame has to do next.
#[derive(Clone, Copy)]
enum Due {
    /// It must go on.
    Going,
    /// Its last wish must be opened.
    Wishing,
    /// Its last wish is being enqueued.
    Enqueuing(Child),
}

/// What a worker has in hand, of the row that it serves.
#[derive(Drop)]
enum Hand<'a> {
    /// Nothing: it serves no row, and the next step is a start.
    Nothing,
    /// A behaviour that was started, whose frame must be made.
    Started(Job<'a>),
    /// A row's frame, and what it has to do next.
    Framed(u32, Frame<'a>, Due),
    /// What a row's body gave that has ended.
    Done(u32, Outcome<'a>),
    /// A behaviour that releases its cowns.
    Leaving(Leaving),
}

/// A worker: its number, what it has in hand, and the memory of its last body for the next one.
#[derive(Drop)]
pub struct Worker<'a> {
    number: u32,
    hand: Hand<'a>,
    spare: Spare<'a>,
}

/// Why a worker's next call is refused.
#[derive(Clone, Copy, PartialEq, Eq, Debug)]
pub enum Refusal {
    Open(OpenFault),
    Finish(FinishFault),
    /// The dispatcher doesn't know the token.
    Unknown,
}

/// What a turn answers.
#[derive(Clone, Copy, PartialEq, Eq, Debug)]
pub enum Turn {
    /// This step was made.
    Moved(Step),
    /// The next step is blocked.
    Blocked,
    /// Nothing is ready.
    NoneReady,
    /// Every behaviour has ended and released its cowns.
    Quiet,
    /// The worker is to think first. Nothing was done.
    Thinks,
    /// The next call is refused. The worker keeps what it had.
    Refused(Refusal),
}

ghost use Rattle.boc_dispatch.specs.declared.worker.Due.{Due};
ghost use Rattle.boc_dispatch.specs.declared.worker.Due.TheVariants as dues;
ghost use Rattle.boc_dispatch.specs.declared.worker.Hand.TheVariants as hands;
ghost use Rattle.boc_runs.specs.machine.Sound.{IsSound};
ghost use Rattle.boc_dispatch.specs.Driving.{HandFits, KeepsFitting};
ghost use Rattle.boc_dispatch.specs.NextCalls.{HasNoThought, TellsCallOf};
ghost use Rattle.boc_dispatch.specs.Stepping.{CanTurn};
ghost use Rattle.boc_dispatch.specs.Underway.{Underway};
ghost use Rattle.boc_dispatch.specs.Told.{HasTold, IsTold, TellsEnding, TellsOf};
ghost use Rattle.boc_dispatch.specs.Working.{row_in, frame_of as frame_at_start, Enqueues, Goes, HasGiven, HasGoneOn, HasThought, IsDone, IsEnded, IsStarted};
ghost use Rattle.boc_dispatch.specs.Working.{Wishes, Works};
ghost use Rattle.boc_dispatch.specs.declared.calls.Child.{Child};
ghost use Rattle.boc_eval.specs.Frames.{UnderWay as Framed, last_wish_of};
ghost use Rattle.std.specs.Option.{option_map};

// Returns whether a row whose body gave this has to be reported.
fn is_told(tell: Tell, outcome: &Outcome<'_>) -> bool
    ensures { IsTrue result ↔ IsTold tell outcome.now }
{
    match tell {
        Tell::Nothing => false,
        Tell::All => true,
        Tell::Faulted => outcome.status() != EndStatus::Done,
    }
}

// Returns the offset of the wish of a frame that came last, if any has.
fn offset_of(frame: &Frame<'_>) -> Option<u32>
    ensures { result ≡ option_map (λ wish. wish.offset) (last_wish_of frame.now) }
{
    match frame.last_wish() {
        Some(wish) => Some(wish.offset),
        None => None,
    }
}

// Returns the frame of a behaviour that was started.
fn frame_of<'a>(
    alloc: Global,
    spare: &mut Spare<'a>,
    job: &Job<'a>,
) -> Result<Frame<'a>, AllocError>
    ensures { IfOk result (λ frame. frame ≡ frame_at_start job.now) }
{
    Frame::renewed(alloc, spare, job.body.duplicate(), &job.args, &job.inputs)
}

impl<'a> Worker<'a> {
    /// Returns a worker that serves no row yet.
    pub fn new(number: u32) -> Worker<'a>
        ensures { result ≡ record { number = number; hand = hands.Nothing; spare = None } }
    {
        Worker {
            number,
            hand: Hand::Nothing,
            spare: Spare::default(),
        }
    }

    /// Returns its number.
    pub fn number(&self) -> u32
        ensures { result ≡ self.now.number }
    {
        self.number
    }

    /// Returns the row that it serves, if any.
    pub fn row(&self) -> Option<u32>
        ensures { result ≡ row_in self.now.hand }
    {
        match &self.hand {
            Hand::Nothing => None,
            Hand::Started(job) => Some(job.row),
            Hand::Framed(_, _, Due::Enqueuing(child)) => Some(child.row),
            Hand::Framed(row, _, _) | Hand::Done(row, _) => Some(*row),
            Hand::Leaving(leaving) => Some(leaving.row),
        }
    }

    /// Makes the frame of a behaviour that was just started, or goes on with a frame whose wish was enqueued, up to the next
    /// wish or the end. At other times it does nothing. Only a new frame takes memory, and where that is refused the worker is
    /// as before.
    #[inline(always)]
    pub fn think(&mut self, alloc: Global) -> Result<(), AllocError>
        ensures thinks { HasThought self.old.hand result self.new.hand }
        ensures number { self.new.number ≡ self.old.number }
    {
        match &self.hand {
            Hand::Started(_) => take_up(alloc, &mut self.spare, &mut self.hand),
            Hand::Framed(_, _, due) => match *due {
                Due::Going => {
                    run_on(&mut self.hand);
                    Ok(())
                }
                _ => Ok(()),
            },
            _ => Ok(()),
        }
    }

    /// Returns whether it can move, once it has thought: its turn makes a step, or would if there were space for its row's next wish.
    pub fn can_move<C: Chains + Drop>(&self, core: &Core<'a, C>) -> bool
        requires sound { IsSound core.now.program core.now.state }
        requires fits { HandFits core.now self.now.hand }
        ensures { IsTrue result ↔ CanTurn core.now (row_in self.now.hand) }
    {
        match &self.hand {
            Hand::Nothing => core.has_ready(),
            Hand::Framed(_, _, due) => match due {
                Due::Enqueuing(child) => core.can_advance(child),
                _ => true,
            },
            Hand::Leaving(leaving) => core.can_leave(leaving),
            _ => true,
        }
    }

    /// Returns at how many ticks of its row its next call begins, once it has thought: at the offset of the row's next wish, or at the row's end. If it serves no
    /// row, or a call has begun and isn't over, there is none.
    pub fn call_at(&self) -> Option<u32>
        ensures { (u : Underway) → IsSound u.program u.state → HandFits u self.now.hand → HasNoThought self.now.hand
            → TellsCallOf u.program u.state (row_in self.now.hand) result }
    {
        match &self.hand {
            Hand::Framed(_, frame, due) => match due {
                Due::Wishing => offset_of(frame),
                _ => None,
            },
            Hand::Done(_, outcome) => Some(outcome.ticks()),
            _ => None,
        }
    }

    /// Returns whether its row's end comes next, and what the row is has to be reported.
    pub fn tells(&self, tell: Tell) -> bool
        ensures { IsTrue result ↔ TellsOf tell self.now.hand }
    {
        match &self.hand {
            Hand::Done(_, outcome) => is_told(tell, outcome),
            _ => false,
        }
    }

    // Returns what its row's behaviour is, where the row's end comes next and that has to be reported.
    fn ending<C: Chains + Drop>(&self, core: &Core<'a, C>, tell: Tell) -> Option<ToldRow>
        ensures { TellsEnding tell core.now self.now.hand result }
    {
        match &self.hand {
            Hand::Done(row, outcome) => {
                if is_told(tell, outcome) {
                    core.told(*row, outcome)
                } else {
                    None
                }
            }
            _ => None,
        }
    }

    /// Appends what its row is to what is reported, where the row's end comes next and that has to be reported. `AllocError` says that memory was refused; then
    /// nothing has changed.
    pub fn tell_ending<C: Chains + Drop>(
        &self,
        core: &Core<'a, C>,
        tell: Tell,
        told: &mut Vec<ToldRow>,
    ) -> Result<(), AllocError>
        ensures ok { OnOk result (HasTold tell core.now self.now.hand told.old.items told.new.items) }
        ensures err { OnErr result (told.new.items ≡ told.old.items) }
    {
        if let Some(row) = self.ending(core, tell) {
            told.push(row)?;
        }
        Ok(())
    }

    /// Makes the one call of the dispatcher that comes next. Where what the worker had in hand fitted the dispatcher, what it has
    /// then does.
    pub fn turn<C: Chains + Drop>(&mut self, core: &mut Core<'a, C>) -> Turn
        ensures works { Works core.old self.old.hand result core.new self.new.hand }
        ensures fits { KeepsFitting core.old self.old.hand core.new self.new.hand }
        ensures number { self.new.number ≡ self.old.number }
    {
        match &self.hand {
            Hand::Started(_) => Turn::Thinks,
            Hand::Framed(_, _, due) => match *due {
                Due::Going => Turn::Thinks,
                Due::Wishing => open(&mut self.hand, core),
                Due::Enqueuing(child) => advance(&mut self.hand, child, core),
            },
            Hand::Leaving(leaving) => {
                let leaving = *leaving;
                leave(&mut self.hand, leaving, core)
            }
            Hand::Done(..) => finish(&mut self.spare, &mut self.hand, core),
            Hand::Nothing => begin(&mut self.spare, &mut self.hand, core),
        }
    }
}

// Makes the frame of a behaviour that was started, which goes on.
#[inline(never)]
fn take_up<'a>(alloc: Global, spare: &mut Spare<'a>, hand: &mut Hand<'a>) -> Result<(), AllocError>
    requires { IsStarted hand.old }
    ensures { HasThought hand.old result hand.new }
{
    match hand {
        Hand::Started(job) => {
            let row = job.row;
            let mut frame = frame_of(alloc, spare, job)?;
            if frame.go_on() {
                *hand = Hand::Framed(row, frame, Due::Wishing);
            } else {
                *hand = Hand::Done(row, frame.into_outcome());
            }
            Ok(())
        }
        _ => unreachable!(),
    }
}

// A frame goes on to its next wish, or its end.
#[inline(never)]
fn run_on(hand: &mut Hand<'_>)
    requires { Goes hand.old }
    ensures { (row : ℕ) (f : Framed) → hand.old ≡ hands.Framed row f dues.Going → HasGoneOn row f hand.new }
{
    let has_wish = match hand {
        Hand::Framed(_, frame, _) => frame.go_on(),
        _ => unreachable!(),
    };
    if has_wish {
        set_due(hand, Due::Wishing);
    } else {
        end(hand);
    }
}

// Sets what a row's frame has to do next.
fn set_due(hand: &mut Hand<'_>, due: Due)
    ensures { (row : ℕ) (f : Framed) (before : Due) → hand.old ≡ hands.Framed row f before → hand.new ≡ hands.Framed row f due }
{
    if let Hand::Framed(_, _, own) = hand {
        *own = due;
    }
}

// A frame that has ended gives way to what its body gave.
fn end(hand: &mut Hand<'_>)
    requires { IsEnded hand.old }
    ensures { HasGiven hand.old hand.new }
{
    *hand = match std::mem::replace(hand, Hand::Nothing) {
        Hand::Framed(row, frame, _) => Hand::Done(row, frame.into_outcome()),
        _ => unreachable!(),
    };
}

// Makes the turn of a worker that serves no row. Where a body has ended, the next one begins at once in its memory.
fn begin<'a, C: Chains + Drop>(
    spare: &mut Spare<'a>,
    hand: &mut Hand<'a>,
    core: &mut Core<'a, C>,
) -> Turn
    requires { hand.old ≡ hands.Nothing }
    ensures works { Works core.old hand.old result core.new hand.new }
    ensures fits { KeepsFitting core.old hand.old core.new hand.new }
{
    if !spare.is_ready() {
        return begin_first(hand, core);
    }
    match core.start_on(spare) {
        Some((row, frame)) => {
            *hand = Hand::Framed(row, frame, Due::Going);
            Turn::Moved(Step::Start)
        }
        None => idle_turn(core),
    }
}

// Returns the turn of a worker that serves no row, where none is ready.
fn idle_turn<'a, C: Chains + Drop>(core: &Core<'a, C>) -> Turn
    requires { core.now.state.ready ≡ [] }
    ensures { Works core.now hands.Nothing result core.now hands.Nothing }
{
    if core.is_quiet() {
        Turn::Quiet
    } else {
        Turn::NoneReady
    }
}

// Makes the turn of a worker that serves no row, where no body of the worker has ended yet. Were it inlined, its caller would clear space for a job each time.
#[inline(never)]
fn begin_first<'a, C: Chains + Drop>(hand: &mut Hand<'a>, core: &mut Core<'a, C>) -> Turn
    requires { hand.old ≡ hands.Nothing }
    ensures works { Works core.old hand.old result core.new hand.new }
    ensures fits { KeepsFitting core.old hand.old core.new hand.new }
{
    match core.start() {
        Started::Job(job) => {
            *hand = Hand::Started(job);
            Turn::Moved(Step::Start)
        }
        Started::NoneReady => Turn::NoneReady,
        Started::Quiet => Turn::Quiet,
    }
}

// Makes the turn of a worker whose row wishes for a behaviour.
fn open<'a, C: Chains + Drop>(hand: &mut Hand<'a>, core: &mut Core<'a, C>) -> Turn
    requires { Wishes hand.old }
    ensures works { Works core.old hand.old result core.new hand.new }
    ensures fits { KeepsFitting core.old hand.old core.new hand.new }
{
    let opened = match &*hand {
        Hand::Framed(row, frame, _) => core.open(frame, *row),
        _ => unreachable!(),
    };
    match opened {
        Ok(child) => {
            set_due(hand, Due::Enqueuing(child));
            Turn::Moved(Step::Open)
        }
        Err(fault) => Turn::Refused(Refusal::Open(fault)),
    }
}

// Makes the turn of a worker whose row's wish is being enqueued.
fn advance<'a, C: Chains + Drop>(hand: &mut Hand<'a>, child: Child, core: &mut Core<'a, C>) -> Turn
    requires { Enqueues hand.old child }
    ensures works { Works core.old hand.old result core.new hand.new }
    ensures fits { KeepsFitting core.old hand.old core.new hand.new }
{
    match core.advance(&child) {
        Advanced::Moved(step) => Turn::Moved(step),
        Advanced::Blocked => Turn::Blocked,
        Advanced::Enqueued => {
            resume(hand, child);
            Turn::Moved(Step::Own)
        }
        Advanced::Unknown => Turn::Refused(Refusal::Unknown),
    }
}

// Lets a row's frame go on once its wish is enqueued.
fn resume(hand: &mut Hand<'_>, child: Child)
    ensures { (row : ℕ) (f : Framed) → hand.old ≡ hands.Framed row f (dues.Enqueuing child) → hand.new ≡ hands.Framed child.row f dues.Going }
{
    if let Hand::Framed(row, _, _) = hand {
        *row = child.row;
    }
    set_due(hand, Due::Going);
}

// Makes the turn of a worker whose row's body has ended.
fn finish<'a, C: Chains + Drop>(
    spare: &mut Spare<'a>,
    hand: &mut Hand<'a>,
    core: &mut Core<'a, C>,
) -> Turn
    requires { IsDone hand.old }
    ensures works { Works core.old hand.old result core.new hand.new }
    ensures fits { KeepsFitting core.old hand.old core.new hand.new }
{
    let finished = match &*hand {
        Hand::Done(row, outcome) => core.finish_by(*row, outcome),
        _ => unreachable!(),
    };
    match finished {
        Ok(released) => match released {
            Some(leaving) => {
                clear(spare, hand);
                *hand = Hand::Leaving(leaving);
                Turn::Moved(Step::Finish)
            }
            None => {
                clear(spare, hand);
                Turn::Moved(Step::Finish)
            }
        },
        Err(fault) => Turn::Refused(Refusal::Finish(fault)),
    }
}

// Clears the hand, and keeps the memory of the body that has ended for the next.
fn clear<'a>(spare: &mut Spare<'a>, hand: &mut Hand<'a>)
    requires { IsDone hand.old }
    ensures { hand.new ≡ hands.Nothing }
{
    match std::mem::replace(hand, Hand::Nothing) {
        Hand::Done(_, outcome) => outcome.leave(spare),
        _ => unreachable!(),
    }
}

// Makes the turn of a worker whose row releases its cowns.
fn leave<'a, C: Chains + Drop>(
    hand: &mut Hand<'a>,
    leaving: Leaving,
    core: &mut Core<'a, C>,
) -> Turn
    requires { hand.old ≡ hands.Leaving leaving }
    ensures works { Works core.old hand.old result core.new hand.new }
    ensures fits { KeepsFitting core.old hand.old core.new hand.new }
{
    match core.leave(&leaving) {
        Left::Moved(step) => Turn::Moved(step),
        Left::Blocked => Turn::Blocked,
        Left::Gone(step) => {
            *hand = Hand::Nothing;
            Turn::Moved(step)
        }
        Left::Unknown => Turn::Refused(Refusal::Unknown),
    }
}
