// What the lock protects.

ghost use Rattle.std.specs.Prelude.{◌≡◌, ◌≢◌, ◌+◌, ◌≤◌, ◌↔◌, [], false, IfSome, IfNone, None, Some, IfOk, IfErr, IsOk, IsSome, IsErrOf, OnErr, OnOk, sum};
ghost use Rattle.boc_runs.specs.Records.{IsRecordOf};
ghost use Rattle.boc_runs.specs.Run.{config_of};
ghost use Rattle.boc_runs.specs.machine.AlongRows.{EndsSerially, cowns_of_rows, steps_of_rows};
ghost use Rattle.boc_runs.specs.machine.Steps.{members, opening_state};
ghost use Rattle.boc_dispatch.specs.Working.{Works};
ghost use Rattle.boc_workers.specs.Noting.{CanReachLimit, IsAtLimit, IsReached, MayNote, fault_of, noted_after, some_or, steps_made};
ghost use Rattle.boc_dispatch.specs.Told.{HasTold};
ghost use Rattle.boc_eval.specs.Instances.{AreRight};
ghost use Rattle.boc_workers.specs.declared.fault.RunFault.TheVariants as faults;

use crate::crew::RunAnswer;
use crate::fault::RunFault;
use crate::gate::Gate;
use crate::made::Made;
use boc_dispatch::{Dispatcher, OpenFault, Refusal, Tell, Turn, Worker};
use boc_eval::ToldRow;
use boc_program::program::Program;
use boc_registers::compiled::CompiledProgram;
use std::alloc::{AllocError, Global};
use std::marker::PhantomData;
use std::sync::ledger::{Book, Ledger, Share};

/// A dispatcher, the book of its steps, what is reported of rows that ended, and the first fault that was noted.
#[derive(Drop)]
pub struct Shared<'a, 'g, L: Ledger, G: Gate> {
    dispatcher: Dispatcher<'a>,
    book: Book<L>,
    tell: Tell,
    told: Vec<ToldRow>,
    fault: Option<RunFault>,
    gate: PhantomData<&'g G>,
    pub ghost reached: { IsReached dispatcher },
    pub ghost counted: { book.total ≡ dispatcher.state.steps },
    pub ghost are_right: { AreRight (members dispatcher.program dispatcher.state) told.items },
    pub ghost at_limit: { fault ≡ Some faults.Behaviours → IsAtLimit dispatcher },
    pub ghost not_held: { G.always_on → fault ≢ Some faults.Held },
}

// Appends the row whose end a worker has in hand to those reported, if it has to be reported. What is reported takes much memory, so the function that makes
// it is not put into a turn, which would clear that memory each time.
#[inline(always)]
fn tell_ending<'a>(
    told: &mut Vec<ToldRow>,
    tell: Tell,
    dispatcher: &Dispatcher<'a>,
    worker: &Worker<'a>,
) -> Result<(), AllocError>
    ensures ok { OnOk result (HasTold tell dispatcher.now worker.now.hand told.old.items told.new.items) }
    ensures err { OnErr result (told.new.items ≡ told.old.items) }
{
    if worker.tells(tell) {
        tell_row(told, tell, dispatcher, worker)
    } else {
        Ok(())
    }
}

#[inline(never)]
fn tell_row<'a>(
    told: &mut Vec<ToldRow>,
    tell: Tell,
    dispatcher: &Dispatcher<'a>,
    worker: &Worker<'a>,
) -> Result<(), AllocError>
    ensures ok { OnOk result (HasTold tell dispatcher.now worker.now.hand told.old.items told.new.items) }
    ensures err { OnErr result (told.new.items ≡ told.old.items) }
{
    worker.tell_ending(dispatcher, tell, told)
}

impl<'a, 'g, L: Ledger, G: Gate> Shared<'a, 'g, L, G> {
    /// Returns a dispatcher of the program in its opening state, with the book of its steps, and no fault noted. `AllocError` says
    /// that memory was refused.
    pub fn new(
        alloc: Global,
        program: &'a CompiledProgram<'a>,
        book: Book<L>,
        tell: Tell,
    ) -> Result<Shared<'a, 'g, L, G>, AllocError>
        requires { book.total ≡ 0 }
        ensures dispatcher { IfOk result (λ s. s.dispatcher ≡ record { program = program.now; state = opening_state program.now }) }
        ensures tell { IfOk result (λ s. s.tell ≡ tell) }
        ensures told { IfOk result (λ s. s.told.items ≡ []) }
        ensures fault { IfOk result (λ s. s.fault ≡ None) }
    {
        let dispatcher = Dispatcher::new(alloc, program)?;
        Ok(Shared {
            dispatcher,
            book,
            tell,
            told: Vec::new(alloc),
            fault: None,
            gate: PhantomData,
        })
    }

    /// Makes one turn of a worker, unless a fault is noted. First the row whose end it has in hand is appended to those reported, if it has to be reported.
    /// Where memory for that or the call is refused, the fault is noted.
    #[tactic(auto, using(crate::proofs::Reached::reached_on, crate::proofs::Reached::one_more_fits, boc_dispatch::proofs::Telling::right_on))]
    pub fn turn(&mut self, worker: &mut Worker<'a>, made: &mut Made<L>) -> Option<Turn>
        ensures works { IfSome result (λ t. Works self.old.dispatcher worker.old.hand t self.new.dispatcher worker.new.hand) }
        ensures number { worker.new.number ≡ worker.old.number }
        ensures counted { IfSome result (λ t. made.new.count ≡ made.old.count + steps_made t) }
        ensures tell { self.new.tell ≡ self.old.tell }
        ensures told { IsSome result → HasTold self.old.tell self.old.dispatcher worker.old.hand self.old.told.items self.new.told.items }
        ensures noted { IfSome result (λ t. (self.old.fault ≡ None) × (self.new.fault ≡ noted_after t)) }
        ensures none { IfNone result ((self.new.dispatcher ≡ self.old.dispatcher) × (self.new.told.items ≡ self.old.told.items) × (worker.new ≡ worker.old)
            × (made.new.count ≡ made.old.count) × (self.new.fault ≡ some_or self.old.fault faults.Memory)) }
    {
        if self.fault.is_some() {
            return None;
        }
        let Shared {
            dispatcher,
            book,
            tell,
            told,
            fault,
            gate: _,
        } = self;
        let Ok(()) = tell_ending(told, *tell, dispatcher, worker) else {
            *fault = Some(RunFault::Memory);
            return None;
        };
        let turn = worker.turn(dispatcher);
        match turn {
            Turn::Moved(_) => made.enter(book),
            Turn::Refused(refusal) => *fault = Some(fault_of_refusal(refusal)),
            _ => {}
        }
        Some(turn)
    }

    /// Returns whether a row is ready to be started.
    pub fn has_ready(&self) -> bool
        ensures { (result ≡ false) ↔ (self.now.dispatcher.state.ready ≡ []) }
    {
        self.dispatcher.has_ready()
    }

    /// Returns how many steps were made.
    pub(crate) fn steps(&self) -> u64
        ensures { result ≡ self.now.dispatcher.state.steps }
    {
        self.dispatcher.steps()
    }

    /// Notes a fault, unless one is noted already.
    pub fn note(&mut self, fault: RunFault)
        requires { MayNote G.always_on fault }
        ensures first { self.old.fault ≢ None → self.new.fault ≡ self.old.fault }
        ensures noted { self.old.fault ≡ None → self.new.fault ≡ Some fault }
        ensures dispatcher { self.new.dispatcher ≡ self.old.dispatcher }
        ensures told { (self.new.tell ≡ self.old.tell) × (self.new.told.items ≡ self.old.told.items) }
        ensures book { self.new.book.total ≡ self.old.book.total }
    {
        if self.fault.is_none() {
            self.fault = Some(fault);
        }
    }

    /// Returns the answer of a run of a program whose workers have ended, with how many steps each of them made and the whole ledger; or
    /// with why they were not all started.
    ///
    /// A dispatcher of another program is reported as a stranger, whatever was noted. Else the fault that was noted is answered, then
    /// that of the workers; and where there is none and some behaviour isn't gone yet, that the run is unfinished.
    pub fn close(
        self,
        program: &Program,
        crew: Result<(Vec<u64>, Share<L>), RunFault>,
    ) -> Result<RunAnswer, RunFault>
        requires ok { IfOk crew (λ r. (r.1.parts ≡ L.parts) × (r.1.amount ≡ sum r.0.items)) }
        requires err { IfErr crew (λ e. (e ≢ faults.Held) × (e ≢ faults.Behaviours)) }
        ensures stranger { self.entry.dispatcher.program ≢ program.now → IsErrOf result faults.Stranger }
        ensures noted { self.entry.dispatcher.program ≡ program.now → IfSome self.entry.fault (λ f. IsErrOf result f) }
        ensures record { IfOk result (λ a. IsRecordOf program.now a.record) }
        ensures ends { IfOk result (λ a. EndsSerially program.now a.record.events) }
        ensures told { IfOk result (λ a. (a.told.items ≡ self.entry.told.items) × AreRight (config_of program.now a.record.events).members a.told.items) }
        ensures was_ok { IsOk result → IsOk crew }
        ensures made { IfOk result (λ a. IfOk crew (λ r. a.made ≡ r.0)) }
        ensures steps { IfOk result (λ a. sum a.made.items ≡ steps_of_rows (cowns_of_rows a.record.events)) }
        ensures held { IfErr result (λ e. G.always_on → e ≢ faults.Held) }
        ensures behaviours { IfErr result (λ e. e ≡ faults.Behaviours → CanReachLimit program.now) }
    {
        let Shared {
            dispatcher,
            mut book,
            tell: _,
            told,
            fault,
            gate: _,
        } = self;
        let is_own = *dispatcher.program() == *program;
        if !is_own {
            return Err(RunFault::Stranger);
        }
        if let Some(fault) = fault {
            return Err(fault);
        }
        let (made, mut all) = crew?;
        book.audit(&mut all);
        match dispatcher.into_record() {
            Ok(record) => Ok(RunAnswer { record, told, made }),
            Err(_) => Err(RunFault::Unfinished),
        }
    }
}

// The fault that is noted for a refusal.
fn fault_of_refusal(refusal: Refusal) -> RunFault
    ensures { result ≡ fault_of refusal }
{
    match refusal {
        Refusal::Open(OpenFault::Behaviours) => RunFault::Behaviours,
        Refusal::Open(OpenFault::Memory) => RunFault::Memory,
        Refusal::Open(_) | Refusal::Finish(_) | Refusal::Unknown => RunFault::Stranger,
    }
}
