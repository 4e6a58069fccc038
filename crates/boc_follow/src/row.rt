// The rows of a run of a program, each with its behaviour and, while it runs, with what its body does.

ghost use Rattle.std.specs.Prelude.{◌≡◌, ◌<◌, ◌↔◌, [], ◌∷◌, ◌++◌, None, Some, IsSome};
ghost use Rattle.std.specs.Prelude.{IsTrue, MatchOption, OnErr, OnOk, length, map, option_map, slice_get, vec_len, vec_capacity};
ghost use Rattle.std.specs.Option.{option_copied};
ghost use Rattle.boc_program.specs.Rising.{rising};
ghost use Rattle.boc_program.specs.Changed.{changed};
ghost use Rattle.boc_runs.specs.Serial.{behaviour_of, main_behaviour};
ghost use Rattle.boc_eval.specs.Wishes.{wish_of};
ghost use Rattle.boc_follow.specs.Standings.{Standing, standing_in, fresh, next_of, next_at, with_one_more, started_in};
ghost use Rattle.boc_follow.specs.Standings.{over_in, written_by, written_at, EndsSo, NoChild, IsChild, CanStart, CanWrite};

use crate::effect::{Effect, effect_of};
use boc_eval::{Instance, Spare, SpawnWish};
use boc_program::body::EndStatus;
use boc_program::cowns::rising_cowns;
use boc_program::short::CownNo;
use boc_registers::compiled::CompiledProgram;
use boc_runs::values::{inputs_of, write_outputs};
use std::alloc::{AllocError, Global};

/// What is kept of a row.
#[derive(Drop, Debug)]
pub struct FollowedRow {
    /// What it is.
    pub instance: Instance,
    /// While it runs, what its body does.
    pub effect: Option<Box<Effect>>,
}

impl FollowedRow {
    /// Main, which was just spawned.
    pub fn main() -> FollowedRow
        ensures { standing_in result ≡ fresh main_behaviour }
    {
        FollowedRow {
            instance: Instance::main(),
            effect: None,
        }
    }

    /// The behaviour that is wished for, which was just spawned.
    pub fn wished(wish: &SpawnWish) -> FollowedRow
        ensures { standing_in result ≡ fresh (behaviour_of (wish_of wish.now)) }
    {
        FollowedRow {
            instance: Instance::of(wish),
            effect: None,
        }
    }

    /// The next wish of its body, while it runs.
    pub fn next_wish(&self) -> Option<&SpawnWish>
        ensures { option_map wish_of (option_copied result) ≡ next_of (standing_in self.now) }
    {
        let effect = self.effect.as_ref()?;
        effect.wishes.get(effect.spawned)
    }

    /// The next wish of its body was spawned.
    pub fn count_spawn(&mut self)
        requires { IsSome (next_of (standing_in self.old)) }
        ensures { standing_in self.new ≡ with_one_more (standing_in self.old) }
    {
        if let Some(effect) = &mut self.effect {
            effect.spawned += 1;
        }
    }

    /// Starts on the values that its cowns have now.
    pub fn start<'a>(
        &mut self,
        alloc: Global,
        spare: &mut Spare<'a>,
        program: &'a CompiledProgram<'a>,
        values: &[i64],
    ) -> Result<(), AllocError>
        requires { CanStart program.now (length values.now) (standing_in self.old) }
        ensures ok { OnOk result (standing_in self.new ≡ started_in program.now values.now (standing_in self.old)) }
        ensures err { OnErr result (standing_in self.new ≡ standing_in self.old) }
    {
        let instance = &self.instance;
        let body = program.body(instance.kind);
        let inputs = inputs_of(&instance.cowns, values);
        let effect = effect_of(alloc, spare, body, &instance.args, &inputs)?;
        self.effect = Some(Box::new(alloc, effect)?);
        Ok(())
    }

    /// It runs, all wishes of its body were spawned, and its body ends so.
    pub fn ends_so(&self, ticks: u32, status: EndStatus, written: &[CownNo]) -> bool
        ensures { IsTrue result ↔ EndsSo (standing_in self.now) ticks status written.now }
    {
        match &self.effect {
            Some(effect) => effect.is_spent() && effect.gives(ticks, status, written),
            None => false,
        }
    }

    /// Ends, and writes its body's outputs to its cowns.
    pub fn end(&mut self, values: &mut [i64])
        requires { CanWrite (length values.old) (standing_in self.old) }
        ensures over { standing_in self.new ≡ over_in (standing_in self.old) }
        ensures values { values.new ≡ written_by (standing_in self.old) values.old }
    {
        if let Some(effect) = self.effect.take() {
            write_outputs(values, &self.instance.cowns, &effect.outputs);
        }
    }
}

// The wish is for this offset and these cowns, which stand in rising order.
fn is_for(wish: &SpawnWish, offset: u32, cowns: &[CownNo]) -> bool
    ensures { IsTrue result ↔ ((offset ≡ wish.now.offset) × (cowns.now ≡ rising wish.now.cowns.items)) }
{
    wish.offset == offset && cowns == rising_cowns(&wish.cowns).as_slice()
}

/// The row that such a spawn makes, if the behaviour that comes next is for that: main where no row is there yet, else
/// the next wish of the parent.
pub fn child_of(
    rows: &[FollowedRow],
    parent: u32,
    offset: u32,
    cowns: &[CownNo],
) -> Option<FollowedRow>
    ensures { MatchOption result
        (NoChild (map standing_in rows.now) parent offset cowns.now)
        (λ row. IsChild (map standing_in rows.now) parent offset cowns.now (standing_in row)) }
{
    if rows.is_empty() {
        return Some(FollowedRow::main());
    }
    let wish = rows.get(parent as usize)?.next_wish()?;
    if is_for(wish, offset, cowns) {
        Some(FollowedRow::wished(wish))
    } else {
        None
    }
}

// The next wish of this row, if that is there, was spawned.
fn count_spawn_of(rows: &mut [FollowedRow], parent: u32)
    requires { (s : Standing) → slice_get (map standing_in rows.old) parent ≡ Some s → IsSome (next_of s) }
    ensures { map standing_in rows.new ≡ changed (map standing_in rows.old) parent with_one_more (slice_get (map standing_in rows.old) parent) }
{
    if (parent as usize) < rows.len() {
        rows[parent as usize].count_spawn();
    }
}

/// Puts a row after the others, for which there is room. It is the next wish of its parent, if that is there.
pub fn put_child(rows: &mut Vec<FollowedRow>, parent: u32, child: FollowedRow)
    requires next { (s : Standing) → slice_get (map standing_in rows.old.items) parent ≡ Some s → IsSome (next_of s) }
    requires room { vec_len rows.old < vec_capacity rows.old }
    ensures { map standing_in rows.new.items
        ≡ changed (map standing_in rows.old.items) parent with_one_more (slice_get (map standing_in rows.old.items) parent) ++ standing_in child ∷ [] }
{
    count_spawn_of(rows, parent);
    rows.push_reserved(child);
}

/// A row starts on the values that its cowns have now.
pub fn start_row<'a>(
    alloc: Global,
    spare: &mut Spare<'a>,
    program: &'a CompiledProgram<'a>,
    rows: &mut [FollowedRow],
    row: u32,
    values: &[i64],
) -> Result<(), AllocError>
    requires there { row < length rows.old }
    requires fits { (s : Standing) → slice_get (map standing_in rows.old) row ≡ Some s → CanStart program.now (length values.now) s }
    ensures ok { OnOk result
        (map standing_in rows.new ≡ changed (map standing_in rows.old) row (started_in program.now values.now) (slice_get (map standing_in rows.old) row)) }
    ensures err { OnErr result (map standing_in rows.new ≡ map standing_in rows.old) }
{
    rows[row as usize].start(alloc, spare, program, values)
}

/// A row ends, and writes its body's outputs to its cowns.
pub fn end_row(rows: &mut [FollowedRow], row: u32, values: &mut [i64])
    requires there { row < length rows.old }
    requires fits { (s : Standing) → slice_get (map standing_in rows.old) row ≡ Some s → CanWrite (length values.old) s }
    ensures rows { map standing_in rows.new ≡ changed (map standing_in rows.old) row over_in (slice_get (map standing_in rows.old) row) }
    ensures values { values.new ≡ written_at (map standing_in rows.old) row values.old }
{
    rows[row as usize].end(values);
}
