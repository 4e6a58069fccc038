// The rows of a stream that are alive, and from a cut on those of a window, judged by the rules of runs.

ghost use Rattle.std.specs.Prelude.{◌≡◌, ◌++◌, ℕ, List, [], map, slice_set, slice_range, length, ◌≤◌, IsTrue, false, None, OnOk, IfOk};
ghost use Rattle.boc_cut.specs.Windows.{cowns_used};
ghost use Rattle.boc_cut.specs.Spawned.{KeepsSpawned, SpawnsMore, AreSameRows, AppendsUses};

use crate::fans::Fans;
use crate::index::{Index, Spot};
use boc_program::body::EndStatus;
use boc_program::limits::MOST_ROWS;
use boc_stream::{Header, StreamFaultKind, Version};
use std::alloc::{AllocError, Global};
use std::collections::HashMap;

/// The most rows that may be alive before a window begins.
pub const MOST_ALIVE: usize = 262_144;

/// The most cowns of the rows that are alive, and of the window, together.
pub const MOST_USES: usize = 1_048_576;

// How many ended rows are kept at least before they are dropped.
const SLACK: usize = 4096;

// A number that no row has: rows have at most 18 digits.
const NO_ROW: u64 = u64::MAX;

/// What has become of a row.
#[derive(Clone, Copy, PartialEq, Eq, Debug)]
pub enum Life {
    Pending,
    Running,
    Ended,
}

/// A row of a stream.
#[derive(Clone, Copy, Debug)]
pub struct Row {
    /// Its number in the stream.
    pub number: u64,
    /// The number of its parent.
    pub parent: u64,
    pub offset: u64,
    /// The offset of its last child; 0 where it has none.
    pub last: u64,
    /// Of a row that ran where the window begins, the offset of its last child there; otherwise 0.
    pub progress: u64,
    pub ticks: u64,
    /// Its cowns are those of the table from here on.
    pub from: usize,
    /// They end before this one.
    pub to: usize,
    pub life: Life,
    /// It ran where the window begins.
    pub ran: bool,
    pub status: EndStatus,
}

/// A use of a cown by a row.
#[derive(Clone, Copy, Debug)]
pub struct CownUse {
    pub cown: u64,
    /// The last row before that has the cown.
    pub before: u64,
    pub is_written: bool,
}

/// What a row of a window took part in.
#[derive(Clone, Copy, PartialEq, Eq, Debug)]
pub enum Deed {
    Spawned,
    Started,
    Ended,
}

/// An event of a window: the place of its row, and what became of it.
#[derive(Clone, Copy, Debug)]
pub struct Happened {
    pub place: usize,
    pub deed: Deed,
}

/// The rows that are alive; from the beginning of the window on, those of the window, ended or not.
#[derive(Drop)]
pub struct Table {
    pub version: Version,
    /// How many cowns the first line says, if there is one.
    pub cowns: Option<u64>,
    /// The rank at which the window begins.
    pub from: u64,
    /// How many rows it has at most that are spawned in it, where that was said.
    pub asked: Option<u64>,
    /// In the order of their spawns.
    pub rows: Vec<Row>,
    pub uses: Vec<CownUse>,
    latest: HashMap<u64, u64>,
    index: Index,
    /// How many rows were spawned so far.
    pub rank: u64,
    /// The number of the first row, if it was spawned.
    pub main: Option<u64>,
    /// The greatest number of a row so far.
    greatest: u64,
    /// How many of the rows have not ended.
    pub alive: usize,
    /// The window has begun.
    pub is_cut: bool,
    /// How many rows were alive where it begins.
    pub carried: usize,
    /// The rank at which it ends.
    pub end: u64,
    /// The greatest number of a row of the window.
    newest: u64,
    /// The first row of the run has a child of rank `end` or more.
    pub has_tail: bool,
    /// The events since the window begins.
    pub log: Vec<Happened>,
}

// Replaces the row at a place.
fn put_row(rows: &mut Vec<Row>, place: usize, row: Row)
    ensures { rows.new.items ≡ slice_set rows.old.items place row }
{
    if place < rows.len() {
        rows[place] = row;
    }
}

// Notes of the rows that run how far they are where the window begins.
fn carry(rows: &mut [Row])
    ensures { AreSameRows rows.old rows.new }
{
    for place in 0..rows.len() {
        let row = rows[place];
        if row.life == Life::Running {
            rows[place] = Row {
                progress: row.last,
                ran: true,
                ..row
            };
        }
    }
}

// Returns what comes after a cown, if that is the first.
fn after_cown(cowns: &[u64], cown: u64) -> Option<&[u64]> {
    let (first, others) = cowns.split_first()?;
    if *first == cown { Some(others) } else { None }
}

// Replaces the use at a place.
fn put_use(uses: &mut Vec<CownUse>, place: usize, used: CownUse)
    ensures { uses.new.items ≡ slice_set uses.old.items place used }
{
    if place < uses.len() {
        uses[place] = used;
    }
}

// Notes whether the cown of the use at a place was written.
fn mark(uses: &mut Vec<CownUse>, place: usize, is_written: bool)
    ensures { cowns_used uses.new.items ≡ cowns_used uses.old.items }
{
    if place < uses.len() {
        let used = uses[place];
        put_use(uses, place, CownUse { is_written, ..used });
    }
}

// Marks the use at a place, whose cown was written if it is the first of these or `is_all`. Returns the written cowns that are left.
fn mark_use<'a>(
    uses: &mut Vec<CownUse>,
    place: usize,
    written: &'a [u64],
    is_all: bool,
) -> &'a [u64]
    ensures { cowns_used uses.new.items ≡ cowns_used uses.old.items }
{
    if place >= uses.len() {
        return written;
    }
    match after_cown(written, uses[place].cown) {
        Some(others) => {
            mark(uses, place, true);
            others
        }
        None => {
            mark(uses, place, is_all);
            written
        }
    }
}

// Marks the uses between two places whose cowns were written, or all of them, and says whether the written cowns rise and are among these.
fn mark_written(
    uses: &mut Vec<CownUse>,
    from: usize,
    to: usize,
    written: &[u64],
    is_all: bool,
) -> bool
    ensures { cowns_used uses.new.items ≡ cowns_used uses.old.items }
{
    let mut rest = written;
    for place in from..to {
        rest = mark_use(uses, place, rest, is_all);
    }
    rest.is_empty()
}

// Appends the uses of a row, which is the last one that has their cowns.
fn keep_uses(
    latest: &mut HashMap<u64, u64>,
    uses: &mut Vec<CownUse>,
    number: u64,
    kept: &[CownUse],
) -> Result<(), AllocError>
    ensures { OnOk result (uses.new.items ≡ uses.old.items ++ kept.now) }
{
    for used in kept {
        latest.insert(used.cown, number)?;
        uses.push(*used)?;
    }
    Ok(())
}

// Returns whether numbers rise strictly.
fn rise(numbers: &[u64]) -> bool {
    let mut last = None;
    for number in numbers {
        if let Some(before) = last {
            if *number <= before {
                return false;
            }
        }
        last = Some(*number);
    }
    true
}

impl Table {
    /// Makes a table of no rows yet, for a window from this rank on, of at most the given number of rows.
    pub fn new(alloc: Global, from: u64, asked: Option<u64>) -> Table
        ensures from { result.from ≡ from }
        ensures asked { result.asked ≡ asked }
        ensures rows { result.rows.items ≡ [] }
        ensures uses { result.uses.items ≡ [] }
    {
        Table {
            version: Version::Second,
            cowns: None,
            from,
            asked,
            rows: Vec::new(alloc),
            uses: Vec::new(alloc),
            latest: HashMap::new(alloc),
            index: Index::new(alloc),
            rank: 0,
            main: None,
            greatest: 0,
            alive: 0,
            is_cut: false,
            carried: 0,
            end: 0,
            newest: 0,
            has_tail: false,
            log: Vec::new(alloc),
        }
    }

    /// Returns whether a part of the stream is wanted, and not all of it.
    pub fn is_part(&self) -> bool
        ensures part { IsTrue result → self.now.from ≡ 0 → self.now.asked ≡ None → ⊥ }
        ensures whole { result ≡ false → (self.now.from ≡ 0) × (self.now.asked ≡ None) }
    {
        self.from != 0 || self.asked.is_some()
    }

    /// Takes what the first line says.
    pub fn begin(&mut self, header: Header)
        ensures rows { self.new.rows.items ≡ self.old.rows.items }
        ensures uses { self.new.uses.items ≡ self.old.uses.items }
    {
        self.version = header.version;
        self.cowns = Some(header.cowns);
    }

    /// Returns the place of a row of this number, if it is there.
    pub fn place_of(&self, number: u64) -> Option<usize> {
        match self.index.find(number, &self.rows) {
            Spot::At(place) => return Some(place),
            Spot::Absent => return None,
            Spot::Unknown => {}
        }
        match self.rows.binary_search_by_key(&number, |row| row.number) {
            Ok(place) => Some(place),
            Err(_) => None,
        }
    }

    // Returns whether a row that is not of the window has this number.
    fn is_beyond(&self, number: u64) -> bool {
        self.is_cut && number > self.newest
    }

    // Returns whether a row of this number is pending or running.
    fn is_alive(&self, number: u64) -> bool {
        match self.row_of(number) {
            Some(row) => row.life != Life::Ended,
            None => false,
        }
    }

    // Returns a row of this number, if it is there.
    fn row_of(&self, number: u64) -> Option<&Row> {
        self.rows.get(self.place_of(number)?)
    }

    // Returns the uses of a row.
    fn uses_of(&self, row: &Row) -> &[CownUse]
        ensures { row.now.from ≤ row.now.to → row.now.to ≤ length self.now.uses.items → result.now ≡ slice_range self.now.uses.items row.now.from row.now.to }
    {
        match self.uses.get(row.from..row.to) {
            Some(uses) => uses,
            None => &[],
        }
    }

    /// Takes a spawn. The window begins before it where that is its rank.
    pub fn spawn(
        &mut self,
        number: u64,
        parent: u64,
        offset: u64,
        cowns: &[u64],
    ) -> Result<(), StreamFaultKind>
        ensures { OnOk result (SpawnsMore number cowns.now self.old.rows.items self.old.uses.items self.new.rows.items self.new.uses.items) }
    {
        if self.main.is_some() && number <= self.greatest {
            return Err(StreamFaultKind::NumberNotNext);
        }
        self.cut_here()?;
        self.judge_parent(number, parent, offset)?;
        self.judge_cowns(cowns)?;
        self.put_within(number, parent, offset, cowns)?;
        self.greatest = number;
        self.rank = self.rank.saturating_add(1);
        Ok(())
    }

    // Begins the window, if this is its rank.
    fn cut_here(&mut self) -> Result<(), StreamFaultKind>
        ensures { OnOk result (KeepsSpawned self.old.rows.items self.old.uses.items self.new.rows.items self.new.uses.items) }
    {
        if self.rank == self.from {
            self.cut()
        } else {
            Ok(())
        }
    }

    // Puts a row after the others, unless it is one behind the window.
    fn put_within(
        &mut self,
        number: u64,
        parent: u64,
        offset: u64,
        cowns: &[u64],
    ) -> Result<(), StreamFaultKind>
        ensures { OnOk result (SpawnsMore number cowns.now self.old.rows.items self.old.uses.items self.new.rows.items self.new.uses.items) }
    {
        if !self.is_cut || self.rank < self.end {
            self.put(number, parent, offset, cowns)
        } else {
            Ok(())
        }
    }

    // Sees that a row may have this parent at this offset, which is then that of the parent's last child.
    fn judge_parent(&mut self, number: u64, parent: u64, offset: u64) -> Result<(), StreamFaultKind>
        ensures rows { OnOk result (AreSameRows self.old.rows.items self.new.rows.items) }
        ensures uses { self.new.uses.items ≡ self.old.uses.items }
    {
        let Some(main) = self.main else {
            if parent != 0 {
                return Err(StreamFaultKind::ParentNotRunning);
            }
            if offset != 0 {
                return Err(StreamFaultKind::Offset);
            }
            self.main = Some(number);
            return Ok(());
        };
        if self.is_beyond(parent) {
            // Of rows after the window it is known only up to which number there are some.
            let is_known = self.rank >= self.end && parent <= self.greatest;
            return if is_known {
                Ok(())
            } else {
                Err(StreamFaultKind::ParentNotRunning)
            };
        }
        let Some(place) = self.place_of(parent) else {
            return Err(StreamFaultKind::ParentNotRunning);
        };
        let Some(row) = self.rows.get(place) else {
            return Err(StreamFaultKind::ParentNotRunning);
        };
        let row = *row;
        if row.life != Life::Running {
            return Err(StreamFaultKind::ParentNotRunning);
        }
        if offset <= row.last {
            return Err(StreamFaultKind::Offset);
        }
        if self.is_cut && self.rank >= self.end {
            self.has_tail = self.has_tail || parent == main;
        } else {
            put_row(
                &mut self.rows,
                place,
                Row {
                    last: offset,
                    ..row
                },
            );
        }
        Ok(())
    }

    // Sees that a row may have these cowns.
    fn judge_cowns(&self, cowns: &[u64]) -> Result<(), StreamFaultKind> {
        if self.rank == 0 && !cowns.is_empty() {
            return Err(StreamFaultKind::Cowns);
        }
        if !rise(cowns) {
            return Err(StreamFaultKind::Cowns);
        }
        match (cowns.last(), self.cowns) {
            (Some(last), Some(count)) if *last >= count => Err(StreamFaultKind::Cowns),
            _ => Ok(()),
        }
    }

    // Puts a row after the others.
    fn put(
        &mut self,
        number: u64,
        parent: u64,
        offset: u64,
        cowns: &[u64],
    ) -> Result<(), StreamFaultKind>
        ensures { OnOk result (SpawnsMore number cowns.now self.old.rows.items self.old.uses.items self.new.rows.items self.new.uses.items) }
    {
        self.make_room(cowns.len())?;
        let place = self.rows.len();
        let Ok(()) = self.put_row(number, parent, offset, cowns) else {
            return Err(StreamFaultKind::Memory);
        };
        self.alive = self.alive.saturating_add(1);
        self.note_spawn(number, place)
    }

    // Notes the spawn of the row at a place, if it is one of the window.
    fn note_spawn(&mut self, number: u64, place: usize) -> Result<(), StreamFaultKind>
        ensures rows { self.new.rows.items ≡ self.old.rows.items }
        ensures uses { self.new.uses.items ≡ self.old.uses.items }
    {
        if !self.is_cut {
            return Ok(());
        }
        self.newest = number;
        self.note(place, Deed::Spawned)
    }

    // Puts a pending row and its cowns after the others.
    fn put_row(
        &mut self,
        number: u64,
        parent: u64,
        offset: u64,
        cowns: &[u64],
    ) -> Result<(), AllocError>
        ensures { OnOk result (SpawnsMore number cowns.now self.old.rows.items self.old.uses.items self.new.rows.items self.new.uses.items) }
    {
        let from = self.uses.len();
        self.put_uses(number, cowns)?;
        self.rows.push(Row {
            number,
            parent,
            offset,
            last: 0,
            progress: 0,
            ticks: 0,
            from,
            to: self.uses.len(),
            life: Life::Pending,
            ran: false,
            status: EndStatus::Done,
        })?;
        self.index.put_last(&self.rows)
    }

    // Puts the cowns of a row after the others.
    fn put_uses(&mut self, number: u64, cowns: &[u64]) -> Result<(), AllocError>
        ensures rows { self.new.rows.items ≡ self.old.rows.items }
        ensures uses { OnOk result (AppendsUses cowns.now self.old.uses.items self.new.uses.items) }
    {
        for cown in cowns {
            let before = match self.latest.insert(*cown, number)? {
                Some(before) => before,
                None => NO_ROW,
            };
            self.uses.push(CownUse {
                cown: *cown,
                before,
                is_written: false,
            })?;
        }
        Ok(())
    }

    // Notes an event of the window.
    fn note(&mut self, place: usize, deed: Deed) -> Result<(), StreamFaultKind>
        ensures rows { self.new.rows.items ≡ self.old.rows.items }
        ensures uses { self.new.uses.items ≡ self.old.uses.items }
    {
        match self.log.push(Happened { place, deed }) {
            Ok(()) => Ok(()),
            Err(_) => Err(StreamFaultKind::Memory),
        }
    }

    // Drops ended rows where there are many, and sees that one more row with this number of cowns is within the limits.
    fn make_room(&mut self, more: usize) -> Result<(), StreamFaultKind>
        ensures { OnOk result (KeepsSpawned self.old.rows.items self.old.uses.items self.new.rows.items self.new.uses.items) }
    {
        if self.is_full(more) {
            self.drop_ended()?;
        }
        self.judge_room(more)
    }

    // Returns whether the rows that have ended are to be dropped before one more row with this number of cowns.
    fn is_full(&self, more: usize) -> bool {
        let ended = self.rows.len().saturating_sub(self.alive);
        let most = self.alive.saturating_mul(2).saturating_add(SLACK);
        !self.is_cut && (ended > most || self.uses.len().saturating_add(more) > MOST_USES)
    }

    // Sees that one more row with this number of cowns is within the limits.
    fn judge_room(&self, more: usize) -> Result<(), StreamFaultKind> {
        if !self.is_cut && self.alive >= MOST_ALIVE {
            return Err(StreamFaultKind::ManyAlive);
        }
        if self.uses.len().saturating_add(more) > MOST_USES {
            return Err(StreamFaultKind::ManyCowns);
        }
        Ok(())
    }

    // Drops the rows that have ended, before the window begins.
    fn drop_ended(&mut self) -> Result<(), StreamFaultKind>
        ensures { OnOk result (KeepsSpawned self.old.rows.items self.old.uses.items self.new.rows.items self.new.uses.items) }
    {
        let alloc = *self.rows.allocator();
        match self.kept(alloc) {
            Ok((rows, uses, latest)) => {
                self.rows = rows;
                self.uses = uses;
                self.latest = latest;
                match self.index.fill_all(&self.rows) {
                    Ok(()) => Ok(()),
                    Err(_) => Err(StreamFaultKind::Memory),
                }
            }
            Err(_) => Err(StreamFaultKind::Memory),
        }
    }

    // Puts the row at a place after others, with its uses, unless it has ended.
    fn keep_row(
        &self,
        place: usize,
        rows: &mut Vec<Row>,
        uses: &mut Vec<CownUse>,
        latest: &mut HashMap<u64, u64>,
    ) -> Result<(), AllocError>
        ensures { OnOk result (KeepsSpawned self.now.rows.items self.now.uses.items rows.old.items uses.old.items
            → KeepsSpawned self.now.rows.items self.now.uses.items rows.new.items uses.new.items) }
    {
        if place >= self.rows.len() {
            return Ok(());
        }
        let row = self.rows[place];
        if row.life == Life::Ended {
            return Ok(());
        }
        let from = uses.len();
        keep_uses(latest, uses, row.number, self.uses_of(&row))?;
        rows.push(Row {
            from,
            to: uses.len(),
            ..row
        })?;
        Ok(())
    }

    // Returns the rows that have not ended, with their cowns, and the last of them on each cown.
    fn kept(&self, alloc: Global) -> Result<(Vec<Row>, Vec<CownUse>, HashMap<u64, u64>), AllocError>
        ensures { IfOk result (λ kept. KeepsSpawned self.now.rows.items self.now.uses.items kept.0.items kept.1.items) }
    {
        let mut rows = Vec::new(alloc);
        let mut uses = Vec::new(alloc);
        let mut latest = HashMap::new(alloc);
        for place in 0..self.rows.len() {
            self.keep_row(place, &mut rows, &mut uses, &mut latest)?;
        }
        Ok((rows, uses, latest))
    }

    // Begins the window.
    fn cut(&mut self) -> Result<(), StreamFaultKind>
        ensures { OnOk result (KeepsSpawned self.old.rows.items self.old.uses.items self.new.rows.items self.new.uses.items) }
    {
        self.drop_ended()?;
        self.carried = self.rows.len();
        if self.carried >= MOST_ROWS {
            return Err(StreamFaultKind::ManyAlive);
        }
        self.open();
        Ok(())
    }

    // Begins the window with the rows that there are.
    fn open(&mut self)
        ensures rows { AreSameRows self.old.rows.items self.new.rows.items }
        ensures uses { self.new.uses.items ≡ self.old.uses.items }
    {
        let has_main = match (self.main, self.rows.first()) {
            (Some(main), Some(first)) => main == first.number,
            (None, _) => true,
            _ => false,
        };
        carry(&mut self.rows);
        if let Some(last) = self.rows.last() {
            self.newest = last.number;
        }
        let stand_in = usize::from(!has_main);
        let helped = self.carried.saturating_sub(usize::from(has_main));
        let helpers = Fans::of(helped).helpers();
        let taken = self
            .carried
            .saturating_add(stand_in)
            .saturating_add(helpers);
        let room = MOST_ROWS.saturating_sub(taken);
        self.end = self.from.saturating_add(match self.asked {
            Some(asked) => asked.min(room as u64),
            None => room as u64,
        });
        self.is_cut = true;
    }

    /// Takes a start.
    pub fn start(&mut self, number: u64) -> Result<(), StreamFaultKind>
        ensures rows { OnOk result (AreSameRows self.old.rows.items self.new.rows.items) }
        ensures uses { self.new.uses.items ≡ self.old.uses.items }
    {
        if self.is_beyond(number) {
            return self.judge_beyond(number, StreamFaultKind::StartNotAllowed);
        }
        let Some(place) = self.place_of(number) else {
            return Err(StreamFaultKind::StartNotAllowed);
        };
        let Some(row) = self.rows.get(place) else {
            return Err(StreamFaultKind::StartNotAllowed);
        };
        if row.life != Life::Pending {
            return Err(StreamFaultKind::StartNotAllowed);
        }
        if !self.is_free(row) {
            return Err(StreamFaultKind::StartNotAllowed);
        }
        let started = Row {
            life: Life::Running,
            ..*row
        };
        put_row(&mut self.rows, place, started);
        if self.is_cut {
            self.note(place, Deed::Started)?;
        }
        Ok(())
    }

    // Returns whether no row before it that has one of its cowns is pending or running.
    fn is_free(&self, row: &Row) -> bool {
        for used in self.uses_of(row).iter() {
            if self.is_alive(used.before) {
                return false;
            }
        }
        true
    }

    // Sees that a row that is not of the window was spawned.
    fn judge_beyond(&self, number: u64, kind: StreamFaultKind) -> Result<(), StreamFaultKind> {
        if number <= self.greatest {
            Ok(())
        } else {
            Err(kind)
        }
    }

    /// Takes an end.
    pub fn end(
        &mut self,
        number: u64,
        ticks: u64,
        status: EndStatus,
        written: &[u64],
    ) -> Result<(), StreamFaultKind>
        ensures rows { OnOk result (AreSameRows self.old.rows.items self.new.rows.items) }
        ensures uses { cowns_used self.new.uses.items ≡ cowns_used self.old.uses.items }
    {
        if self.is_beyond(number) {
            return self.judge_beyond(number, StreamFaultKind::EndNotAllowed);
        }
        let Some(place) = self.place_of(number) else {
            return Err(StreamFaultKind::EndNotAllowed);
        };
        let Some(row) = self.rows.get(place) else {
            return Err(StreamFaultKind::EndNotAllowed);
        };
        let row = *row;
        if row.life != Life::Running || ticks == 0 || ticks < row.last {
            return Err(StreamFaultKind::EndNotAllowed);
        }
        if !self.write(row, written) {
            return Err(StreamFaultKind::EndNotAllowed);
        }
        let ended = Row {
            life: Life::Ended,
            ticks,
            status,
            ..row
        };
        put_row(&mut self.rows, place, ended);
        self.alive = self.alive.saturating_sub(1);
        if self.is_cut {
            self.note(place, Deed::Ended)?;
        }
        Ok(())
    }

    // Marks the cowns that a row wrote, and says whether they rise and are its own.
    fn write(&mut self, row: Row, written: &[u64]) -> bool
        ensures rows { self.new.rows.items ≡ self.old.rows.items }
        ensures uses { cowns_used self.new.uses.items ≡ cowns_used self.old.uses.items }
    {
        let is_all = self.version == Version::First;
        if row.from > row.to || row.to > self.uses.len() {
            return false;
        }
        mark_written(&mut self.uses, row.from, row.to, written, is_all)
    }

    /// Returns whether the first row of the run is one of the window.
    pub fn has_main(&self) -> bool {
        match (self.main, self.rows.first()) {
            (Some(main), Some(first)) => main == first.number,
            _ => false,
        }
    }

    /// Returns whether the window is whole: of its rows at most the run's first one has not ended, and it takes no more.
    pub fn is_over(&self) -> bool {
        if !self.is_cut || self.rank < self.end {
            return false;
        }
        if self.alive == 0 {
            return true;
        }
        let asked = self.end.saturating_sub(self.from);
        let is_past = self.rank > self.end || self.asked == Some(asked);
        match self.rows.first() {
            Some(first) => is_past
                && self.alive == 1
                && self.has_main()
                && first.life == Life::Running,
            None => false,
        }
    }
}
