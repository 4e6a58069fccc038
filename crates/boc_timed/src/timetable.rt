// When rows started, and on which workers.

ghost use Rattle.std.specs.Prelude.{◌≡◌, ◌<◌, ◌^◌, [], OnOk};
ghost use Rattle.boc_timed.specs.Timetables.{IsEven, IsNoted};

use std::alloc::{AllocError, Global};

/// When each row started, and the worker that it is on, by the numbers of rows.
#[derive(Drop, Debug)]
pub struct Timetable {
    /// How many workers there are.
    pub p: u32,
    /// The tick at which each row starts.
    pub starts: Vec<u64>,
    /// The worker that each row is on, from 0.
    pub workers: Vec<u32>,
}

impl Timetable {
    /// Returns the timetable of no row, for this number of workers.
    pub(crate) fn new(alloc: Global, workers: u32) -> Timetable
        ensures even { IsEven result }
        ensures p_is { result.p ≡ workers }
        ensures none { result.starts.items ≡ [] }
    {
        Timetable {
            p: workers,
            starts: Vec::new(alloc),
            workers: Vec::new(alloc),
        }
    }

    /// Notes that a row starts at a time, on a worker. What is noted of other rows stays. Rows of smaller numbers that haven't started have a place before it.
    pub(crate) fn note(&mut self, row: u32, time: u64, worker: u32) -> Result<(), AllocError>
        requires even { IsEven self.old }
        requires low { time < 2 ^ 62 }
        ensures even { OnOk result (IsEven self.new) }
        ensures noted { OnOk result (IsNoted self.old row time worker self.new) }
    {
        let row = row as usize;
        while self.starts.len() <= row {
            self.starts.push(0)?;
            self.workers.push(0)?;
        }
        self.starts[row] = time;
        self.workers[row] = worker;
        Ok(())
    }
}
