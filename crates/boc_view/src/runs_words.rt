// The words that ask for runs which seeds draw of the program of a page.

use crate::words::{is_set, number_at, seed_at};
use boc_program::count::{Depth, Runners, Runs};
use boc_words::AskedDraws;
use clap::ArgMatches;

/// The name of the option.
pub(crate) const RUNS: &str = "runs";

/// The most runs that are drawn.
pub(crate) const MOST_RUNS: u32 = 1_000_000;

// For how many workers runs are drawn, where no number is given.
const USUAL_WORKERS: u32 = 4;

/// Returns what is wrong with an option that is of one run alone, where runs are asked for and there is such an option.
pub(crate) fn of_one_run(matches: &ArgMatches) -> Option<&'static str> {
    if !is_asked(matches) {
        None
    } else if is_set(matches, "timed") {
        Some("the argument '--runs <K>' cannot be used with '--timed'")
    } else if is_set(matches, "typical") {
        Some("the argument '--runs <K>' cannot be used with '--typical'")
    } else if matches.get_str("record").is_some() {
        Some("the argument '--runs <K>' cannot be used with '--record <FILE>'")
    } else if matches.get_str("names").is_some() {
        Some("the argument '--runs <K>' cannot be used with '--names <FILE>'")
    } else {
        None
    }
}

/// Returns whether runs are asked for.
pub(crate) fn is_asked(matches: &ArgMatches) -> bool {
    matches.get_str(RUNS).is_some()
}

/// Returns for how many workers a program is run: as many as are given. Where a seed draws the run and runs are asked for, of which it is the first, they are
/// as many as those runs have.
pub(crate) fn workers_of_run(matches: &ArgMatches) -> Option<u32> {
    match (number_at(matches, "workers"), seed_at(matches)) {
        (None, Some(_)) if is_asked(matches) => Some(USUAL_WORKERS),
        (workers, _) => workers,
    }
}

/// Returns the runs that are asked for, if any.
pub(crate) fn runs_asked(matches: &ArgMatches) -> Option<AskedDraws> {
    let runs = number_at(matches, RUNS)?;
    let workers = number_at(matches, "workers").unwrap_or(USUAL_WORKERS);
    Some(AskedDraws {
        runs: Runs::new(runs)?,
        seed: seed_at(matches).unwrap_or(0),
        workers: Runners::new(workers)?,
        depth: number_at(matches, "depth").and_then(|number| Depth::new(number)),
    })
}
