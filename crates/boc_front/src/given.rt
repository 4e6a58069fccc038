// Words that say how a program is run, and the note where they say nothing of what was done.

use boc_commands::{RunFile, Schedule};

// What is noted where a record came in.
const OF_RECORD: &str =
    "boc: note: the input is a record, which is not run again: --workers, --seed and --depth have no effect\n";

// What is noted where a record is next to the program.
const OF_FILE: &str =
    "boc: note: the run is that of --record FILE, and the program is not run again: --workers, --seed and --depth have no effect\n";

// What is noted of a timed run where a record came in.
const TIMED_OF_RECORD: &str =
    "boc: note: the input is a record, which is not run again: --timed and --workers have no effect\n";

// What is noted of a timed run where a record is next to the program.
const TIMED_OF_FILE: &str =
    "boc: note: the run is that of --record FILE, and the program is not run again: --timed and --workers have no effect\n";

// What is noted where there is one worker.
const OF_ONE: &str =
    "boc: note: one worker leaves nothing to draw: --seed and --depth have no effect; give --workers at least 2\n";

// What is noted where a record came in, and one is next to it.
const RECORD_OF_RECORD: &str =
    "boc: note: the input is a record, which is not run again: --record has no effect\n";

// What is noted where a program came in, and one is next to it.
const PROGRAM_OF_PROGRAM: &str =
    "boc: note: the input is a program, whose names are known: --program has no effect\n";

/// Which of the words that say how a program is run are on a command line.
#[derive(Clone, Copy, PartialEq, Eq, Debug)]
pub struct Given {
    /// `--workers` or `-w`.
    pub workers: bool,
    /// `--seed`.
    pub seed: bool,
    /// `--depth`.
    pub depth: bool,
}

impl Given {
    /// Returns those that are among words that the parser takes, the program's own name first. It takes no value that begins with `-`.
    pub fn among(words: &[String]) -> Given {
        let mut given = Given {
            workers: false,
            seed: false,
            depth: false,
        };
        for word in words.iter().skip(1) {
            match word.as_str() {
                "--" => return given,
                word if word.starts_with("-w") || is_option(word, "--workers") => {
                    given.workers = true
                }
                word if is_option(word, "--seed") => given.seed = true,
                word if is_option(word, "--depth") => given.depth = true,
                _ => {}
            }
        }
        given
    }
}

// Returns whether a word is this option, with its value after a `=` or without.
fn is_option(word: &str, option: &str) -> bool {
    match word.strip_prefix(option) {
        Some(behind) => behind.is_empty() || behind.starts_with("="),
        None => false,
    }
}

/// Returns the note, with its line feed, on words that say how a program is run, where they say nothing of what was done; no text where all that were given say
/// something of it. The run is by this schedule, or that of a record: the input, or this file given with it.
pub fn idle_note(
    schedule: Schedule,
    file: &Option<RunFile>,
    given: Given,
    is_record: bool,
) -> &'static str {
    let is_beside = matches!(file, Some(RunFile::Record(_)));
    idle_note_beside(schedule, is_beside, given, is_record)
}

/// Returns the same note, where it is known whether the file given with the input is the record of the run.
pub fn idle_note_beside(
    schedule: Schedule,
    is_beside: bool,
    given: Given,
    is_record: bool,
) -> &'static str {
    if let Schedule::Timed(_) = schedule {
        return if is_record {
            TIMED_OF_RECORD
        } else if is_beside {
            TIMED_OF_FILE
        } else {
            ""
        };
    }
    let is_drawn = given.seed || given.depth;
    let is_given = given.workers || is_drawn;
    if is_given && is_record {
        return OF_RECORD;
    }
    if is_given && is_beside {
        return OF_FILE;
    }
    match schedule {
        Schedule::Drawn { workers, .. } if is_drawn && workers.number() == 1 => OF_ONE,
        _ => "",
    }
}

/// Returns the note, with its line feed, on a file given with an input of its own kind, which is left aside; no text where it is of the other kind.
pub fn idle_file_note(is_record_beside: bool, is_record: bool) -> &'static str {
    match (is_record_beside, is_record) {
        (true, true) => RECORD_OF_RECORD,
        (false, false) => PROGRAM_OF_PROGRAM,
        _ => "",
    }
}
