//! What is reported below the line of a fault.

use boc_commands::{
    AskedCown, AskedDraws, AskedEdit, Command, Fault, InputFault, RunFile, Schedule, WhatIfFile,
    Which, WordsFault, file_named,
};
use boc_explain::{
    Asked, Kept, Naming, explain_cown, explain_def, explain_edit, explain_edit_of_run,
    explain_edit_word, explain_words,
};
use boc_explain_program::{AtDepth, explain_behaviours};
use boc_front::{Sources, drawn_at_depth, explain_input, printed};
use boc_input::begins_program;
use boc_plans::edit::{Change, Edit, EditFault, Part};
use boc_said::place::Beside;
use boc_workers::RunFault;
use std::alloc::{AllocError, Global};

// The names of the commands.
const COMMANDS: [&str; 14] = [
    "values", "check", "cut", "run", "profile", "time", "whatif", "curve", "sweep", "why", "cowns",
    "compare", "outcomes", "help",
];

/// What a command read.
#[derive(Drop)]
pub(crate) struct Texts {
    /// Which of two inputs it is, where there are two.
    pub which: Which,
    /// The input.
    pub input: Kept,
    /// The file given with it.
    pub beside: Kept,
}

/// Returns the lines below the text of a fault of these words, each with its line feed. There may be none.
pub(crate) fn explained_words(
    alloc: Global,
    words: &[String],
    fault: &Fault,
) -> Result<String, AllocError> {
    match fault {
        Fault::Words(WordsFault::EditWord { number }) => explain_edit_word(alloc, words, *number),
        Fault::Words(WordsFault::Parser(_)) => {
            let told = fault.line(alloc)?;
            explain_words(alloc, words, &COMMANDS, &told)
        }
        _ => Ok(String::new(alloc)),
    }
}

/// Returns the lines below that of a fault, each with its line feed. There may be none. The input comes from the file with this path, if there is one.
pub(crate) fn explained(
    alloc: Global,
    fault: &Fault,
    command: &Command,
    path: Option<&String>,
    texts: &Texts,
) -> Result<String, AllocError> {
    match fault {
        Fault::Input(InputFault::Cown { number }) => missing_cown(alloc, command, texts, *number),
        Fault::Input(InputFault::Early { number }) => {
            missing_def(alloc, command, texts, early_def(command, *number))
        }
        Fault::Input(InputFault::Edit { number, fault }) => {
            refused_edit(alloc, command, texts, *number, *fault)
        }
        Fault::Input(InputFault::Def { number }) => {
            missing_def(alloc, command, texts, edited_def(command, *number))
        }
        Fault::Input(fault) => explained_input(alloc, *fault, command, path, texts),
        Fault::Run(fault) => explained_run(alloc, *fault, command, path, texts),
        _ => Ok(String::new(alloc)),
    }
}

// Returns what is reported of a fault in an input, or in the file given with it. Of two inputs it says which one it is, where the place has no path.
fn explained_input(
    alloc: Global,
    fault: InputFault,
    command: &Command,
    path: Option<&String>,
    texts: &Texts,
) -> Result<String, AllocError> {
    let mut told = String::new(alloc);
    if let InputFault::Beside(_) = fault {
        put_side(alloc, &mut told, command, "     for the run of ", path)?;
    } else if path.is_none() {
        put_side(alloc, &mut told, command, "     in ", None)?;
    }
    let more = explain_input(alloc, fault, sources_of(command, path, texts))?;
    told.push_str(&more)?;
    Ok(told)
}

// Appends a line with the name of an input after these words, where a command compares two.
fn put_side(
    alloc: Global,
    told: &mut String,
    command: &Command,
    words: &str,
    path: Option<&String>,
) -> Result<(), AllocError> {
    if after_of(command).is_none() {
        return Ok(());
    }
    told.push_str(words)?;
    match path {
        Some(path) => told.push_str(&printed(alloc, path)?)?,
        None => told.push_str("standard input")?,
    }
    told.push_str("\n")
}

// Returns what is reported of a run that was given up. Of two inputs it says which one it is.
fn explained_run(
    alloc: Global,
    fault: RunFault,
    command: &Command,
    path: Option<&String>,
    texts: &Texts,
) -> Result<String, AllocError> {
    let mut told = String::new(alloc);
    put_side(alloc, &mut told, command, "     of the run of ", path)?;
    if fault == RunFault::Behaviours && texts.input.is_whole() {
        let more = explain_behaviours(alloc, texts.input.as_slice(), depth_of(command))?;
        told.push_str(&more)?;
    }
    Ok(told)
}

// Returns how a command draws runs, if it does so at a depth.
fn depth_of(command: &Command) -> Option<AtDepth> {
    match command {
        Command::Run { schedule, .. } | Command::Time { schedule, .. } => drawn_at_depth(schedule),
        Command::Profile { asked, .. } => drawn_at_depth(&asked.schedule),
        Command::WhatIf { schedule, .. } => drawn_at_depth(schedule),
        Command::Curve { asked, .. } => drawn_at_depth(&asked.schedule),
        Command::Sweep { asked, .. } => drawn_at_depth(&asked.schedule),
        Command::Why { asked, .. } => drawn_at_depth(&asked.schedule),
        Command::Cowns { asked, .. } => drawn_at_depth(&asked.schedule),
        Command::Compare { asked, .. } => drawn_at_depth(&asked.schedule),
        Command::WhyRuns(asked) | Command::CompareRuns { asked, .. } => {
            drawn_at_depth(&schedule_of(asked.draws))
        }
        Command::Outcomes(draws) => drawn_at_depth(&schedule_of(*draws)),
        _ => None,
    }
}

/// Returns how the first of some draws is drawn.
pub(crate) fn schedule_of(draws: AskedDraws) -> Schedule {
    Schedule::Drawn {
        workers: draws.workers,
        seed: draws.seed,
        depth: draws.depth,
    }
}

// Returns what a command reads, its input from the file with this path, if there is one.
fn sources_of<'a>(command: &'a Command, path: Option<&'a String>, texts: &'a Texts) -> Sources<'a> {
    Sources {
        command: name_of(command),
        input: &texts.input,
        input_path: path.map(String::as_str),
        beside: &texts.beside,
        beside_path: match names_of(command, texts.which) {
            Some(path) => Some(path.as_str()),
            None => file_named(command),
        },
        kind: match command {
            Command::Compare { .. } => Some(Beside::Names),
            _ => beside_of(command),
        },
    }
}

/// Returns the path of the file of names for one of the inputs that a command compares, if there is one.
pub(crate) fn names_of(command: &Command, which: Which) -> Option<&String> {
    let Command::Compare { files, .. } = command else {
        return None;
    };
    let file = match which {
        Which::Before => &files.before_names,
        Which::After => &files.after_names,
    };
    match file {
        Some(RunFile::Names(path) | RunFile::Record(path)) => Some(path),
        None => None,
    }
}

/// Returns the path of the second input of a command that compares two.
pub(crate) fn after_of(command: &Command) -> Option<&String> {
    match command {
        Command::Compare { files, .. } => Some(&files.after),
        Command::CompareRuns { after, .. } => Some(after),
        _ => None,
    }
}

/// Returns what the file given with the input of a command is, if it has one.
pub(crate) fn beside_of(command: &Command) -> Option<Beside> {
    match command {
        Command::Check { program: Some(_) }
        | Command::WhatIf {
            file: Some(WhatIfFile::Program(_)),
            ..
        } => Some(Beside::Program),
        Command::Values {
            record: Some(_),
            ..
        }
        | Command::Profile {
            record: Some(_),
            ..
        }
        | Command::WhatIf {
            file: Some(WhatIfFile::Record(_)),
            ..
        }
        | Command::Curve {
            record: Some(_),
            ..
        } => Some(Beside::Record),
        Command::WhatIf {
            file: Some(WhatIfFile::Names(_)),
            ..
        }
        | Command::Cut { names: Some(_), .. } => Some(Beside::Names),
        Command::Sweep {
            file: Some(file),
            ..
        }
        | Command::Why {
            file: Some(file),
            ..
        }
        | Command::Cowns {
            file: Some(file),
            ..
        } => Some(match file {
            RunFile::Record(_) => Beside::Record,
            RunFile::Names(_) => Beside::Names,
        }),
        _ => None,
    }
}

// By what `whatif` calls rows and cowns, if all of the text that says it is known.
fn naming_of<'a>(file: &Option<WhatIfFile>, texts: &'a Texts) -> Option<Naming<'a>> {
    if !texts.beside.is_whole() {
        return None;
    }
    let input = texts.input.as_slice();
    Some(match file {
        Some(WhatIfFile::Names(_)) => Naming::Names(texts.beside.as_slice()),
        _ if begins_program(input) => Naming::Program(input),
        Some(WhatIfFile::Program(_)) => Naming::Program(texts.beside.as_slice()),
        Some(WhatIfFile::Record(_)) | None => Naming::Numbers,
    })
}

// Returns a cown that the record doesn't have, counted from 1.
fn missing_cown(
    alloc: Global,
    command: &Command,
    texts: &Texts,
    number: usize,
) -> Result<String, AllocError> {
    let Command::WhatIf { changes, file, .. } = command else {
        return Ok(String::new(alloc));
    };
    let input = texts.input.text(None);
    let naming = naming_of(file, texts).unwrap_or(Naming::Numbers);
    match changes.cowns.get(number.saturating_sub(1)) {
        Some(AskedCown::Number(cown)) => {
            let name = cown.to_string(alloc)?;
            explain_cown(alloc, input, naming, &name)
        }
        Some(AskedCown::Name(name)) => explain_cown(alloc, input, naming, name),
        None => Ok(String::new(alloc)),
    }
}

// Returns an edit that the rows can't take, counted from 1.
fn refused_edit(
    alloc: Global,
    command: &Command,
    texts: &Texts,
    number: usize,
    fault: EditFault,
) -> Result<String, AllocError> {
    let Command::WhatIf { changes, file, .. } = command else {
        return Ok(String::new(alloc));
    };
    let Some(naming) = naming_of(file, texts) else {
        return Ok(String::new(alloc));
    };
    let word = match changes.edits.get(number.saturating_sub(1)) {
        Some(edit) => word_of(alloc, edit)?,
        None => return Ok(String::new(alloc)),
    };
    let is_changed = changes.typical || !changes.early.is_empty();
    if is_changed || begins_program(texts.input.as_slice()) {
        return explain_edit_of_run(alloc, &word, fault);
    }
    let asked = asked_edits(alloc, &changes.edits, number)?;
    explain_edit(alloc, texts.input.text(None), naming, &word, &asked, fault)
}

// Returns this many of the first edits that words ask for.
fn asked_edits(alloc: Global, edits: &[AskedEdit], count: usize) -> Result<Vec<Asked>, AllocError> {
    let mut asked = Vec::new(alloc);
    for edit in edits.iter().take(count) {
        match edit {
            AskedEdit::Row(edit) => asked.push(Asked::Row(*edit))?,
            AskedEdit::Def { name, part } => {
                let name = String::from_str(alloc, name)?;
                asked.push(Asked::Def { name, part: *part })?;
            }
        }
    }
    Ok(asked)
}

// Returns the word of an edit.
fn word_of(alloc: Global, edit: &AskedEdit) -> Result<String, AllocError> {
    match edit {
        AskedEdit::Row(edit) => row_word(alloc, edit),
        AskedEdit::Def { name, part } => cost_word(alloc, name, *part),
    }
}

// Returns the word of an edit of a row.
fn row_word(alloc: Global, edit: &Edit) -> Result<String, AllocError> {
    let row = edit.row;
    match edit.change {
        Change::Ticks(ticks) => format!(in alloc; "{row}={ticks}"),
        Change::Offset(offset) => format!(in alloc; "{row}@{offset}"),
        Change::Cost(part) => {
            let row = row.to_string(alloc)?;
            cost_word(alloc, &row, part)
        }
    }
}

// Returns the word of an edit that has a row or a def cost a part of what it did.
fn cost_word(alloc: Global, subject: &str, part: Part) -> Result<String, AllocError> {
    let over = part.over();
    let under = part.under();
    format!(in alloc; "{subject}={over}/{under}")
}

// Returns what is reported of a def that no row is of, if words ask for one.
fn missing_def(
    alloc: Global,
    command: &Command,
    texts: &Texts,
    name: Option<&String>,
) -> Result<String, AllocError> {
    let Command::WhatIf { file, .. } = command else {
        return Ok(String::new(alloc));
    };
    match (name, naming_of(file, texts)) {
        (Some(name), Some(naming)) => explain_def(alloc, texts.input.text(None), naming, name),
        _ => Ok(String::new(alloc)),
    }
}

// Returns the name of a def that must spawn early, counted from 1.
fn early_def(command: &Command, number: usize) -> Option<&String> {
    match command {
        Command::WhatIf { changes, .. } => changes.early.get(number.saturating_sub(1)),
        _ => None,
    }
}

// Returns the name of the def that an edit is of, counted from 1.
fn edited_def(command: &Command, number: usize) -> Option<&String> {
    let Command::WhatIf { changes, .. } = command else {
        return None;
    };
    match changes.edits.get(number.saturating_sub(1)) {
        Some(AskedEdit::Def { name, .. }) => Some(name),
        _ => None,
    }
}

// Returns the word of a command.
fn name_of(command: &Command) -> &'static str {
    match command {
        Command::Values { .. } => "values",
        Command::Check { .. } => "check",
        Command::Cut { .. } => "cut",
        Command::Tiles(_) => "cut --tiles",
        Command::Run { .. } => "run",
        Command::Profile { .. } => "profile",
        Command::Time { .. } => "time",
        Command::WhatIf { .. } => "whatif",
        Command::Curve { .. } => "curve",
        Command::Sweep { .. } => "sweep",
        Command::Why { .. } => "why",
        Command::Cowns { .. } => "cowns",
        Command::WhyRuns(_) => "why --runs",
        Command::Compare { .. } => "compare",
        Command::CompareRuns { .. } => "compare --runs",
        Command::Outcomes(_) => "outcomes",
        Command::AllEnds(_) | Command::EndRun { .. } => "outcomes --all",
        Command::Help(_) | Command::Version => "boc",
    }
}
