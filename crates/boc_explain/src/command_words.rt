// Words of a command line that are refused: one that is no edit, two files where one is read, an option of other commands, and one that is no command.

ghost use Rattle.std.specs.Prelude.{IfOk, string_bytes};
ghost use Rattle.boc_said.specs.Lines.{AreLines};

use crate::formed::{are_digits, put_no_number};
use boc_program::limits::MOST_PART;
use boc_said::place::pair_words;
use boc_said::said::Part::{Bytes, Quote, Words};
use boc_said::said::{Explained, Said, Told, first_case};
use boc_text::read_number;
use std::alloc::{AllocError, Global};
use strsim::osa_distance;

// The options with a value, which is the word after them.
const WITH_VALUE: &str =
    "--workers -w --seed --depth --runs --p -p --best --top --then --without --early --program --record --names --names-a --names-b --from --rows --tiles \
     --out-names --most --end";

// The command whose words are edits too.
const WHATIF: &[u8] = b"whatif";

// The commands that read a program, and the record of a run of it from the file next to it.
const OF_PROGRAMS: [&[u8]; 3] = [b"values", b"why", b"cowns"];

// The command that reads a record, and its program from the file next to it, and nothing else.
const OF_RECORDS: &[u8] = b"check";

// What the parser says of a word that is no command begins so, the word after it.
const UNRECOGNIZED: &[u8] = b"error: unrecognized subcommand '";

// What the parser says after that word where it names no command that is like it.
const WITHOUT_TIP: &[u8] = b"'\n\nUsage: ";

// What the parser says of a word that it doesn't expect begins so, the word after it.
const UNEXPECTED: &[u8] = b"error: unexpected argument '";

// What it says where there is one FILE too many, and it names none.
const TWO_FILES: &[u8] = b"error: the input cannot be read from more than one FILE";

// A word is near to a name where this many edits lead from the one to the other: a byte more, less or another one, or two that change places.
const MOST_EDITS: usize = 2;

// A word may have one edit for each this many bytes.
const BYTES_PER_EDIT: usize = 3;

/// Returns what is reported of a word that should be an edit and is none: that with this number among those that look like one, counted from 1.
/// The program's own name is the first of the words.
pub fn explain_edit_word(alloc: Global, words: &[String], number: usize) -> Explained
    ensures { IfOk result (λ told. AreLines (string_bytes told)) }
{
    let mut said = Said::new(alloc);
    let operands = operands(alloc, words)?;
    let mut edits = operands.iter().filter(|word| is_edit(word));
    if let Some(word) = edits.nth(number.saturating_sub(1)) {
        said.set_subject(word)?;
        put_no_edit(&mut said, word)?;
    }
    said.into_text(None)
}

/// Returns what is reported of words that the parser refuses with this text: that they name two files to read the input from, or the program or the record by
/// the option of other commands, or that a word which is no command is near to one of these.
pub fn explain_words(alloc: Global, words: &[String], commands: &[&str], told: &str) -> Explained
    ensures { IfOk result (λ told. AreLines (string_bytes told)) }
{
    let mut said = Said::new(alloc);
    put_words(&mut said, words, commands, told.as_bytes())?;
    said.into_text(None)
}

fn put_words(said: &mut Said, words: &[String], commands: &[&str], told: &[u8]) -> Told {
    if let Some(word) = no_command(words, told) {
        return put_nearest(said, commands, word);
    }
    let command = words.get(1).map_or("", String::as_str).as_bytes();
    if put_files(said, words, command, told)? {
        return Ok(());
    }
    put_option(said, command, told)
}

// Returns the word that the parser's text refuses as a command, where it names none that is like it.
fn no_command<'w>(words: &'w [String], told: &[u8]) -> Option<&'w str> {
    let rest = told.strip_prefix(UNRECOGNIZED)?;
    for word in words.iter().skip(1) {
        if let Some(behind) = rest.strip_prefix(word.as_bytes())
            && behind.starts_with(WITHOUT_TIP)
        {
            return Some(word);
        }
    }
    None
}

// Reports which of these commands a word is near to, if there is one.
fn put_nearest(said: &mut Said, commands: &[&str], word: &str) -> Told {
    let most = (word.len() / BYTES_PER_EDIT).clamp(1, MOST_EDITS);
    let mut least = most.saturating_add(1);
    let mut nearest = None;
    for command in commands {
        let edits = osa_distance(said.alloc, word, command)?;
        if edits < least {
            least = edits;
            nearest = Some(*command);
        }
    }
    match nearest {
        Some(command) => said.tell("did you mean {}?", &[Quote(command.as_bytes())]),
        None => Ok(()),
    }
}

// Reports that two words name files where this text refuses them for that, and answers whether that is so. Of `whatif`, words that look like edits name none.
fn put_files(
    said: &mut Said,
    words: &[String],
    command: &[u8],
    told: &[u8],
) -> Result<bool, AllocError> {
    let mut files = operands(said.alloc, words)?;
    if command == WHATIF {
        files.retain(|word| !is_edit(word));
    }
    let [first, second, ..] = files.as_slice() else {
        return Ok(false);
    };
    let is_told = is_refused(told, second);
    if is_told {
        put_two_files(said, command, [*first, *second])?;
    }
    Ok(is_told)
}

// Returns whether the parser's text refuses this file, the second one.
fn is_refused(told: &[u8], second: &[u8]) -> bool {
    let Some(rest) = told.strip_prefix(UNEXPECTED) else {
        return told.starts_with(TWO_FILES);
    };
    let behind = rest.strip_prefix(second);
    behind.is_some_and(|behind| behind.starts_with(b"' found"))
}

// Reports that two words name files.
fn put_two_files(said: &mut Said, command: &[u8], [first, second]: [&[u8]; 2]) -> Told {
    let files = [Quote(first), Quote(second)];
    let words = "{} and {} are two FILEs, but the input is read from one";
    said.tell(words, &files)?;
    if command == WHATIF {
        said.words("an argument with neither = nor @ is a FILE, and each other one an edit")?;
    }
    Ok(())
}

// Reports by which option a command takes the program or the record, where this text refuses that of other commands.
fn put_option(said: &mut Said, command: &[u8], told: &[u8]) -> Told {
    let refused = told.strip_prefix(UNEXPECTED).unwrap_or(b"");
    let of_program = refused.starts_with(b"--program'") && OF_PROGRAMS.contains(&command);
    let of_record = refused.starts_with(b"--record'") && command == OF_RECORDS;
    if !of_program && !of_record {
        return Ok(());
    }
    let [reads, takes] = pair_words(of_record);
    let parts = [Bytes(command), Words(reads), Bytes(command), Words(takes)];
    said.tell("{}{}boc {}", &parts)
}

// Returns the words after the command's that are no options and no values of them.
fn operands<'w>(alloc: Global, words: &'w [String]) -> Result<Vec<&'w [u8]>, AllocError> {
    let mut found: Vec<&'w [u8]> = Vec::new(alloc);
    let mut is_value = false;
    let mut only_operands = false;
    for word in words.iter().skip(2) {
        let word = word.as_bytes();
        let is_option = !only_operands && word.len() > 1 && word.starts_with(b"-");
        if is_value {
            is_value = false;
        } else if is_option {
            only_operands = word == b"--".as_slice();
            is_value = WITH_VALUE
                .split(' ')
                .any(|option| option.as_bytes() == word);
        } else {
            found.push(word)?;
        }
    }
    Ok(found)
}

// Returns whether a word looks like an edit.
fn is_edit(word: &[u8]) -> bool {
    word.contains(&b'=') || word.contains(&b'@')
}

// Returns what is before the first sign of this kind in a word, and after it.
fn around(word: &[u8], sign: u8) -> Option<(&[u8], &[u8])> {
    let at = word.iter().position(|byte| *byte == sign)?;
    let (front, rest) = word.split_at(at.min(word.len()));
    Some((front, rest.split_first()?.1))
}

// Reports why a word is no edit.
#[rattlefmt::skip]
fn put_no_edit(said: &mut Said, word: &[u8]) -> Told {
    let is_change = word.contains(&b'=');
    let sign = if is_change { b'=' } else { b'@' };
    let (subject, change) = around(word, sign).unwrap_or((word, b""));
    let reason = first_case(&[
        (word.contains(&b' '), "an edit has no spaces"),
        (is_change && subject.is_empty(), "a row or a def goes before the `=`"),
        (is_change && change.is_empty(), "ticks or a part K/D go after the `=`"),
        (subject.is_empty(), "a row goes before the `@`"),
        (change.is_empty(), "a tick goes after the `@`"),
    ]);
    if let Some(reason) = reason {
        return said.about(reason, &[]);
    }
    if !is_change {
        return put_no_number(said, first_unread(subject, change));
    }
    match around(change, b'/') {
        Some((over, under)) => put_no_part(said, [over, under], subject),
        None => put_no_change(said, subject, change),
    }
}

// Reports why a word is no edit that has no part after the `=`.
fn put_no_change(said: &mut Said, subject: &[u8], change: &[u8]) -> Told {
    let is_row = are_digits(subject);
    if is_row && are_digits(change) {
        let is_large = !change.starts_with(b"0") && read_number(change).is_none();
        if is_large && read_number(subject).is_some() {
            return said.about("a row takes at most 1000000 ticks", &[]);
        }
        return put_no_number(said, first_unread(subject, change));
    }
    if let [b'+' | b'-', digits @ ..] = subject
        && are_digits(digits)
    {
        return put_no_number(said, subject);
    }
    let words = if is_row {
        "{} is neither ticks nor a part K/D; half of what the row costs is `{}=1/2`"
    } else {
        "{} is not a part K/D; half of what the rows of a def cost is `{}=1/2`"
    };
    said.about(words, &[Quote(change), Bytes(subject)])
}

// Returns the first of two texts where it is no number, and else the second.
fn first_unread<'a>(first: &'a [u8], second: &'a [u8]) -> &'a [u8] {
    if read_number(first).is_none() {
        first
    } else {
        second
    }
}

// Reports why a word is no edit that has two texts round a `/`.
fn put_no_part(said: &mut Said, part: [&[u8]; 2], subject: &[u8]) -> Told {
    for number in &part {
        match read_number(number) {
            None if number.is_empty() => {
                return said.about("a number goes on both sides of the `/`", &[]);
            }
            None => return put_no_number(said, number),
            Some(1..=MOST_PART) => {}
            Some(_) => return said.about("the numbers of a part K/D are 1 to 1000", &[]),
        }
    }
    put_no_number(said, subject)
}
