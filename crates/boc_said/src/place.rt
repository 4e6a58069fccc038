// Which text a fault is in.

use crate::said::{Part, Said, Told};

/// The bytes of a text, as far as they were kept.
#[derive(Clone, Copy, Debug)]
pub struct Text<'a> {
    pub bytes: &'a [u8],
    /// These are all of its bytes.
    pub whole: bool,
    /// The name of its file as it is printed, if it comes from one.
    pub name: Option<&'a str>,
}

/// The file next to an input.
#[derive(Clone, Copy, PartialEq, Eq, Debug)]
pub enum Beside {
    /// A program, after `--program`: the input is the record of a run of it.
    Program,
    /// A record, after `--record`: it is of a run of the input.
    Record,
    /// Names, after `--names`.
    Names,
}

/// Where a text comes from.
#[derive(Clone, Copy, Debug)]
pub struct Place<'a> {
    /// The command that reads it.
    pub command: &'a str,
    /// The file next to the input, where there is one.
    pub beside: Option<Beside>,
    /// The text is that of this file, and not the input.
    pub is_beside: bool,
    /// What is known of the other text of these two.
    pub other: &'a [u8],
}

impl Place<'_> {
    /// One of the two texts is a program, and the other its record.
    pub fn is_of_pair(&self) -> bool {
        matches!(self.beside, Some(Beside::Program | Beside::Record))
    }
}

/// Returns the words after a command's name that say where its program and its record come from: as a sentence, and as an example. The program, or else the
/// record, is in the file next to the input.
pub fn pair_words(beside_is_program: bool) -> [&'static str; 2] {
    if beside_is_program {
        [
            " reads the record, and --program its program: ",
            " --program PROGRAM RECORD",
        ]
    } else {
        [
            " reads the program, and --record its record: ",
            " --record RECORD PROGRAM",
        ]
    }
}

/// Appends which of a program and its record goes where, for a text that looks like a record instead of the program, or else like a program.
pub fn put_pair(said: &mut Said, place: Place<'_>, is_record: bool) -> Told {
    let (found, wanted, swapped) = if is_record {
        ("record", "program", looks_like_program(place.other))
    } else {
        ("program", "record", looks_like_record(place.other))
    };
    let [reads, takes] = pair_words(place.beside == Some(Beside::Program));
    // The commands of `boc-view` begin with its name.
    let is_of_view = place.command.as_bytes().starts_with(b"boc-view");
    let program = if is_of_view { "" } else { "boc " };
    said.tell(
        "this looks like a {}; {}{}{}{}{}",
        &[
            Part::Words(found),
            Part::Words(place.command),
            Part::Words(reads),
            Part::Words(program),
            Part::Words(place.command),
            Part::Words(takes),
        ],
    )?;
    if swapped {
        let words = "the other file looks like a {}: swap the two";
        said.tell(words, &[Part::Words(wanted)])?;
    }
    Ok(())
}

/// Returns whether a text begins as that of a record does.
pub fn looks_like_record(text: &[u8]) -> bool {
    matches!(text, [b'b', b'o', b'c', b' ', b'0'..=b'9', ..])
}

/// Returns whether a line of a text is that of a start: a record has one for each of its rows, and hardly any program.
pub fn has_start(text: &[u8]) -> bool {
    text.split(|byte| *byte == b'\n').any(|line| match line {
        [b'>', b' ', row @ .., b'\r'] | [b'>', b' ', row @ ..] => {
            !row.is_empty() && row.iter().all(|byte| byte.is_ascii_digit())
        }
        _ => false,
    })
}

/// Returns whether the first line that says something is one of a program, a comment or its first declaration, and none is that of a start.
pub fn looks_like_program(text: &[u8]) -> bool {
    let mut words = text.split(|byte| matches!(*byte, b'\n' | b'\r' | b' ' | b'\t'));
    let is_first = |word: &&[u8]| !word.is_empty();
    !has_start(text)
        && words
            .find(is_first)
            .is_some_and(|word| word.starts_with(b"#") || is_first_word(word))
}

/// Returns whether the first line that says something is one of a names file.
pub fn looks_like_names(text: &[u8]) -> bool {
    let first = text
        .split(|byte| matches!(*byte, b'\n' | b'\r'))
        .find(|line| !line.is_empty() && !line.starts_with(b"#"));
    matches!(first, Some([b'@' | b'=', b' ', b'0'..=b'9', ..]))
}

/// Returns whether a declaration of a program begins with this word.
pub fn is_first_word(word: &[u8]) -> bool {
    let words: [&[u8]; 4] = [b"cown", b"def", b"main", b"main{"];
    words.iter().any(|first| *first == word)
}

/// Reports that a text has no bytes.
pub fn put_nothing(said: &mut Said, text: Text<'_>) -> Told {
    said.words(if text.name.is_some() {
        "the file is empty"
    } else {
        "the input is empty; if it comes from a pipe, did the command before it fail?"
    })
}

/// Reports that names stand where a program or a record is wanted.
pub fn put_names_file(said: &mut Said) -> Told {
    said.words(
        "this looks like a names file; pass it with --names, and a program or a record as FILE",
    )
}
