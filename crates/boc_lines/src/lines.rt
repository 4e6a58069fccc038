// The lines of a program's text on which its bodies and its statements begin.

use boc_reader::{Keyword, Placed, Sign, Token, read_tokens};
use std::alloc::{AllocError, Global};

// Lines in the order of the text. Main comes last there, and has the first numbers.
#[derive(Drop)]
struct Lines {
    // Those of the defs and of their statements.
    defs: Vec<u32>,
    // Those of main and of its statements.
    main: Vec<u32>,
    // Whether main has begun.
    in_main: bool,
    // Whether the block of a body comes next.
    opens: bool,
}

impl Lines {
    // Puts the line of the next start of a body, or of the next statement.
    fn put(&mut self, line: u32) -> Result<(), AllocError> {
        if self.in_main {
            self.main.push(line)?;
        } else {
            self.defs.push(line)?;
        }
        Ok(())
    }

    // Takes the token at a place, which is on this line, and the one before it on that one.
    fn take(
        &mut self,
        tokens: &[Placed<'_>],
        place: usize,
        line: u32,
        before: u32,
    ) -> Result<(), AllocError> {
        let Some(placed) = tokens.get(place) else {
            return Ok(());
        };
        match placed.token {
            Token::Keyword(Keyword::Def) => self.opens = true,
            Token::Keyword(Keyword::Main) => {
                self.opens = true;
                self.in_main = true;
            }
            Token::Sign(Sign::OpenBlock) if self.opens => {
                self.opens = false;
                self.put(before)?;
            }
            token if begins_statement(token, tokens, place) => self.put(line)?,
            _ => {}
        }
        Ok(())
    }
}

/// Returns the line of each number: of a statement that of its first token, and of the start of a body that of the token before its block. If something in the
/// text is no token, there is no answer. `AllocError` says that memory was refused.
pub fn lines_of_statements(alloc: Global, text: &[u8]) -> Result<Option<Vec<u32>>, AllocError> {
    let Some(tokens) = read_tokens(alloc, text)? else {
        return Ok(None);
    };
    let mut lines = Lines {
        defs: Vec::new(alloc),
        main: Vec::new(alloc),
        in_main: false,
        opens: false,
    };
    let mut at = 0;
    let mut line: u32 = 1;
    for (place, placed) in tokens.iter().enumerate() {
        let before = line;
        line = line.saturating_add(line_feeds(text, at, placed.at));
        at = placed.at;
        lines.take(&tokens, place, line, before)?;
    }
    let mut all = lines.main;
    all.extend_from_slice(&lines.defs)?;
    Ok(Some(all))
}

// Returns how many line feeds there are between two places of a text.
fn line_feeds(text: &[u8], from: usize, to: usize) -> u32 {
    let between = match text.get(from..to) {
        Some(between) => between,
        None => &[],
    };
    let count = between.iter().filter(|byte| **byte == b'\n').count();
    u32::try_from(count).unwrap_or(u32::MAX)
}

// Returns whether a token begins a statement: a keyword does, and so does a name that is written to, except in a declaration.
fn begins_statement(token: Token<'_>, tokens: &[Placed<'_>], place: usize) -> bool {
    match token {
        Token::Keyword(keyword) => matches!(
            keyword,
            Keyword::Let | Keyword::Work | Keyword::If | Keyword::Repeat | Keyword::When
        ),
        Token::Name(_) => is_written(tokens, place) && !is_declared(tokens, place),
        _ => false,
    }
}

// Returns whether an equals sign follows.
fn is_written(tokens: &[Placed<'_>], place: usize) -> bool {
    match tokens.get(place.saturating_add(1)) {
        Some(next) => matches!(next.token, Token::Sign(Sign::Assign)),
        None => false,
    }
}

// Returns whether the name is declared here: by `let`, which begins the statement, or by `cown`.
fn is_declared(tokens: &[Placed<'_>], place: usize) -> bool {
    if place == 0 {
        return false;
    }
    match tokens.get(place - 1) {
        Some(before) => matches!(
            before.token,
            Token::Keyword(Keyword::Let) | Token::Keyword(Keyword::Cown)
        ),
        None => false,
    }
}
