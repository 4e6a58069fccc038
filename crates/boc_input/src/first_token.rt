// The first token of a text.

ghost use Rattle.std.specs.Prelude.{◌≡◌, false, length};
ghost use Rattle.std.specs.List.{take_while};
ghost use Rattle.boc_reader.specs.Tokens.{is_blank, is_name_byte};
ghost use Rattle.boc_input.specs.FirstTokens.{begins_program, from_token, is_told, opens};

fn is_name_byte(byte: u8) -> bool
    ensures { result ≡ is_name_byte byte }
{
    byte.is_ascii_alphanumeric() || byte == b'_'
}

fn is_blank(byte: u8) -> bool
    ensures { result ≡ is_blank byte }
{
    byte == b' ' || byte == b'\t' || byte == b'\r' || byte == b'\n'
}

// Returns a text from its first token on.
fn from_token(text: &[u8]) -> &[u8]
    ensures { result.now ≡ from_token false text.now }
{
    let mut rest = text;
    let mut is_inside = false;
    while let Some((first, after)) = rest.split_first() {
        if is_inside {
            is_inside = *first != b'\n';
        } else if *first == b'#' {
            is_inside = true;
        } else if !is_blank(*first) {
            return rest;
        }
        rest = after;
    }
    rest
}

// Returns how many bytes of a name a text begins with.
fn run_len(text: &[u8]) -> usize
    ensures { result ≡ length (take_while is_name_byte text.now) }
{
    text.iter().take_while(|byte| is_name_byte(**byte)).count()
}

// Returns whether these bytes are a word that a program begins with.
fn opens(run: &[u8]) -> bool
    ensures { result ≡ opens run.now }
{
    run == b"cown".as_slice() || run == b"def".as_slice() || run == b"main".as_slice()
}

/// Returns whether the first token of a text is one that a program begins with: `cown`, `def` or `main`. Before it there may be spaces, tabs, line ends and
/// comments.
pub fn begins_program(text: &[u8]) -> bool
    ensures { result ≡ begins_program text.now }
{
    let rest = from_token(text);
    let (run, _) = rest.split_at(run_len(rest));
    opens(run)
}

// The most bytes of a word that a program begins with.
const MOST_WORD: usize = 4;

/// Returns whether it is known from a text if it begins as a program does, whatever follows: its first token ends within it, or is too long.
pub(crate) fn is_told(text: &[u8]) -> bool
    ensures { result ≡ is_told text.now }
{
    let rest = from_token(text);
    let run = run_len(rest);
    run < rest.len() || run > MOST_WORD
}
