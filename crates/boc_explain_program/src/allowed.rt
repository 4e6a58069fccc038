// Which tokens are allowed where the shape of a text goes wrong.

ghost use Rattle.std.specs.Prelude.{◌≡◌, IfOk};
ghost use Rattle.boc_reader.specs.Expected.{is_lacked};
ghost use Rattle.boc_reader.specs.declared.token.Token.TheVariants as tokens;
ghost use Rattle.boc_reader.specs.declared.terminal.Sign.TheVariants as signs;
ghost use Rattle.boc_explain_program.specs.Allowed.{AreAllowed, allowed_of};

use boc_reader::{Expected, Keyword, Natural, Sign, Token};
use boc_said::said::Part;
use std::alloc::{AllocError, Global};

/// A token that there is, and how it is spelled.
#[derive(Clone, Copy, Debug)]
pub(crate) struct Candidate(pub(crate) Token<'static>, pub(crate) &'static [u8]);

/// The name that stands for all of them.
pub(crate) const NAME: &[u8] = b"x";

/// The number that stands for all of them.
pub(crate) const NUMBER: &[u8] = b"1";

const SEMICOLON: Token<'static> = Token::Sign(Sign::Semicolon);

// Every token that there is, one name and one number for all of them. Those in front are reported first.
const CANDIDATES: [Candidate; 31] = [
    Candidate(SEMICOLON, b";"),
    Candidate(Token::Sign(Sign::Close), b")"),
    Candidate(Token::Sign(Sign::CloseBlock), b"}"),
    Candidate(Token::Sign(Sign::OpenBlock), b"{"),
    Candidate(Token::Sign(Sign::Open), b"("),
    Candidate(Token::Sign(Sign::CloseIndex), b"]"),
    Candidate(Token::Sign(Sign::Comma), b","),
    Candidate(Token::Sign(Sign::Assign), b"="),
    Candidate(Token::Name("x"), NAME),
    Candidate(Token::Number(Natural { value: 1 }), NUMBER),
    Candidate(Token::Sign(Sign::OpenIndex), b"["),
    Candidate(Token::Keyword(Keyword::Cown), b"cown"),
    Candidate(Token::Keyword(Keyword::Def), b"def"),
    Candidate(Token::Keyword(Keyword::Main), b"main"),
    Candidate(Token::Keyword(Keyword::Let), b"let"),
    Candidate(Token::Keyword(Keyword::When), b"when"),
    Candidate(Token::Keyword(Keyword::Work), b"work"),
    Candidate(Token::Keyword(Keyword::If), b"if"),
    Candidate(Token::Keyword(Keyword::Repeat), b"repeat"),
    Candidate(Token::Keyword(Keyword::Else), b"else"),
    Candidate(Token::Sign(Sign::Plus), b"+"),
    Candidate(Token::Sign(Sign::Minus), b"-"),
    Candidate(Token::Sign(Sign::Star), b"*"),
    Candidate(Token::Sign(Sign::Slash), b"/"),
    Candidate(Token::Sign(Sign::Percent), b"%"),
    Candidate(Token::Sign(Sign::Equal), b"=="),
    Candidate(Token::Sign(Sign::NotEqual), b"!="),
    Candidate(Token::Sign(Sign::Less), b"<"),
    Candidate(Token::Sign(Sign::AtMost), b"<="),
    Candidate(Token::Sign(Sign::Greater), b">"),
    Candidate(Token::Sign(Sign::AtLeast), b">="),
];

impl Candidate {
    /// Returns how a text says that it may be there.
    pub(crate) fn told(self) -> Part<'static> {
        let Candidate(token, bytes) = self;
        match token {
            Token::Name(_) => Part::Words("a name"),
            Token::Number(_) => Part::Words("a number"),
            Token::Keyword(_) | Token::Sign(_) => Part::Quote(bytes),
        }
    }
}

/// What is allowed at a place.
#[derive(Drop)]
pub(crate) struct Allowed {
    /// All tokens that are allowed there. Those after which what is found there is allowed too come first.
    pub(crate) tokens: Vec<Candidate>,
    /// `;` is one of those.
    pub(crate) lacks_semicolon: bool,
}

impl Allowed {
    /// Finds what is allowed where the shape of a text goes wrong.
    pub(crate) fn of(alloc: Global, expected: &Expected<'_>) -> Result<Allowed, AllocError>
        ensures tokens { IfOk result (λ allowed. AreAllowed allowed.tokens.items expected.now) }
        ensures semicolon { IfOk result (λ allowed. allowed.lacks_semicolon ≡ is_lacked expected.now (tokens.Sign signs.Semicolon)) }
    {
        Ok(Allowed {
            tokens: allowed_of(alloc, expected, &CANDIDATES)?,
            lacks_semicolon: expected.lacks(alloc, SEMICOLON)?,
        })
    }

    /// Says whether this token is allowed there.
    pub(crate) fn has(&self, bytes: &[u8]) -> bool {
        self.tokens.iter().any(|allowed| allowed.1 == bytes)
    }

    /// Says whether nothing is allowed there but the `=` of an assignment or of a declaration.
    pub(crate) fn is_assignment(&self) -> bool {
        self.tokens.len() == 1 && self.has(b"=")
    }
}

// Returns those of these tokens that are allowed there, first those that are lacked.
#[tactic(auto, unfolding(crate::specs::Allowed::allowed_of))]
fn allowed_of(
    alloc: Global,
    expected: &Expected<'_>,
    candidates: &[Candidate],
) -> Result<Vec<Candidate>, AllocError>
    ensures { IfOk result (λ allowed. allowed.items ≡ allowed_of expected.now candidates.now) }
{
    let mut lacked = Vec::new(alloc);
    let mut others = Vec::new(alloc);
    for candidate in candidates {
        if expected.lacks(alloc, candidate.0)? {
            lacked.push(*candidate)?;
        } else if expected.allows(candidate.0) {
            others.push(*candidate)?;
        }
    }
    lacked.extend_from_slice(&others)?;
    Ok(lacked)
}
