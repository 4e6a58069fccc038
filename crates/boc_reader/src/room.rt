// How much more a text may have, until a limit is passed.

ghost use Rattle.std.specs.Prelude.{◌≡◌};
ghost use Rattle.boc_reader.specs.Placed.{token_of, tokens_of};
ghost use Rattle.boc_reader.specs.Room.{room_of_text, with_body, take_cowns, take_def, take_node, take_listed, take_node_listed, left_in_defs};
ghost use Rattle.boc_reader.specs.Room.{left_in_cowns, left_in_cown, left_in_size, left_in_stmts, left_in_names, left_in_refs, left_in_args, left_in_list};
ghost use Rattle.boc_reader.specs.Room.{left_behind, with_list, without_list};

use crate::parse::MOST_LISTED;
use crate::terminal::{Keyword, Sign};
use crate::token::{Placed, Token};
use crate::wanted::Wanted;
use boc_program::limits::{MOST_COWNS, MOST_DEFS, MOST_NODES};

/// How many more cowns and defs a text may have, its body nodes, and its list members.
#[derive(Clone, Copy, Debug)]
pub(crate) struct Room {
    cowns: u32,
    defs: u32,
    nodes: u32,
    listed: u32,
}

impl Room {
    /// Returns the limits of a whole text.
    pub(crate) fn of_text() -> Room
        ensures { result ≡ room_of_text }
    {
        Room {
            cowns: MOST_COWNS as u32,
            defs: MOST_DEFS as u32,
            nodes: 0,
            listed: 0,
        }
    }

    /// Returns what is left after a token which is what was wanted, before these tokens, or nothing where it passes a limit.
    pub(crate) fn left_behind(
        self,
        token: Token<'_>,
        after: &[Placed<'_>],
        wanted: Wanted,
    ) -> Option<Room>
        ensures { result ≡ left_behind (token_of token.entry) (tokens_of after.now) wanted self }
    {
        match wanted {
            Wanted::Cowns => self.left_in_cowns(token),
            Wanted::Defs => self.left_in_defs(token),
            Wanted::Members => self.left_in_size(token),
            Wanted::Stmts => self.left_in_stmts(token),
            Wanted::Params | Wanted::Held => self.left_in_names(token),
            Wanted::Args => self.left_in_args(token),
            Wanted::Refs => self.left_in_refs(token),
            Wanted::MoreParams | Wanted::MoreHeld | Wanted::MoreArgs | Wanted::MoreRefs => {
                self.left_in_list(token)
            }
            Wanted::CownName => self.left_in_cown(after),
            Wanted::NextName => self.take_listed(),
            Wanted::NextArg | Wanted::NextRef => self.take_node_listed(),
            Wanted::Expr | Wanted::InExpr | Wanted::Sum | Wanted::InSum => self.take_node(),
            _ => Some(self),
        }
    }

    fn left_in_cowns(self, token: Token<'_>) -> Option<Room>
        ensures { result ≡ left_in_cowns (token_of token.entry) self }
    {
        match token {
            Token::Keyword(Keyword::Cown) => Some(self),
            _ => self.left_in_defs(token),
        }
    }

    fn left_in_defs(self, token: Token<'_>) -> Option<Room>
        ensures { result ≡ left_in_defs (token_of token.entry) self }
    {
        match token {
            Token::Keyword(Keyword::Def) => self.with_body().take_def(),
            _ => Some(self.with_body()),
        }
    }

    // Returns what is left after the name of a cown, before these tokens: it is one more cown, except that of an array, whose size says how many there are.
    fn left_in_cown(self, after: &[Placed<'_>]) -> Option<Room>
        ensures { result ≡ left_in_cown (tokens_of after.now) self }
    {
        match after.first() {
            Some(next) if matches!(next.token, Token::Sign(Sign::OpenIndex)) => Some(self),
            _ => self.take_cowns(1),
        }
    }

    // Returns what is left after the size of an array.
    fn left_in_size(self, token: Token<'_>) -> Option<Room>
        ensures { result ≡ left_in_size (token_of token.entry) self }
    {
        match token {
            Token::Number(n) => self.take_cowns(n.value),
            _ => Some(self),
        }
    }

    fn left_in_stmts(self, token: Token<'_>) -> Option<Room>
        ensures { result ≡ left_in_stmts (token_of token.entry) self }
    {
        match token {
            Token::Sign(_) => Some(self),
            _ => self.take_node(),
        }
    }

    fn left_in_names(self, token: Token<'_>) -> Option<Room>
        ensures { result ≡ left_in_names (token_of token.entry) self }
    {
        match token {
            Token::Name(_) => self.with_list().take_listed(),
            _ => Some(self),
        }
    }

    fn left_in_refs(self, token: Token<'_>) -> Option<Room>
        ensures { result ≡ left_in_refs (token_of token.entry) self }
    {
        match token {
            Token::Name(_) => self.with_list().take_node_listed(),
            _ => Some(self),
        }
    }

    fn left_in_args(self, token: Token<'_>) -> Option<Room>
        ensures { result ≡ left_in_args (token_of token.entry) self }
    {
        match token {
            Token::Sign(Sign::Semicolon) => Some(self),
            _ => self.with_list().take_node_listed(),
        }
    }

    fn left_in_list(self, token: Token<'_>) -> Option<Room>
        ensures { result ≡ left_in_list (token_of token.entry) self }
    {
        match token {
            Token::Sign(Sign::Comma) => Some(self),
            _ => Some(self.without_list()),
        }
    }

    fn with_body(self) -> Room
        ensures { result ≡ with_body self }
    {
        Room {
            nodes: MOST_NODES as u32,
            ..self
        }
    }

    fn with_list(self) -> Room
        ensures { result ≡ with_list self }
    {
        Room {
            listed: MOST_LISTED as u32,
            ..self
        }
    }

    fn without_list(self) -> Room
        ensures { result ≡ without_list self }
    {
        Room { listed: 0, ..self }
    }

    fn take_cowns(self, count: u64) -> Option<Room>
        ensures { result ≡ take_cowns count self }
    {
        if count > u64::from(self.cowns) {
            return None;
        }
        Some(Room {
            cowns: self.cowns - count as u32,
            ..self
        })
    }

    fn take_def(self) -> Option<Room>
        ensures { result ≡ take_def self }
    {
        if self.defs == 0 {
            return None;
        }
        Some(Room {
            defs: self.defs - 1,
            ..self
        })
    }

    fn take_node(self) -> Option<Room>
        ensures { result ≡ take_node self }
    {
        if self.nodes == 0 {
            return None;
        }
        Some(Room {
            nodes: self.nodes - 1,
            ..self
        })
    }

    fn take_listed(self) -> Option<Room>
        ensures { result ≡ take_listed self }
    {
        if self.listed == 0 {
            return None;
        }
        Some(Room {
            listed: self.listed - 1,
            ..self
        })
    }

    fn take_node_listed(self) -> Option<Room>
        ensures { result ≡ take_node_listed self }
    {
        self.take_listed()?.take_node()
    }
}
