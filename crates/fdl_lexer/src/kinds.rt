//! What a token is, and why a text has none.
ghost use Rattle.std.specs.Prelude.{◌≡◌, []};
ghost use Rattle.fdl_lexer.specs.declared.kinds.LexFault.TheVariants.{NoMemory};

use flow_model::List;
use flow_table::Keyword;
use std::alloc::{AllocError, Global};
use thiserror::Error;

/// The tokens of a text, in order.
#[derive(Drop)]
pub struct Tokens {
    pub items: List<Token>,
}

impl Tokens {
    /// No tokens; they take no memory yet.
    pub fn new(alloc: Global) -> Tokens
        ensures { result.items ≡ [] }
    {
        Tokens {
            items: List::new(alloc),
        }
    }
}

/// A token and where it stands: from the byte `from` up to, but without, the byte `to`.
#[derive(Clone, Copy, Debug, PartialEq, Eq)]
pub struct Token {
    pub what: What,
    pub from: u32,
    pub to: u32,
}

/// What a token is. A name, item or text is read from the bytes where its token stands.
#[derive(Clone, Copy, Debug, PartialEq, Eq)]
pub enum What {
    /// A keyword.
    Word(Keyword),
    /// A name in single quotes.
    Name,
    /// `'_RC'`.
    Rc,
    /// An item in single quotes.
    Item,
    /// A number, at most the greatest one.
    Number(u64),
    /// A text in double quotes.
    Text,
    /// A mark.
    Mark(Mark),
}

/// What stands between names, numbers and words.
#[derive(Clone, Copy, Debug, PartialEq, Eq)]
pub enum Mark {
    /// `(`
    Open,
    /// `)`
    Close,
    /// `,`
    Comma,
    /// `;`
    Semicolon,
    /// `:`
    Colon,
    /// `.`
    Dot,
    /// `[`
    OpenBracket,
    /// `]`
    CloseBracket,
    /// `=`
    Equal,
    /// `<>`
    NotEqual,
    /// `<`
    Less,
    /// `<=`
    AtMost,
    /// `>`
    Greater,
    /// `>=`
    AtLeast,
    /// `+`
    Plus,
    /// `-`
    Minus,
}

/// Why a text has no tokens.
#[derive(Clone, Copy, Debug, PartialEq, Eq, Drop, Error)]
pub enum LexFault {
    /// The byte at this place may not stand in a text; those before may.
    #[error("byte {0} may not stand in a text")]
    Byte(u32),
    /// All bytes may stand in a text, and this is the first place where no token begins.
    #[error("no token begins at byte {0}")]
    Token(u32),
    /// There was no memory for the tokens.
    #[error("no memory")]
    NoMemory,
}

impl From<AllocError> for LexFault {
    ghost from_gives = { λ _ e. e ≡ NoMemory };

    fn from(_fault: AllocError) -> LexFault {
        LexFault::NoMemory
    }
}
