//! The tokens of a whole text.
ghost use Rattle.std.specs.Prelude.{◌≡◌, ◌≤◌, ℕ, Err, length, IfOk, IfErr, OnOk, MatchOption};
ghost use Rattle.std.specs.List.{list_all};
ghost use Rattle.fdl_lexer.specs.Bytes.{is_allowed as is_allowed_test};
ghost use Rattle.fdl_lexer.specs.declared.kinds.LexFault.TheVariants.{Byte};
ghost use Rattle.fdl_lexer.specs.Tokens.{AreTokens, Faults, IsFirstBad, AreAllowed};

use crate::bytes::is_allowed;
use crate::gap::gap_len;
use crate::scan::first_token;
use crate::{LexFault, Token, Tokens};
use flow_model::List;
use std::alloc::Global;

/// Most texts have a token in this many bytes, or fewer, so that their list seldom grows.
const BYTES_A_TOKEN: usize = 4;

/// Whether each byte may stand in a text.
fn all_allowed(text: &[u8]) -> bool
    ensures { result ≡ list_all is_allowed_test text.now }
{
    let mut good = true;
    // Without an early exit the loop looks at many bytes at once.
    for byte in text {
        good &= is_allowed(*byte);
    }
    good
}

/// The first byte that may not stand in a text.
fn first_bad(text: &[u8]) -> Option<usize>
    ensures { MatchOption result (AreAllowed text.now) (IsFirstBad text.now) }
{
    if all_allowed(text) {
        return None;
    }
    text.iter().position(|byte| !is_allowed(*byte))
}

/// The tokens of a text, or the first place where it has none.
///
/// `Byte` comes exactly where a byte of the text may not stand in one, and `Token` exactly where all
/// may and behind some tokens, blanks and comments neither a token nor an ended comment begins.
pub fn lex(alloc: Global, text: &[u8]) -> Result<Tokens, LexFault>
    requires { length text.now ≤ 1048576 }
    ensures tokens { IfOk result (λ tokens. AreTokens text.now tokens.items) }
    ensures fault { IfErr result (Faults text.now) }
{
    if let Some(place) = first_bad(text) {
        return Err(LexFault::Byte(place as u32));
    }
    let mut tokens = Tokens {
        items: List::with_capacity(alloc, text.len() / BYTES_A_TOKEN + 1)?,
    };
    lex_allowed(&mut tokens, text)?;
    Ok(tokens)
}

/// Writes the tokens of a text whose bytes may all stand in one over what a list had, into its memory.
///
/// A caller that has tested the bytes need not have them tested again. `Token` comes as from [`lex`], `Byte` never.
pub fn lex_allowed(tokens: &mut Tokens, text: &[u8]) -> Result<(), LexFault>
    requires short { length text.now ≤ 1048576 }
    requires allowed { AreAllowed text.now }
    ensures tokens { OnOk result (AreTokens text.now tokens.new.items) }
    ensures fault { IfErr result (Faults text.now) }
    ensures byte { (place : ℕ) → result ≡ Err (Byte place) → ⊥ }
{
    tokens.items.clear();
    let mut at = 0;
    'scan: loop {
        let from = at + gap_len(&text[at..]);
        if from == text.len() {
            return Ok(());
        }
        let Some((what, len)) = first_token(&text[from..]) else {
            return Err(LexFault::Token(from as u32));
        };
        at = from + len;
        tokens.items.push(Token {
            what,
            from: from as u32,
            to: at as u32,
        })?;
    }
}
