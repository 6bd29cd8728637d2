//! What stands between tokens.
ghost use Rattle.std.specs.Prelude.{ℕ, MatchOption};
ghost use Rattle.fdl_lexer.specs.Gaps.{HasComment, IsCommentLen, IsGapLen};

use crate::bytes::is_blank;

/// How long the ended comment is that begins these bytes.
fn comment_len(bytes: &[u8]) -> Option<usize>
    ensures { MatchOption result ((k : ℕ) → HasComment bytes.now k → ⊥) (IsCommentLen bytes.now) }
{
    if bytes.len() < 4 || bytes[0] != b'/' || bytes[1] != b'*' {
        return None;
    }
    for place in 2..bytes.len() - 1 {
        if bytes[place] == b'*' && bytes[place + 1] == b'/' {
            return Some(place + 2);
        }
    }
    None
}

/// How long the blanks and ended comments are that begin these bytes.
pub fn gap_len(bytes: &[u8]) -> usize
    ensures { IsGapLen bytes.now result }
{
    let mut at = 0;
    while at < bytes.len() {
        if is_blank(bytes[at]) {
            at += 1;
        } else {
            match comment_len(&bytes[at..]) {
                Some(len) => at += len,
                None => return at,
            }
        }
    }
    at
}
