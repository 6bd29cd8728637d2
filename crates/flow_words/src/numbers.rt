//! The numbers among the words.
ghost use Rattle.std.specs.Prelude.{◌≡◌, ◌≢◌, ℕ, ◌<◌, ◌^◌, IfSome, IfNone, map, string_bytes, decimal};
ghost use Rattle.flow_words.specs.Numbers.{Names, NamesNone, AreSettings, NameNoSettings};

/// The limit of a store where the words name none.
pub const USUAL_LIMIT: u64 = 1_000_000;

/// The greatest limit of a store.
const MOST_LIMIT: u64 = 10_000_000;

/// The most queues of a store.
const MOST_QUEUES: u64 = 16;

/// How a store is made: its queues and its limit.
#[derive(Clone, Copy, Debug, PartialEq, Eq)]
pub struct Settings {
    pub queues: u8,
    pub limit: u64,
}

/// A decimal number without a zero before it.
pub fn number(word: &str) -> Option<u64>
    ensures some { IfSome result (λ n. word.now ≡ decimal n) }
    ensures none { IfNone result ((n : ℕ) → n < 2 ^ 64 → word.now ≢ decimal n) }
{
    let digits = word.as_bytes();
    if digits.is_empty() || digits[0] == b'+' {
        return None;
    }
    if digits[0] == b'0' && digits.len() > 1 {
        return None;
    }
    word.parse::<u64>().ok()
}

/// A number within bounds.
pub fn number_in(word: &str, least: u64, most: u64) -> Option<u64>
    ensures some { IfSome result (Names word.now least most) }
    ensures none { IfNone result (NamesNone word.now least most) }
{
    let value = number(word)?;
    if least <= value && value <= most {
        Some(value)
    } else {
        None
    }
}

fn queues(word: &str) -> Option<u8>
    ensures some { IfSome result (Names word.now 1 16) }
    ensures none { IfNone result (NamesNone word.now 1 16) }
{
    u8::try_from(number_in(word, 1, MOST_QUEUES)?).ok()
}

fn limit(word: &str) -> Option<u64>
    ensures some { IfSome result (Names word.now 1 10000000) }
    ensures none { IfNone result (NamesNone word.now 1 10000000) }
{
    number_in(word, 1, MOST_LIMIT)
}

/// The settings that these words name: `[LIMIT n] [QUEUES n]`.
pub fn settings_of(words: &[String]) -> Option<Settings>
    ensures some { IfSome result (λ s. AreSettings (map string_bytes words.now) s.queues s.limit) }
    ensures none { IfNone result (NameNoSettings (map string_bytes words.now)) }
{
    match words {
        [] => Some(Settings {
            queues: 1,
            limit: USUAL_LIMIT,
        }),
        [first, word] if first.as_str() == "LIMIT" => Some(Settings {
            queues: 1,
            limit: limit(word.as_str())?,
        }),
        [first, word] if first.as_str() == "QUEUES" => Some(Settings {
            queues: queues(word.as_str())?,
            limit: USUAL_LIMIT,
        }),
        [first, word, second, last] if first.as_str() == "LIMIT" && second.as_str() == "QUEUES" => {
            Some(Settings {
                queues: queues(last.as_str())?,
                limit: limit(word.as_str())?,
            })
        }
        _ => None,
    }
}
