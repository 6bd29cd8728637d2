//! The word `check`: the canonical text of a text that breaks no rule.
ghost use Rattle.std.specs.Prelude.{◌≡◌, ℕ, Some, None, [], ◌∷◌, codes, IfOk};
ghost use Rattle.text_words.specs.Answers.{Refuses, AnswersTree, RefusesRule};

use crate::input::Input;
use fdl_print::canonical;
use flow_text::decimal;
use std::alloc::{AllocError, Global};
use template_check::{Catalog, ImportFault, RuleFault, compile, syntax_tree};

/// What a word prints, and whether it refuses its input.
#[derive(Drop)]
pub struct Answer {
    pub text: Vec<u8>,
    pub is_refused: bool,
}

/// A refusal with numbers behind its code, as a line.
pub fn refusal(alloc: Global, code: &[u8], numbers: &[u64]) -> Result<Answer, AllocError>
    ensures { IfOk result (λ answer. Refuses answer code.now numbers.now) }
{
    let mut text = Vec::from_slice(alloc, b"no ")?;
    text.extend_from_slice(code)?;
    for number in numbers {
        text.push(b' ')?;
        decimal(&mut text, *number)?;
    }
    text.push(b'\n')?;
    Ok(Answer {
        text,
        is_refused: true,
    })
}

/// The refusal of a text that breaks a rule.
pub fn rule_refusal(alloc: Global, fault: &RuleFault) -> Result<Answer, AllocError>
    ensures { IfOk result (λ answer. RefusesRule answer fault.now) }
{
    let numbers = [u64::from(fault.rule), u64::from(fault.line)];
    refusal(alloc, b"RULE", &numbers)
}

/// The canonical text of a text that breaks no rule, or its refusal.
fn judged(alloc: Global, text: &[u8]) -> Result<Answer, AllocError>
    ensures { IfOk result (AnswersTree text.now) }
{
    match compile(alloc, text, &Catalog::new(alloc)) {
        Ok(_) => {}
        Err(ImportFault::Rule(fault)) => return rule_refusal(alloc, &fault),
        Err(ImportFault::NoMemory) => return Err(AllocError),
    }
    match syntax_tree(alloc, text) {
        Ok(tree) => Ok(Answer {
            text: canonical(alloc, &tree)?,
            is_refused: false,
        }),
        Err(_) => Err(AllocError),
    }
}

/// What `check` answers to an input.
pub fn checked(alloc: Global, input: &Input) -> Result<Answer, AllocError>
    ensures long { (line : ℕ) → input.now.too_long ≡ Some line
        → IfOk result (λ answer. Refuses answer (codes "LINE") (line ∷ [])) }
    ensures judged { input.now.too_long ≡ None → IfOk result (AnswersTree input.now.text.items) }
{
    match input.too_long {
        Some(line) => refusal(alloc, b"LINE", &[line]),
        None => judged(alloc, &input.text),
    }
}
