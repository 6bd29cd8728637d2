//! The word `fate`: the fates of a root by the completions alone.
ghost use Rattle.std.specs.Prelude.{◌≡◌, ◌-◌, ℕ, true, false, Some, None, [], ◌∷◌, ◌++◌, codes, length, slice_get};
ghost use Rattle.std.specs.Prelude.{unwrap_or, IfOk, OnOk};
ghost use Rattle.std.specs.List.{flat_map};
ghost use Rattle.reply_text.specs.Replies.{row_text};
ghost use Rattle.template_check.specs.Built.{AreSound};
ghost use Rattle.text_words.specs.Answers.{Refuses, Tells};
ghost use Rattle.text_words.specs.FateAnswers.{state_word, counted, complete_text, output_text, fates_text};
ghost use Rattle.text_words.specs.FateAnswers.{RefusesLine, TellsFates, IsOfLast, AnswersLibrary, AnswersText};
ghost use Rattle.text_words.specs.Completions.{AreOfOne};

use crate::check::{Answer, refusal, rule_refusal};
use crate::completions::{LineFault, Read, read_completions};
use crate::input::Input;
use containers::fresh;
use fate_eval::{FateFault, Fates, fates};
use flow_model::{Container, FateRow, Leaves, Library, Template};
use flow_text::decimal;
use reply_text::{write_container, write_row};
use std::alloc::{AllocError, Global};
use template_check::ImportFault;
use template_store::TemplateStore;

/// Appends a line for each row.
fn write_rows(out: &mut Vec<u8>, rows: &[FateRow]) -> Result<(), AllocError>
    ensures { OnOk result (out.new.items ≡ out.old.items ++ flat_map row_text rows.now) }
{
    for row in rows {
        write_row(out, row)?;
    }
    Ok(())
}

/// Appends a line that ends with a number.
fn write_counted(out: &mut Vec<u8>, words: &[u8], number: u64) -> Result<(), AllocError>
    ensures { OnOk result (out.new.items ≡ out.old.items ++ counted words.now number) }
{
    out.extend_from_slice(words)?;
    decimal(out, number)?;
    out.push(b'\n')?;
    Ok(())
}

/// Appends the number of values and a line for each.
fn write_complete(out: &mut Vec<u8>, leaves: &Leaves, output: &Container) -> Result<(), AllocError>
    ensures { OnOk result (out.new.items ≡ out.old.items ++ complete_text leaves.now output.now) }
{
    write_counted(out, b"ok OUTPUT 1 ", output.values.len() as u64)?;
    write_container(out, leaves, output)?;
    Ok(())
}

/// Appends the output of a root that is complete.
fn write_output(
    out: &mut Vec<u8>,
    leaves: &Leaves,
    output: &Option<Container>,
) -> Result<(), AllocError>
    ensures { OnOk result (out.new.items ≡ out.old.items ++ output_text leaves.now output.now) }
{
    match output {
        Some(output) => write_complete(out, leaves, output),
        None => Ok(()),
    }
}

/// Appends whether a root is complete.
fn write_state(out: &mut Vec<u8>, output: &Option<Container>) -> Result<(), AllocError>
    ensures { OnOk result (out.new.items ≡ out.old.items ++ state_word output.now) }
{
    match output {
        Some(_) => out.extend_from_slice(b"DONE "),
        None => out.extend_from_slice(b"OPEN "),
    }
}

/// The fates as they are printed.
fn written(alloc: Global, leaves: &Leaves, fates: &Fates) -> Result<Answer, AllocError>
    ensures { IfOk result (λ answer. Tells answer (fates_text leaves.now fates.now.rows fates.now.output)) }
{
    let mut text = Vec::from_slice(alloc, b"ok FATE ")?;
    write_state(&mut text, &fates.output)?;
    decimal(&mut text, fates.rows.len() as u64)?;
    text.push(b'\n')?;
    write_rows(&mut text, fates.rows.as_slice())?;
    write_output(&mut text, leaves, &fates.output)?;
    Ok(Answer {
        text,
        is_refused: false,
    })
}

/// The refusal of a line whose target could be ready.
fn line_refusal(alloc: Global, line: u64, fault: LineFault) -> Result<Answer, AllocError>
    ensures { IfOk result (λ answer. RefusesLine answer line fault) }
{
    match fault {
        LineFault::Word(place) => refusal(alloc, b"WORD", &[line, u64::from(place)]),
        LineFault::Target => refusal(alloc, b"NOTREADY", &[line]),
        LineFault::Value(place) => refusal(alloc, b"VALUE", &[line, u64::from(place)]),
    }
}

/// The fates, unless a line can't be accepted.
fn told(
    alloc: Global,
    leaves: &Leaves,
    fault: Option<(u64, LineFault)>,
    found: &Fates,
) -> Result<Answer, AllocError>
    ensures { IfOk result (λ answer. TellsFates answer (fates_text leaves.now found.now.rows found.now.output) fault) }
{
    match fault {
        Some((line, fault)) => line_refusal(alloc, line, fault),
        None => written(alloc, leaves, found),
    }
}

/// The number of the line of a completion.
fn line_of(read: &Read, number: u64) -> u64
    ensures { result ≡ unwrap_or (slice_get read.now.lines.items number) 0 }
{
    read.lines.get(number as usize).copied().unwrap_or(0)
}

/// The answer by the completions that were read.
fn by_completions(
    alloc: Global,
    library: &Library,
    place: u32,
    template: &Template,
    read: &Read,
) -> Result<Answer, AllocError>
    requires there { slice_get library.now.templates place ≡ Some template.now }
    requires last { place ≡ length library.now.templates - 1 }
    requires sound { AreSound library.now.templates }
    requires of_one { AreOfOne read.now.counted.facts.items }
    ensures { IfOk result (λ answer. IsOfLast answer library.now.templates template.now read.now) }
{
    let graph = &template.graph;
    let input = fresh(alloc, &graph.input)?;
    match fates(alloc, library, place, 1, &input, &read.counted.facts) {
        Err(FateFault::NoMemory) => Err(AllocError),
        Err(FateFault::NotReady(number)) => {
            let line = line_of(read, number);
            refusal(alloc, b"NOTREADY", &[line])
        }
        Ok(found) => told(alloc, &graph.output, read.fault, &found),
    }
}

/// The answer over an accepted text.
fn over_library(alloc: Global, library: &Library, input: &Input) -> Result<Answer, AllocError>
    requires { AreSound library.now.templates }
    ensures { IfOk result (λ answer. AnswersLibrary answer library.now.templates input.now.behind.items) }
{
    let count = library.templates.len();
    let place = count.saturating_sub(1);
    let Some(template) = library.templates.as_slice().get(place) else {
        return refusal(alloc, b"PROCESS", &[]);
    };
    let read = read_completions(alloc, library, &template.graph, &input.behind)?;
    let Ok(place) = u32::try_from(place) else {
        return Err(AllocError);
    };
    by_completions(alloc, library, place, template, &read)
}

/// What `fate` answers to an input.
pub fn fated(alloc: Global, input: &Input) -> Result<Answer, AllocError>
    ensures long { (line : ℕ) → input.now.too_long ≡ Some line
        → IfOk result (λ answer. Refuses answer (codes "LINE") (line ∷ [])) }
    ensures unended { input.now.too_long ≡ None → input.now.is_ended ≡ false
        → IfOk result (λ answer. Refuses answer (codes "UNENDED") []) }
    ensures judged { input.now.too_long ≡ None → input.now.is_ended ≡ true
        → IfOk result (λ answer. AnswersText input.now.text.items answer input.now.behind.items) }
{
    if let Some(line) = input.too_long {
        return refusal(alloc, b"LINE", &[line]);
    }
    if !input.is_ended {
        return refusal(alloc, b"UNENDED", &[]);
    }
    let mut store = TemplateStore::new(alloc);
    match store.import(alloc, &input.text) {
        Err(ImportFault::Rule(fault)) => rule_refusal(alloc, &fault),
        Err(ImportFault::NoMemory) => Err(AllocError),
        Ok(_) => over_library(alloc, store.library(), input),
    }
}
