//! The grammar of commands over the tokens of a line.
ghost use Rattle.std.specs.Prelude.{◌≡◌, ◌<◌, true, [], length, IfOk, IfErr, IfSome, Some};
ghost use Rattle.fdl_parser.specs.Faults.{Names};
ghost use Rattle.fdl_parser.specs.Stops.{Reads, Anything, AtEnd, IsTaken, Stops};
ghost use Rattle.fdl_parser.specs.Tokens.{StaysWithin, first_kind};
ghost use Rattle.command_lang.specs.Grammar.{IsNamed, IsValue, IsSetting, IsWith, IsReturnCode, IsOutcome, IsKey};
ghost use Rattle.command_lang.specs.Grammar.{IsWho, IsBehind, IsCommand, IsTarget, IsCompletion};
ghost use Rattle.command_lang.specs.Refusing.{is_query_word, is_number_word, is_item_word, is_first_word, NoWord};
ghost use Rattle.command_lang.specs.Refusing.{SomeCommand, SomeCompletion, Refuses};

use fdl_lexer::{Mark, What};
use fdl_parser::{Cursor, SyntaxFault};
use flow_model::{
    Bytes, Command, Completion, List, Name, NumberAt, Outcome, Query, RawSetting, RawValue, Target,
    Who,
};
use flow_table::Keyword;

/// Takes a word, and a name behind it.
fn named(cursor: &mut Cursor<'_>, word: Keyword) -> Result<Name, SyntaxFault>
    ensures within { StaysWithin cursor.old cursor.new }
    ensures read { IfOk result (λ x. IsNamed word x cursor.old.left cursor.new.left) }
    ensures names { IfErr result (Names cursor.new) }
    ensures stops { IfErr result (Stops Anything (Reads (IsNamed word)) cursor.old.left cursor.new.left) }
{
    cursor.word(word)?;
    let named = cursor.name()?;
    Ok(named.name)
}

fn value(cursor: &mut Cursor<'_>) -> Result<RawValue, SyntaxFault>
    ensures shorter { IfOk result (λ _. length cursor.new.left < length cursor.old.left) }
    ensures within { StaysWithin cursor.old cursor.new }
    ensures read { IfOk result (λ x. IsValue x cursor.old.left cursor.new.left) }
    ensures names { IfErr result (Names cursor.new) }
    ensures stops { IfErr result (Stops Anything (Reads IsValue) cursor.old.left cursor.new.left) }
{
    if cursor.is_next(What::Text) {
        let (text, place) = cursor.text()?;
        return Ok(RawValue::Text(text, place));
    }
    let number = cursor.signed()?;
    Ok(RawValue::Number(number))
}

fn setting(cursor: &mut Cursor<'_>) -> Result<RawSetting, SyntaxFault>
    ensures shorter { IfOk result (λ _. length cursor.new.left < length cursor.old.left) }
    ensures within { StaysWithin cursor.old cursor.new }
    ensures read { IfOk result (λ x. IsSetting x cursor.old.left cursor.new.left) }
    ensures names { IfErr result (Names cursor.new) }
    ensures stops { IfErr result (Stops Anything (Reads IsSetting) cursor.old.left cursor.new.left) }
{
    let leaf = cursor.leaf()?;
    cursor.mark(Mark::Equal)?;
    let value = value(cursor)?;
    Ok(RawSetting { leaf, value })
}

/// Takes WITH and the settings behind it, if it stands there.
fn settings(cursor: &mut Cursor<'_>) -> Result<List<RawSetting>, SyntaxFault>
    ensures within { StaysWithin cursor.old cursor.new }
    ensures read { IfOk result (λ x. IsWith x cursor.old.left cursor.new.left) }
    ensures names { IfErr result (Names cursor.new) }
    ensures taken { IfOk result (λ _. IsTaken AtEnd (Reads IsWith) cursor.old.left cursor.new.left) }
    ensures stops { IfErr result (Stops AtEnd (Reads IsWith) cursor.old.left cursor.new.left) }
{
    let mut settings = List::new(cursor.alloc());
    if !cursor.is_word(Keyword::With) {
        return Ok(settings);
    }
    cursor.word(Keyword::With)?;
    let first = setting(cursor)?;
    settings.push(first)?;
    while cursor.is_mark(Mark::Comma) {
        cursor.mark(Mark::Comma)?;
        let next = setting(cursor)?;
        settings.push(next)?;
    }
    Ok(settings)
}

/// Takes RC and the number behind it, if it stands there.
fn return_code(cursor: &mut Cursor<'_>) -> Result<Option<NumberAt>, SyntaxFault>
    ensures within { StaysWithin cursor.old cursor.new }
    ensures read { IfOk result (λ x. IsReturnCode x cursor.old.left cursor.new.left) }
    ensures names { IfErr result (Names cursor.new) }
    ensures taken { IfOk result (λ _. IsTaken (NoWord Keyword.Rc) (Reads IsReturnCode) cursor.old.left
        cursor.new.left) }
    ensures stops { IfErr result (Stops (NoWord Keyword.Rc) (Reads IsReturnCode) cursor.old.left cursor.new.left) }
{
    if !cursor.is_word(Keyword::Rc) {
        return Ok(None);
    }
    cursor.word(Keyword::Rc)?;
    let code = cursor.signed()?;
    Ok(Some(code))
}

fn outcome(cursor: &mut Cursor<'_>) -> Result<Outcome, SyntaxFault>
    ensures within { StaysWithin cursor.old cursor.new }
    ensures read { IfOk result (λ x. IsOutcome x cursor.old.left cursor.new.left) }
    ensures names { IfErr result (Names cursor.new) }
    ensures taken { IfOk result (λ _. IsTaken AtEnd (Reads IsOutcome) cursor.old.left cursor.new.left) }
    ensures stops { IfErr result (Stops AtEnd (Reads IsOutcome) cursor.old.left cursor.new.left) }
{
    let rc = return_code(cursor)?;
    let settings = settings(cursor)?;
    Ok(Outcome { rc, settings })
}

/// Takes KEY and the name behind it, if it stands there.
fn key(cursor: &mut Cursor<'_>) -> Result<Option<Name>, SyntaxFault>
    ensures within { StaysWithin cursor.old cursor.new }
    ensures read { IfOk result (λ x. IsKey x cursor.old.left cursor.new.left) }
    ensures names { IfErr result (Names cursor.new) }
    ensures taken { IfOk result (λ _. IsTaken (NoWord Keyword.Key) (Reads IsKey) cursor.old.left cursor.new.left) }
    ensures stops { IfErr result (Stops (NoWord Keyword.Key) (Reads IsKey) cursor.old.left cursor.new.left) }
{
    if !cursor.is_word(Keyword::Key) {
        return Ok(None);
    }
    let key = named(cursor, Keyword::Key)?;
    Ok(Some(key))
}

/// Takes who completes an item.
fn who(cursor: &mut Cursor<'_>) -> Result<Who, SyntaxFault>
    ensures within { StaysWithin cursor.old cursor.new }
    ensures read { IfOk result (λ x. IsWho x cursor.old.left cursor.new.left) }
    ensures names { IfErr result (Names cursor.new) }
    ensures stops { IfErr result (Stops Anything (Reads IsWho) cursor.old.left cursor.new.left) }
{
    if cursor.is_word(Keyword::By) {
        let person = named(cursor, Keyword::By)?;
        return Ok(Who::Person(person));
    }
    cursor.word(Keyword::Take)?;
    let number = cursor.number()?;
    Ok(Who::Agent(number.size))
}

/// Takes what stands behind START.
fn start(cursor: &mut Cursor<'_>) -> Result<Command, SyntaxFault>
    ensures within { StaysWithin cursor.old cursor.new }
    ensures read { IfOk result (λ x. IsBehind Keyword.Start x cursor.old.left cursor.new.left) }
    ensures names { IfErr result (Names cursor.new) }
    ensures taken { IfOk result (λ _. IsTaken AtEnd (Reads (IsBehind Keyword.Start)) cursor.old.left cursor.new.left) }
    ensures stops { IfErr result (Stops AtEnd (Reads (IsBehind Keyword.Start)) cursor.old.left cursor.new.left) }
{
    let process = cursor.name()?;
    let starter = named(cursor, Keyword::By)?;
    let key = key(cursor)?;
    let settings = settings(cursor)?;
    Ok(Command::Start(process.name, starter, key, settings))
}

/// Takes what stands behind CLAIM.
fn claim(cursor: &mut Cursor<'_>) -> Result<Command, SyntaxFault>
    ensures within { StaysWithin cursor.old cursor.new }
    ensures read { IfOk result (λ x. IsBehind Keyword.Claim x cursor.old.left cursor.new.left) }
    ensures names { IfErr result (Names cursor.new) }
    ensures taken { IfOk result (λ _. IsTaken AtEnd (Reads (IsBehind Keyword.Claim)) cursor.old.left cursor.new.left) }
    ensures stops { IfErr result (Stops AtEnd (Reads (IsBehind Keyword.Claim)) cursor.old.left cursor.new.left) }
{
    let item = cursor.item()?;
    let person = named(cursor, Keyword::By)?;
    Ok(Command::Claim(item, person))
}

/// Takes what stands behind RELEASE.
fn release(cursor: &mut Cursor<'_>) -> Result<Command, SyntaxFault>
    ensures within { StaysWithin cursor.old cursor.new }
    ensures read { IfOk result (λ x. IsBehind Keyword.Release x cursor.old.left cursor.new.left) }
    ensures names { IfErr result (Names cursor.new) }
    ensures taken { IfOk result (λ _. IsTaken AtEnd (Reads (IsBehind Keyword.Release)) cursor.old.left
        cursor.new.left) }
    ensures stops { IfErr result (Stops AtEnd (Reads (IsBehind Keyword.Release)) cursor.old.left cursor.new.left) }
{
    let item = cursor.item()?;
    let person = named(cursor, Keyword::By)?;
    Ok(Command::Release(item, person))
}

/// Takes what stands behind TRANSFER.
fn transfer(cursor: &mut Cursor<'_>) -> Result<Command, SyntaxFault>
    ensures within { StaysWithin cursor.old cursor.new }
    ensures read { IfOk result (λ x. IsBehind Keyword.Transfer x cursor.old.left cursor.new.left) }
    ensures names { IfErr result (Names cursor.new) }
    ensures taken { IfOk result (λ _. IsTaken AtEnd (Reads (IsBehind Keyword.Transfer)) cursor.old.left
        cursor.new.left) }
    ensures stops { IfErr result (Stops AtEnd (Reads (IsBehind Keyword.Transfer)) cursor.old.left cursor.new.left) }
{
    let item = cursor.item()?;
    let from = named(cursor, Keyword::By)?;
    let to = named(cursor, Keyword::To)?;
    Ok(Command::Transfer(item, from, to))
}

/// Takes what stands behind DONE.
fn done(cursor: &mut Cursor<'_>) -> Result<Command, SyntaxFault>
    ensures within { StaysWithin cursor.old cursor.new }
    ensures read { IfOk result (λ x. IsBehind Keyword.Done x cursor.old.left cursor.new.left) }
    ensures names { IfErr result (Names cursor.new) }
    ensures taken { IfOk result (λ _. IsTaken AtEnd (Reads (IsBehind Keyword.Done)) cursor.old.left cursor.new.left) }
    ensures stops { IfErr result (Stops AtEnd (Reads (IsBehind Keyword.Done)) cursor.old.left cursor.new.left) }
{
    let item = cursor.item()?;
    let who = who(cursor)?;
    let outcome = outcome(cursor)?;
    Ok(Command::Done(item, who, outcome))
}

/// Takes what stands behind FORCE.
fn force(cursor: &mut Cursor<'_>) -> Result<Command, SyntaxFault>
    ensures within { StaysWithin cursor.old cursor.new }
    ensures read { IfOk result (λ x. IsBehind Keyword.Force x cursor.old.left cursor.new.left) }
    ensures names { IfErr result (Names cursor.new) }
    ensures taken { IfOk result (λ _. IsTaken AtEnd (Reads (IsBehind Keyword.Force)) cursor.old.left cursor.new.left) }
    ensures stops { IfErr result (Stops AtEnd (Reads (IsBehind Keyword.Force)) cursor.old.left cursor.new.left) }
{
    let item = cursor.item()?;
    let outcome = outcome(cursor)?;
    Ok(Command::Force(item, outcome))
}

/// Takes what stands behind the first word of a command that only asks.
fn query_behind(cursor: &mut Cursor<'_>, word: Keyword) -> Result<Command, SyntaxFault>
    requires { is_query_word word ≡ true }
    ensures within { StaysWithin cursor.old cursor.new }
    ensures read { IfOk result (λ x. IsBehind word x cursor.old.left cursor.new.left) }
    ensures names { IfErr result (Names cursor.new) }
    ensures taken { IfOk result (λ _. IsTaken AtEnd (Reads (IsBehind word)) cursor.old.left cursor.new.left) }
    ensures stops { IfErr result (Stops AtEnd (Reads (IsBehind word)) cursor.old.left cursor.new.left) }
{
    match word {
        Keyword::Show => {
            let number = cursor.number()?;
            Ok(Command::Ask(Query::Show(number.size)))
        }
        Keyword::Output => {
            let number = cursor.number()?;
            Ok(Command::Ask(Query::Output(number.size)))
        }
        Keyword::Input => {
            let item = cursor.item()?;
            Ok(Command::Ask(Query::Input(item)))
        }
        Keyword::Worklist => {
            let person = cursor.name()?;
            Ok(Command::Ask(Query::Worklist(person.name)))
        }
        Keyword::Queue => {
            let number = cursor.number()?;
            Ok(Command::Ask(Query::Queue(number.size)))
        }
        Keyword::Audit => {
            let number = cursor.number()?;
            Ok(Command::Ask(Query::Audit(number.size)))
        }
        Keyword::Templates => Ok(Command::Ask(Query::Templates)),
        _ => Err(cursor.fault()),
    }
}

/// Takes what stands behind the first word of a command on a root, a queue or the clock, or of one that only asks.
fn number_behind(cursor: &mut Cursor<'_>, word: Keyword) -> Result<Command, SyntaxFault>
    requires { is_number_word word ≡ true }
    ensures within { StaysWithin cursor.old cursor.new }
    ensures read { IfOk result (λ x. IsBehind word x cursor.old.left cursor.new.left) }
    ensures names { IfErr result (Names cursor.new) }
    ensures taken { IfOk result (λ _. IsTaken AtEnd (Reads (IsBehind word)) cursor.old.left cursor.new.left) }
    ensures stops { IfErr result (Stops AtEnd (Reads (IsBehind word)) cursor.old.left cursor.new.left) }
{
    match word {
        Keyword::Turn => {
            let number = cursor.number()?;
            Ok(Command::Turn(number.size))
        }
        Keyword::Suspend => {
            let number = cursor.number()?;
            Ok(Command::Suspend(number.size))
        }
        Keyword::Resume => {
            let number = cursor.number()?;
            Ok(Command::Resume(number.size))
        }
        Keyword::Terminate => {
            let number = cursor.number()?;
            Ok(Command::Terminate(number.size))
        }
        Keyword::Delete => {
            let number = cursor.number()?;
            Ok(Command::Delete(number.size))
        }
        Keyword::Clock => {
            let number = cursor.number()?;
            Ok(Command::Clock(number))
        }
        _ => query_behind(cursor, word),
    }
}

/// Takes what stands behind the first word of a command on items, or of one of those that follow.
fn item_behind(cursor: &mut Cursor<'_>, word: Keyword) -> Result<Command, SyntaxFault>
    requires { is_item_word word ≡ true }
    ensures within { StaysWithin cursor.old cursor.new }
    ensures read { IfOk result (λ x. IsBehind word x cursor.old.left cursor.new.left) }
    ensures names { IfErr result (Names cursor.new) }
    ensures taken { IfOk result (λ _. IsTaken AtEnd (Reads (IsBehind word)) cursor.old.left cursor.new.left) }
    ensures stops { IfErr result (Stops AtEnd (Reads (IsBehind word)) cursor.old.left cursor.new.left) }
{
    match word {
        Keyword::Claim => claim(cursor),
        Keyword::Release => release(cursor),
        Keyword::Transfer => transfer(cursor),
        Keyword::Take => {
            let item = cursor.item()?;
            Ok(Command::Take(item))
        }
        Keyword::Done => done(cursor),
        Keyword::Force => force(cursor),
        Keyword::Restart => {
            let item = cursor.item()?;
            Ok(Command::Restart(item))
        }
        _ => number_behind(cursor, word),
    }
}

/// Takes what stands behind the first word of a command.
fn behind(cursor: &mut Cursor<'_>, word: Keyword) -> Result<Command, SyntaxFault>
    requires { is_first_word word ≡ true }
    ensures within { StaysWithin cursor.old cursor.new }
    ensures read { IfOk result (λ x. IsBehind word x cursor.old.left cursor.new.left) }
    ensures names { IfErr result (Names cursor.new) }
    ensures taken { IfOk result (λ _. IsTaken AtEnd (Reads (IsBehind word)) cursor.old.left cursor.new.left) }
    ensures stops { IfErr result (Stops AtEnd (Reads (IsBehind word)) cursor.old.left cursor.new.left) }
{
    match word {
        Keyword::Import => Ok(Command::Import(Bytes::from_vec(Vec::new(cursor.alloc())))),
        Keyword::Start => start(cursor),
        Keyword::Drain => Ok(Command::Drain),
        Keyword::Checkpoint => Ok(Command::Checkpoint),
        _ => item_behind(cursor, word),
    }
}

/// Whether a command begins with this word.
fn begins(word: Keyword) -> bool
    ensures { result ≡ is_first_word word }
{
    matches!(
        word,
        Keyword::Start
            | Keyword::Import
            | Keyword::Turn
            | Keyword::Drain
            | Keyword::Claim
            | Keyword::Release
            | Keyword::Transfer
            | Keyword::Take
            | Keyword::Done
            | Keyword::Force
            | Keyword::Restart
            | Keyword::Suspend
            | Keyword::Resume
            | Keyword::Terminate
            | Keyword::Delete
            | Keyword::Clock
            | Keyword::Checkpoint
            | Keyword::Show
            | Keyword::Output
            | Keyword::Input
            | Keyword::Worklist
            | Keyword::Queue
            | Keyword::Audit
            | Keyword::Templates
    )
}

/// The word with which a command begins, if this is one.
fn first_of(what: What) -> Option<Keyword>
    ensures word { IfSome result (λ word. what ≡ What.Word word) }
    ensures begins { IfSome result (λ word. is_first_word word ≡ true) }
    ensures other { (word : Keyword) → what ≡ What.Word word → is_first_word word ≡ true → result ≡ Some word }
{
    match what {
        What::Word(word) => { if begins(word) { Some(word) } else { None } }
        _ => None,
    }
}

/// The next token, if it is a word with which a command begins.
fn first_word(cursor: &Cursor<'_>) -> Option<Keyword>
    ensures word { IfSome result (λ word. first_kind cursor.now.left ≡ Some (What.Word word)) }
    ensures begins { IfSome result (λ word. is_first_word word ≡ true) }
    ensures other { (word : Keyword) → first_kind cursor.now.left ≡ Some (What.Word word) → is_first_word word ≡ true
        → result ≡ Some word }
{
    match cursor.peek() {
        Some(what) => first_of(what),
        None => None,
    }
}

/// Takes the end of the line.
fn end(cursor: &Cursor<'_>) -> Result<(), SyntaxFault>
    ensures read { IfOk result (λ _. cursor.now.left ≡ []) }
    ensures names { IfErr result (Names cursor.now) }
    ensures left { IfErr result (λ _. 0 < length cursor.now.left) }
{
    if cursor.is_at_end() {
        Ok(())
    } else {
        Err(cursor.fault())
    }
}

/// Takes a whole command.
pub fn command(cursor: &mut Cursor<'_>) -> Result<Command, SyntaxFault>
    ensures within { StaysWithin cursor.old cursor.new }
    ensures read { IfOk result (λ x. IsCommand x cursor.old.left) }
    ensures names { IfErr result (Names cursor.new) }
    ensures refused { IfErr result (Refuses SomeCommand cursor.old.left cursor.new.left) }
{
    let Some(word) = first_word(cursor) else {
        return Err(cursor.fault());
    };
    cursor.word(word)?;
    let command = behind(cursor, word)?;
    end(cursor)?;
    Ok(command)
}

/// Takes what a completion line completes.
fn target(cursor: &mut Cursor<'_>) -> Result<Target, SyntaxFault>
    ensures within { StaysWithin cursor.old cursor.new }
    ensures read { IfOk result (λ x. IsTarget x cursor.old.left cursor.new.left) }
    ensures names { IfErr result (Names cursor.new) }
    ensures stops { IfErr result (Stops Anything (Reads IsTarget) cursor.old.left cursor.new.left) }
{
    if cursor.is_next(What::Item) {
        let item = cursor.item()?;
        return Ok(Target::Item(item));
    }
    let activity = cursor.name()?;
    Ok(Target::Activity(activity.name))
}

/// Takes a whole completion.
pub fn completion(cursor: &mut Cursor<'_>) -> Result<Completion, SyntaxFault>
    ensures within { StaysWithin cursor.old cursor.new }
    ensures read { IfOk result (λ x. IsCompletion x cursor.old.left) }
    ensures names { IfErr result (Names cursor.new) }
    ensures refused { IfErr result (Refuses SomeCompletion cursor.old.left cursor.new.left) }
{
    cursor.word(Keyword::Done)?;
    let target = target(cursor)?;
    let outcome = outcome(cursor)?;
    end(cursor)?;
    Ok(Completion { target, outcome })
}
