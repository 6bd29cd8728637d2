//! The keywords, and how each is spelled.
ghost use Rattle.std.specs.Prelude.{◌≡◌, Some, IfSome};
ghost use Rattle.std.specs.Str.{bytes_eq};
ghost use Rattle.flow_table.specs.Spelling.{keyword_spelling, with_letter};

/// A word of the process language or of the commands.
#[derive(Clone, Copy, Debug, PartialEq, Eq)]
pub enum Keyword {
    Structure,
    Person,
    Roles,
    Process,
    ProgramActivity,
    ProcessActivity,
    Block,
    End,
    Long,
    String,
    Start,
    Automatic,
    Manual,
    When,
    All,
    Connectors,
    Connector,
    True,
    AtLeastOne,
    Exit,
    DoneBy,
    Role,
    Starter,
    Performer,
    Of,
    Expires,
    Control,
    From,
    To,
    Otherwise,
    Data,
    Source,
    Sink,
    Loop,
    Map,
    Or,
    And,
    Not,
    Import,
    By,
    Key,
    With,
    Turn,
    Drain,
    Claim,
    Release,
    Transfer,
    Take,
    Done,
    Rc,
    Force,
    Restart,
    Suspend,
    Resume,
    Terminate,
    Delete,
    Clock,
    Checkpoint,
    Show,
    Output,
    Input,
    Worklist,
    Queue,
    Audit,
    Templates,
    AtLeast,
}

impl Keyword {
    /// How the keyword is written.
    pub fn spelling(self) -> &'static [u8]
        ensures { result.now ≡ keyword_spelling self }
    {
        match self {
            Keyword::Structure => b"STRUCTURE",
            Keyword::Person => b"PERSON",
            Keyword::Roles => b"ROLES",
            Keyword::Process => b"PROCESS",
            Keyword::ProgramActivity => b"PROGRAM_ACTIVITY",
            Keyword::ProcessActivity => b"PROCESS_ACTIVITY",
            Keyword::Block => b"BLOCK",
            Keyword::End => b"END",
            Keyword::Long => b"LONG",
            Keyword::String => b"STRING",
            Keyword::Start => b"START",
            Keyword::Automatic => b"AUTOMATIC",
            Keyword::Manual => b"MANUAL",
            Keyword::When => b"WHEN",
            Keyword::All => b"ALL",
            Keyword::Connectors => b"CONNECTORS",
            Keyword::Connector => b"CONNECTOR",
            Keyword::True => b"TRUE",
            Keyword::AtLeastOne => b"AT_LEAST_ONE",
            Keyword::Exit => b"EXIT",
            Keyword::DoneBy => b"DONE_BY",
            Keyword::Role => b"ROLE",
            Keyword::Starter => b"STARTER",
            Keyword::Performer => b"PERFORMER",
            Keyword::Of => b"OF",
            Keyword::Expires => b"EXPIRES",
            Keyword::Control => b"CONTROL",
            Keyword::From => b"FROM",
            Keyword::To => b"TO",
            Keyword::Otherwise => b"OTHERWISE",
            Keyword::Data => b"DATA",
            Keyword::Source => b"SOURCE",
            Keyword::Sink => b"SINK",
            Keyword::Loop => b"LOOP",
            Keyword::Map => b"MAP",
            Keyword::Or => b"OR",
            Keyword::And => b"AND",
            Keyword::Not => b"NOT",
            Keyword::Import => b"IMPORT",
            Keyword::By => b"BY",
            Keyword::Key => b"KEY",
            Keyword::With => b"WITH",
            Keyword::Turn => b"TURN",
            Keyword::Drain => b"DRAIN",
            Keyword::Claim => b"CLAIM",
            Keyword::Release => b"RELEASE",
            Keyword::Transfer => b"TRANSFER",
            Keyword::Take => b"TAKE",
            Keyword::Done => b"DONE",
            Keyword::Rc => b"RC",
            Keyword::Force => b"FORCE",
            Keyword::Restart => b"RESTART",
            Keyword::Suspend => b"SUSPEND",
            Keyword::Resume => b"RESUME",
            Keyword::Terminate => b"TERMINATE",
            Keyword::Delete => b"DELETE",
            Keyword::Clock => b"CLOCK",
            Keyword::Checkpoint => b"CHECKPOINT",
            Keyword::Show => b"SHOW",
            Keyword::Output => b"OUTPUT",
            Keyword::Input => b"INPUT",
            Keyword::Worklist => b"WORKLIST",
            Keyword::Queue => b"QUEUE",
            Keyword::Audit => b"AUDIT",
            Keyword::Templates => b"TEMPLATES",
            Keyword::AtLeast => b"AT_LEAST",
        }
    }

    /// The keyword that is written so, or None exactly where none is. No two keywords are written alike.
    pub fn from_word(word: &[u8]) -> Option<Keyword>
        ensures found { IfSome result (λ keyword. keyword_spelling keyword ≡ word.now) }
        ensures all { (keyword : Keyword) → keyword_spelling keyword ≡ word.now → result ≡ Some keyword }
    {
        let letter = word.first().copied().unwrap_or(0);
        for keyword in with_letter(letter) {
            if is_same(keyword.spelling(), word) {
                return Some(*keyword);
            }
        }
        None
    }
}

/// Whether two spellings are one. Words are short: byte by byte is faster than the comparison of long slices.
fn is_same(first: &[u8], second: &[u8]) -> bool
    ensures { result ≡ bytes_eq first.now second.now }
{
    match (first, second) {
        ([], []) => true,
        ([byte, rest @ ..], [other, others @ ..]) => byte == other && is_same(rest, others),
        _ => false,
    }
}

/// The keywords that begin with this letter.
fn with_letter(letter: u8) -> &'static [Keyword]
    ensures { result.now ≡ with_letter letter }
{
    match letter {
        b'A' => &[
            Keyword::Automatic,
            Keyword::All,
            Keyword::AtLeastOne,
            Keyword::And,
            Keyword::Audit,
            Keyword::AtLeast,
        ],
        b'B' => &[Keyword::Block, Keyword::By],
        b'C' => &[
            Keyword::Connectors,
            Keyword::Connector,
            Keyword::Control,
            Keyword::Claim,
            Keyword::Clock,
            Keyword::Checkpoint,
        ],
        b'D' => &[
            Keyword::DoneBy,
            Keyword::Data,
            Keyword::Drain,
            Keyword::Done,
            Keyword::Delete,
        ],
        b'E' => &[Keyword::End, Keyword::Exit, Keyword::Expires],
        b'F' => &[Keyword::From, Keyword::Force],
        b'I' => &[Keyword::Import, Keyword::Input],
        b'K' => &[Keyword::Key],
        b'L' => &[Keyword::Long, Keyword::Loop],
        b'M' => &[Keyword::Manual, Keyword::Map],
        b'N' => &[Keyword::Not],
        b'O' => &[
            Keyword::Of,
            Keyword::Otherwise,
            Keyword::Or,
            Keyword::Output,
        ],
        b'P' => &[
            Keyword::Person,
            Keyword::Process,
            Keyword::ProgramActivity,
            Keyword::ProcessActivity,
            Keyword::Performer,
        ],
        b'Q' => &[Keyword::Queue],
        b'R' => &[
            Keyword::Roles,
            Keyword::Role,
            Keyword::Release,
            Keyword::Rc,
            Keyword::Restart,
            Keyword::Resume,
        ],
        b'S' => &[
            Keyword::Structure,
            Keyword::String,
            Keyword::Start,
            Keyword::Starter,
            Keyword::Source,
            Keyword::Sink,
            Keyword::Suspend,
            Keyword::Show,
        ],
        b'T' => &[
            Keyword::True,
            Keyword::To,
            Keyword::Turn,
            Keyword::Transfer,
            Keyword::Take,
            Keyword::Terminate,
            Keyword::Templates,
        ],
        b'W' => &[Keyword::When, Keyword::With, Keyword::Worklist],
        _ => &[],
    }
}
