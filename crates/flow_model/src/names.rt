ghost use Rattle.std.specs.Prelude.{◌≡◌, ◌==◌, [], length, IfOk, IsErrOf, true, false};
ghost use Rattle.std.specs.List.{list_all};
ghost use Rattle.flow_model.specs.Words.{is_name_byte as name_byte_test, is_name as name_test};
ghost use Rattle.flow_model.specs.Words.{is_text_byte as text_byte_test, is_text as text_test};
ghost use Rattle.flow_model.specs.declared.names.NameFault.TheVariants.{Bad, NoMemory};

use std::alloc::{AllocError, Global};
use std::marker::Model;
use thiserror::Error;

/// Bytes of any kind and number.
#[derive(Drop)]
pub struct Bytes {
    bytes: Vec<u8>,
}

/// The greatest number of bytes of a name.
const NAME_SIZE: usize = 32;

/// A name: a letter, then up to 31 letters, digits, spaces, `_` and `-`. It takes no memory of its own.
#[derive(Drop)]
pub struct Name {
    len: usize,
    /// The bytes of the name, and zeros behind them.
    bytes: [u8; NAME_SIZE],
}

/// A text value: up to 255 bytes from 32 to 126.
#[derive(Drop)]
pub struct Txt {
    bytes: Vec<u8>,
}

/// Why bytes make no name or text.
#[derive(Clone, Copy, Debug, PartialEq, Eq, Drop, Error)]
pub enum NameFault {
    /// The bytes break the rule of names or of texts.
    #[error("Bad")]
    Bad,
    /// There was no memory for them.
    #[error("NoMemory")]
    NoMemory,
}

impl From<AllocError> for NameFault {
    ghost from_gives = { λ _ e. e ≡ NoMemory };

    fn from(_fault: AllocError) -> NameFault {
        NameFault::NoMemory
    }
}

impl Model for Bytes {
    ghost use Rattle.std.specs.Prelude.{List as Seq, ℕ};

    ghost Value = { Seq ℕ };

    ghost view = { λ b. b.bytes.items };
}

impl Model for Name {
    ghost use Rattle.std.specs.Prelude.{List as Seq, ℕ, ◌≤◌, take, length};

    ghost Value = { Seq ℕ };

    ghost view = { λ n. take n.len n.bytes };

    ghost invariant = { λ n. n.len ≤ 32 };
}

impl Model for Txt {
    ghost use Rattle.std.specs.Prelude.{List as Seq, ℕ};

    ghost Value = { Seq ℕ };

    ghost view = { λ t. t.bytes.items };
}

/// Whether a byte may stand in a name behind its first.
pub fn is_name_byte(byte: u8) -> bool
    ensures { result ≡ name_byte_test byte }
{
    byte.is_ascii_alphanumeric() || byte == b' ' || byte == b'_' || byte == b'-'
}

fn all_name_bytes(bytes: &[u8]) -> bool
    ensures { result ≡ list_all name_byte_test bytes.now }
{
    bytes.iter().all(|byte| is_name_byte(*byte))
}

/// Whether bytes make a name.
pub fn is_name(bytes: &[u8]) -> bool
    ensures { result ≡ name_test bytes.now }
{
    match bytes {
        [] => false,
        [first, rest @ ..] => {
            first.is_ascii_alphabetic() && rest.len() <= 31 && all_name_bytes(rest)
        }
    }
}

fn is_text_byte(byte: u8) -> bool
    ensures { result ≡ text_byte_test byte }
{
    b' ' <= byte && byte <= b'~'
}

fn all_text_bytes(bytes: &[u8]) -> bool
    ensures { result ≡ list_all text_byte_test bytes.now }
{
    bytes.iter().all(|byte| is_text_byte(*byte))
}

/// Whether bytes make a text.
pub fn is_text(bytes: &[u8]) -> bool
    ensures { result ≡ text_test bytes.now }
{
    bytes.len() <= 255 && all_text_bytes(bytes)
}

impl Bytes {
    /// Bytes of their own.
    pub fn new(alloc: Global, bytes: &[u8]) -> Result<Bytes, AllocError>
        ensures { IfOk result (λ b. b ≡ bytes.now) }
    {
        Ok(Bytes {
            bytes: Vec::from_slice(alloc, bytes)?,
        })
    }

    /// The bytes of a vector.
    pub fn from_vec(bytes: Vec<u8>) -> Bytes
        ensures { result ≡ bytes.items }
    {
        Bytes { bytes }
    }

    /// The bytes.
    pub fn as_slice(&self) -> &[u8]
        ensures { result.now ≡ self.now }
    {
        self.bytes.as_slice()
    }

    /// The number of bytes.
    pub fn len(&self) -> usize
        ensures { result ≡ length self.now }
    {
        self.bytes.len()
    }

    /// Whether there are no bytes.
    pub fn is_empty(&self) -> bool
        ensures { result ≡ (length self.now == 0) }
    {
        self.bytes.is_empty()
    }

    /// Equal bytes.
    pub fn copy(&self, alloc: Global) -> Result<Bytes, AllocError>
        ensures { IfOk result (λ b. b ≡ self.now) }
    {
        Bytes::new(alloc, self.as_slice())
    }
}

impl Name {
    /// The name of these bytes; `Bad` exactly where they are none.
    pub fn new(alloc: Global, bytes: &[u8]) -> Result<Name, NameFault>
        ensures name { IfOk result (λ n. (n ≡ bytes.now) × (name_test bytes.now ≡ true)) }
        ensures bad { IsErrOf result NameFault.Bad → name_test bytes.now ≡ false }
    {
        if !is_name(bytes) {
            return Err(NameFault::Bad);
        }
        let _alloc = alloc;
        let mut inside = [0; NAME_SIZE];
        inside[..bytes.len()].copy_from_slice(bytes);
        Ok(Name {
            len: bytes.len(),
            bytes: inside,
        })
    }

    /// The bytes, without quotes.
    pub fn as_slice(&self) -> &[u8]
        ensures { result.now ≡ self.now }
    {
        &self.bytes[..self.len]
    }

    /// The number of bytes.
    pub fn len(&self) -> usize
        ensures { result ≡ length self.now }
    {
        self.len
    }

    /// An equal name.
    pub fn copy(&self, alloc: Global) -> Result<Name, AllocError>
        ensures { IfOk result (λ n. n ≡ self.now) }
    {
        let _alloc = alloc;
        Ok(Name {
            len: self.len,
            bytes: self.bytes,
        })
    }
}

impl Txt {
    /// The text of these bytes; `Bad` exactly where they are none.
    pub fn new(alloc: Global, bytes: &[u8]) -> Result<Txt, NameFault>
        ensures text { IfOk result (λ t. (t ≡ bytes.now) × (text_test bytes.now ≡ true)) }
        ensures bad { IsErrOf result NameFault.Bad → text_test bytes.now ≡ false }
    {
        if !is_text(bytes) {
            return Err(NameFault::Bad);
        }
        Ok(Txt {
            bytes: Vec::from_slice(alloc, bytes)?,
        })
    }

    /// The empty text.
    pub fn empty(alloc: Global) -> Txt
        ensures { result ≡ [] }
    {
        Txt {
            bytes: Vec::new(alloc),
        }
    }

    /// The bytes, without quotes.
    pub fn as_slice(&self) -> &[u8]
        ensures { result.now ≡ self.now }
    {
        self.bytes.as_slice()
    }

    /// The number of bytes.
    pub fn len(&self) -> usize
        ensures { result ≡ length self.now }
    {
        self.bytes.len()
    }

    /// An equal text.
    pub fn copy(&self, alloc: Global) -> Result<Txt, AllocError>
        ensures { IfOk result (λ t. t ≡ self.now) }
    {
        Ok(Txt {
            bytes: Vec::from_slice(alloc, self.bytes.as_slice())?,
        })
    }
}
