//! The lines of a certificate, and how they are written.
ghost use Rattle.std.specs.Prelude.{◌≡◌, ◌++◌, OnOk, IfOk};
ghost use Rattle.certificates.specs.Told.{line_scope};
ghost use Rattle.certificates.specs.Lines.{line_text, scope_in_quotes, activity_in_quotes};

use flow_model::{Name, Path, write_path};
use flow_text::decimal;
use std::alloc::{AllocError, Global};

/// A line of a certificate: what is said of a scope, or of an activity of it.
#[derive(Drop)]
pub enum CertLine {
    /// The scope begins.
    Scope(Path),
    /// The activity is dead.
    Dead(Path, Name),
    /// The activity is finished with this attempt.
    Finished(Path, Name, u64),
    /// All activities of the scope are settled.
    Ended(Path),
}

/// Appends a scope in single quotes.
fn put_scope(out: &mut Vec<u8>, scope: &Path) -> Result<(), AllocError>
    ensures { OnOk result (out.new.items ≡ out.old.items ++ scope_in_quotes scope.now) }
{
    out.push(b'\'')?;
    write_path(out, scope)?;
    out.push(b'\'')?;
    Ok(())
}

/// Appends an activity in single quotes.
fn put_activity(out: &mut Vec<u8>, scope: &Path, name: &Name) -> Result<(), AllocError>
    ensures { OnOk result (out.new.items ≡ out.old.items ++ activity_in_quotes scope.now name.now) }
{
    out.push(b'\'')?;
    write_path(out, scope)?;
    out.push(b'/')?;
    out.extend_from_slice(name.as_slice())?;
    out.push(b'\'')?;
    Ok(())
}

/// Appends the text of a line, without a line feed. Without memory `out` may have got a part of it.
pub fn write_line(out: &mut Vec<u8>, line: &CertLine) -> Result<(), AllocError>
    ensures { OnOk result (out.new.items ≡ out.old.items ++ line_text line.now) }
{
    match line {
        CertLine::Scope(scope) => {
            out.extend_from_slice(b"SCOPE ")?;
            put_scope(out, scope)
        }
        CertLine::Dead(scope, name) => {
            out.extend_from_slice(b"DEAD ")?;
            put_activity(out, scope, name)
        }
        CertLine::Finished(scope, name, attempt) => {
            out.extend_from_slice(b"FINISHED ")?;
            put_activity(out, scope, name)?;
            out.push(b' ')?;
            decimal(out, *attempt)
        }
        CertLine::Ended(scope) => {
            out.extend_from_slice(b"ENDED ")?;
            put_scope(out, scope)
        }
    }
}

/// The text of a line.
pub fn line_bytes(alloc: Global, line: &CertLine) -> Result<Vec<u8>, AllocError>
    ensures { IfOk result (λ text. text.items ≡ line_text line.now) }
{
    let mut text = Vec::new(alloc);
    write_line(&mut text, line)?;
    Ok(text)
}

impl CertLine {
    /// The scope of which the line tells.
    pub fn scope(&self) -> &Path
        ensures { result.now ≡ line_scope self.now }
    {
        match self {
            CertLine::Scope(scope) => scope,
            CertLine::Dead(scope, _) => scope,
            CertLine::Finished(scope, _, _) => scope,
            CertLine::Ended(scope) => scope,
        }
    }
}
