//! A row of a table of tests.
use crate::outcome::answer;
use flow_words::Status;
use std::alloc::Global;
use std::test::Fail;

/// A run over an empty disk: what it shows, its words, the pieces of its input, and what must be printed and how it
/// must end.
pub struct Case {
    pub shows: &'static str,
    pub words: &'static [&'static str],
    pub input: &'static [&'static str],
    pub prints: &'static str,
    pub status: Status,
}

impl Case {
    /// Runs the case, and fails where it prints something else or ends in another way.
    pub fn pass(&self, alloc: Global) -> Result<(), Fail> {
        let mut input = Vec::new(alloc);
        for piece in self.input {
            input.extend_from_slice(piece.as_bytes())?;
        }
        answer(alloc, self.words, &input)?.check(self.shows, self.prints, self.status)
    }
}
