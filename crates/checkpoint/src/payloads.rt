//! The records that a store keeps when it moves, one after the other.
ghost use Rattle.std.specs.Prelude.{◌≡◌, ◌∷◌, [], ℕ, IfOk, MatchOption, List as Seq};

use std::alloc::AllocError;

/// Payloads that are made when they are asked for, so that no list of them is held.
pub trait Payloads {
    /// Those that are still to come.
    ghost left: { Self → Seq (Seq ℕ) };

    /// The next payload; None where none is left. After an error nothing is known of those that are left.
    fn next(&mut self) -> Result<Option<Vec<u8>>, AllocError>
        ensures { IfOk result (λ next. MatchOption next (left self.old ≡ [])
            (λ payload. left self.old ≡ payload.items ∷ left self.new)) };
}
