//! Is what the engine does to its state the step of the machine, has each input one reply, and is that the machine's?
//!
//! Laws without code. Knows the engine's state by `view` and by its keys; never stores, files or crashes. Begin with
//! `specs/Viewed.antt` (the view), `specs/Applied.antt` (what `apply` owes) and `specs/One.antt` (one list of replies);
//! then `specs/Keyed.antt` (which live root has a key), `specs/Verdicts.antt`, `specs/Obeyed.antt` and
//! `specs/Answers.antt` (what the engine judges and replies is what the machine does).
#![tactic(auto)]

mod laws;
mod replies;
