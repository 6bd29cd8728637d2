ghost use Rattle.library_laws.specs.Laws.{
  LongerAgrees,
  LibraryKeepsMessages,
  LibraryKeepsRuns,
  LibraryKeepsDriven,
  LibraryKeepsRoots,
};

/// A library agrees with each that has more templates behind it.
pub fn longer_agrees()
    ensures { LongerAgrees }
{}

/// The messages of a root are due, put and queued as before, and they are named by the same places.
pub fn library_keeps_messages()
    ensures { LibraryKeepsMessages }
{}

/// A legal run is legal in a larger library.
pub fn library_keeps_runs()
    ensures { LibraryKeepsRuns }
{}

/// A run, with all that its events have done to the scope of the root, is one of the root in a
/// larger library, so that later events may be there.
pub fn library_keeps_driven()
    ensures { LibraryKeepsDriven }
{}

/// A root that was started in a library goes on in a larger one.
pub fn library_keeps_roots()
    ensures { LibraryKeepsRoots }
{}
