ghost use Rattle.library_laws.specs.Laws.{
  LibraryKeepsEnds,
  LibraryKeepsDue,
  LibraryKeepsForm,
  LibraryKeepsView,
  LibraryKeepsRows,
  LibraryKeepsItems,
};

/// A scope gives the same in a larger library; its activities end so, have these fates and start
/// these attempts.
pub fn library_keeps_ends()
    ensures { LibraryKeepsEnds }
{}

/// The same messages are due in a scope.
pub fn library_keeps_due()
    ensures { LibraryKeepsDue }
{}

/// A graph that is well, served or aimed in a library is so in a larger one.
pub fn library_keeps_form()
    ensures { LibraryKeepsForm }
{}

/// A state shows the view of a scope in a larger library exactly where it does in the smaller.
pub fn library_keeps_view()
    ensures { LibraryKeepsView }
{}

/// The rows of a scope are the same in a larger library, those by what is known and those that its
/// state shows.
pub fn library_keeps_rows()
    ensures { LibraryKeepsRows }
{}

/// A path leads to the same item.
pub fn library_keeps_items()
    ensures { LibraryKeepsItems }
{}
