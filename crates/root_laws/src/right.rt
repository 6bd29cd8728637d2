ghost use Rattle.root_laws.specs.Laws.{
  StartsRight,
  HoldsRight,
  StopsRight,
  ModeRight,
  TurnsRight,
  CompletesRight,
  TurnsNamed,
  CompletesNamed,
  ImportsRight,
};

/// A root that was started is right.
pub fn starts_right()
    ensures { StartsRight }
{}

/// A root stays right when an item of it is held or given back.
pub fn holds_right()
    ensures { HoldsRight }
{}

/// A root stays right when it is terminated.
pub fn stops_right()
    ensures { StopsRight }
{}

/// A root stays right when it is suspended or resumed.
pub fn mode_right()
    ensures { ModeRight }
{}

/// A root stays right when it takes a message.
pub fn turns_right()
    ensures { TurnsRight }
{}

/// A root stays right when an item of it is completed.
pub fn completes_right()
    ensures { CompletesRight }
{}

/// What a root gives when it takes a message names the root of the message.
pub fn turns_named()
    ensures { TurnsNamed }
{}

/// What a root gives when an item of it is completed names the root of the item.
pub fn completes_named()
    ensures { CompletesNamed }
{}

/// A root stays right in a larger library.
pub fn imports_right()
    ensures { ImportsRight }
{}
