//! Laws of the definitions, each the contract of a function that does nothing.

ghost use Rattle.cxx_subobjects.specs.Laws.{DerivedHasPaths, EachIsPath, EachPathIsThere, IsOnlyItself, NoneIsNoPath, OneIsOnePath, PathsAreInOrder, SeveralAreTwo};

/// Each path that is counted leads by direct bases from the class to the base class (10.1).
pub fn counted_are_paths()
    ensures { EachIsPath }
{}

/// Each path of direct bases to the base class is counted, where each base is complete before a class names it (10).
pub fn every_path_is_counted()
    ensures { EachPathIsThere }
{}

/// A class is derived from another one exactly where there is a path to that (10).
pub fn derived_has_paths()
    ensures { DerivedHasPaths }
{}

/// No class is derived from itself, and its only subobject of itself is the whole (10).
pub fn only_itself()
    ensures { IsOnlyItself }
{}

/// The paths are counted in the order of their positions, and no path twice, where the bases of each class are named in that
/// order (10.1).
pub fn paths_in_order()
    ensures { PathsAreInOrder }
{}

/// There is none, or one, or the first two, as the paths are (10.1).
pub fn as_many_as_paths()
    ensures none { NoneIsNoPath }
    ensures one { OneIsOnePath }
    ensures several { SeveralAreTwo }
{}
