//! Laws of the definitions, each the contract of a function that does nothing.

ghost use Rattle.cxx_meaning.specs.Lookups.Member.{EachIsWay, EachWayIsCounted, FactsAreInOrder, HiddenByDerived, NothingHides, WaysArePaths};
ghost use Rattle.cxx_meaning.specs.Lookups.Sightings.{EachIsOfOne, EachIsSeen};

/// Each declaration that a lookup sees in a scope stands there with the name, is seen at the cut, is of what is wanted, and
/// not only a friend declaration makes it (3.3, 3.4, 7.3.1.2).
pub fn seen_declarations()
    ensures { EachIsSeen }
{}

/// Each entity of a set that is found is that of a declaration that the lookup sees, and that no other one of its scope hides
/// (3.3.7).
pub fn entities_of_declarations()
    ensures { EachIsOfOne }
{}

/// Each subobject in which a member is found is reached by direct bases, its class declares the name, and no class before
/// it on the way does (10.2).
pub fn found_by_bases()
    ensures way { EachIsWay }
    ensures path { WaysArePaths }
{}

/// Each way by bases to a class that declares the name, with no class before it that does, is among those that a lookup
/// counts, where each base is complete before a class names it; in a graph in range it is (10, 10.2).
pub fn every_way_is_counted()
    ensures counted { EachWayIsCounted }
    ensures order { FactsAreInOrder }
{}

/// Whatever a subobject declares is found, or one of which it is a base subobject declares the name, is found, and hides it
/// (10.2).
pub fn hidden_by_derived()
    ensures { HiddenByDerived }
{}

/// Nothing hides what is found: no subobject of which it is in a base subobject declares the name, where a class has one
/// base at each position (10.2).
pub fn nothing_hides()
    ensures { NothingHides }
{}
