//! Laws of the definitions, each the contract of a function that does nothing.

ghost use Rattle.cxx_meaning.specs.Lookups.Directives.{EachIsReached};
ghost use Rattle.cxx_meaning.specs.Lookups.Ordinary.{FirstIsFound, NothingIsNoDeclaration};
ghost use Rattle.cxx_meaning.specs.Lookups.Qualified.{EachIsSearched};

/// What an unqualified lookup finds is what the first scope outward that has something has, and in a scope that has nothing
/// there is no declaration of the name, of its own or by directives (3.4.1).
pub fn first_scope_alone()
    ensures first { FirstIsFound }
    ensures none { NothingIsNoDeclaration }
{}

/// Each namespace that is counted as reached is nominated by a directive of the scope, or of a namespace that is reached
/// (7.3.4).
pub fn reached_by_directives()
    ensures { EachIsReached }
{}

/// Each namespace that a qualified lookup searches is the one that is named, or one that a directive nominates in a namespace
/// that is searched and does not declare the name (3.4.3.2).
pub fn searched_by_directives()
    ensures { EachIsSearched }
{}
