//! What is found in a scope, which may be that of a class (3.4.1, 10.2).

ghost use Rattle.std.specs.Prelude.{◌≡◌, List, None, Some, is_none, length, map, IfOk};
ghost use Rattle.cxx_model.specs.Facts.Declarations.{CxxGraph};
ghost use Rattle.cxx_model.specs.Types.Trees.{CxxType};
ghost use Rattle.cxx_meaning.specs.Lookups.Member.{class_of_scope};
ghost use Rattle.cxx_meaning.specs.Lookups.Ordinary.{found_in_scope, member_found};
ghost use Rattle.cxx_reading.specs.Seen.{found_or_none};
ghost use Rattle.cxx_found.specs.Here.{IsHereBelow, found_here, is_missing, or_nowhere};
ghost use Rattle.cxx_found.specs.Views.{IsSeeking, cut_of, facts_of, graph_of, name_of, or_nothing, shown_of, types_of, wanted_of};

use crate::nearest::Nearest;
use crate::seeking::Seeking;
use crate::shown::Shown;
use cxx_inherited::member;
use cxx_model::{ClassId, Found, MemberFound, ScopeId, Wait};
use std::alloc::AllocError;

/// What is found in a scope: in declarations, or in a class and its bases; or the class that has to be complete first.
#[derive(Drop)]
pub(crate) enum Here {
    Declared(Nearest),
    Member(ClassId, MemberFound),
    Needs(ClassId),
}

fn is_no_member(of: &MemberFound) -> bool
    ensures { (class : ClassId) → result ≡ is_none (member_found class of.now) }
{
    match of {
        MemberFound::Empty => true,
        _ => false,
    }
}

// What is found in a class, as a member of it.
fn found_member(class: ClassId, of: MemberFound) -> Found
    ensures { result ≡ or_nothing (member_found class of) }
{
    match of {
        MemberFound::Empty => Found::Empty,
        MemberFound::Set(facts, path) => Found::Member(class, MemberFound::Set(facts, path)),
        MemberFound::Ambiguous(one, two) => {
            Found::Member(class, MemberFound::Ambiguous(one, two))
        }
    }
}

impl Here {
    /// Whether nothing is found.
    pub fn is_nothing(&self) -> bool
        ensures { (types : List CxxType) (graph : CxxGraph) → result ≡ is_missing (found_here types graph self.now) }
    {
        match self {
            Here::Declared(near) => near.is_nothing(),
            Here::Member(_, of) => is_no_member(of),
            Here::Needs(_) => false,
        }
    }
}

impl Seeking<'_> {
    // What is found in a scope of a class.
    #[tactic(auto, using(crate::proofs::Inside::found_inside, crate::proofs::Inside::needed_inside))]
    fn in_class(&self, shown: &[Shown], scope: ScopeId, class: ClassId) -> Result<Here, AllocError>
        requires seeking { IsSeeking self.now }
        requires class { class_of_scope (facts_of self.now) scope ≡ Some class }
        ensures is { IfOk result (λ here. found_in_scope (graph_of self.now) (wanted_of self.now) (name_of self.now) (cut_of self.now) (map shown_of shown.now) scope ≡ found_here (types_of self.now) (graph_of self.now) here) }
        ensures below { IfOk result (IsHereBelow (length (types_of self.now))) }
    {
        let _ = shown;
        let found = member(
            self.looking.alloc,
            self.names,
            self.looking.graph,
            self.looking.types,
            self.wanted,
            class,
            self.word,
        );
        match found {
            Ok(of) => Ok(Here::Member(class, of)),
            Err(Wait::Needs(needed)) => Ok(Here::Needs(needed)),
            Err(Wait::OutOfMemory) => Err(AllocError),
        }
    }

    // What is found in a scope that is no class's.
    fn in_no_class(&self, shown: &[Shown], scope: ScopeId) -> Result<Here, AllocError>
        requires seeking { IsSeeking self.now }
        requires none { class_of_scope (facts_of self.now) scope ≡ None }
        ensures is { IfOk result (λ here. found_in_scope (graph_of self.now) (wanted_of self.now) (name_of self.now) (cut_of self.now) (map shown_of shown.now) scope ≡ found_here (types_of self.now) (graph_of self.now) here) }
        ensures below { IfOk result (IsHereBelow (length (types_of self.now))) }
    {
        let near = self.declared_at(shown, scope)?;
        Ok(Here::Declared(near))
    }

    /// What is found in a scope: of itself and by what shows there, or in the class and its bases.
    pub fn at(&self, shown: &[Shown], scope: ScopeId) -> Result<Here, AllocError>
        requires { IsSeeking self.now }
        ensures is { IfOk result (λ here. found_in_scope (graph_of self.now) (wanted_of self.now) (name_of self.now) (cut_of self.now) (map shown_of shown.now) scope ≡ found_here (types_of self.now) (graph_of self.now) here) }
        ensures below { IfOk result (IsHereBelow (length (types_of self.now))) }
    {
        match self.names.class_of_scope(self.looking.graph, scope) {
            Some(class) => self.in_class(shown, scope, class),
            None => self.in_no_class(shown, scope),
        }
    }

    /// What was found, in full; nothing where a class has to be complete first.
    pub fn found_there(&self, here: Here) -> Result<Found, AllocError>
        requires seeking { IsSeeking self.now }
        requires below { IsHereBelow (length (types_of self.now)) here }
        ensures { IfOk result (λ found. found ≡ found_or_none (or_nowhere (found_here (types_of self.now) (graph_of self.now) here))) }
    {
        match here {
            Here::Declared(near) => self.found_by(near),
            Here::Member(class, of) => Ok(found_member(class, of)),
            Here::Needs(_class) => Ok(Found::Empty),
        }
    }
}
