//! Unqualified lookup: the first scope outward in which something is found (3.4.1).

ghost use Rattle.std.specs.Prelude.{◌≡◌, ◌++◌, length, map, IfOk, OnOk};
ghost use Rattle.cxx_meaning.specs.Lookups.Directives.{shows};
ghost use Rattle.cxx_meaning.specs.Lookups.Ordinary.{found_in_scope, ordinary};
ghost use Rattle.cxx_reading.specs.Seen.{sought_from};
ghost use Rattle.cxx_found.specs.Here.{IsHereBelow, found_here, or_nowhere};
ghost use Rattle.cxx_found.specs.Views.{IsSeeking, cut_of, facts_of, graph_of, name_of, shown_of, types_of, wanted_of};

use crate::here::Here;
use crate::seeking::Seeking;
use crate::shown::Shown;
use cxx_model::{Found, ScopeId};
use std::alloc::AllocError;

impl Seeking<'_> {
    // What is found in the next scope outward.
    fn next(&self, scope: ScopeId, shown: &mut Vec<Shown>) -> Result<Here, AllocError>
        requires { IsSeeking self.now }
        ensures shown { OnOk result (map shown_of shown.new.items ≡ map shown_of shown.old.items ++ shows (facts_of self.now) (cut_of self.now) scope) }
        ensures is { IfOk result (λ here. found_in_scope (graph_of self.now) (wanted_of self.now) (name_of self.now) (cut_of self.now) (map shown_of shown.old.items ++ shows (facts_of self.now) (cut_of self.now) scope) scope ≡ found_here (types_of self.now) (graph_of self.now) here) }
        ensures below { IfOk result (IsHereBelow (length (types_of self.now))) }
    {
        self.add_shown(scope, shown)?;
        self.at(shown, scope)
    }

    /// What is found in the first scope outward that has something.
    pub fn nearest(&self, scope: ScopeId) -> Result<Here, AllocError>
        requires { IsSeeking self.now }
        ensures is { IfOk result (λ here. ordinary (graph_of self.now) (wanted_of self.now) scope (name_of self.now) (cut_of self.now) ≡ or_nowhere (found_here (types_of self.now) (graph_of self.now) here)) }
        ensures below { IfOk result (IsHereBelow (length (types_of self.now))) }
    {
        let mut shown = Vec::new(self.looking.alloc);
        let mut now = scope;
        for turn in 0..scope.0 {
            let here = self.next(now, &mut shown)?;
            if !here.is_nothing() {
                return Ok(here);
            }
            if now.0 == 0 {
                return Ok(here);
            }
            now = self.outer(now);
        }
        self.next(now, &mut shown)
    }

    /// What the name means from a scope.
    pub fn sought(&self, scope: ScopeId) -> Result<Found, AllocError>
        requires { IsSeeking self.now }
        ensures { IfOk result (λ found. found ≡ sought_from (graph_of self.now) (wanted_of self.now) scope.0 (name_of self.now)) }
    {
        let here = self.nearest(scope)?;
        let found = self.found_there(here)?;
        Ok(found)
    }
}
