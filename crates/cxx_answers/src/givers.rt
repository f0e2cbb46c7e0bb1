//! Which declaration of a function tells the default arguments that are seen from a scope (8.3.6).

ghost use Rattle.std.specs.Prelude.{◌≡◌, ◌<◌, ◌++◌, [], ◌∷◌, nat_eq, if◌then◌else◌, length, List, Some, None, IfOk, IfSome, OnOk};
ghost use Rattle.std.specs.List.{slice_get};
ghost use Rattle.std.specs.Option.{option_copied};
ghost use Rattle.cxx_answers.specs.Told.{AreNumbersBelow, IsScopeOf, IsTelling, are_some, count_in, graph_of, named_in, one_number, those_in, told_in};
ghost use Rattle.cxx_model.specs.Facts.Declarations.{declares_at, name_at};
ghost use Rattle.cxx_model.specs.Facts.Fitted.{IsNameBelow};
ghost use Rattle.cxx_model.specs.Types.Trees.{CxxType};
ghost use Rattle.cxx_reading.specs.Givers as definition;
ghost use Rattle.cxx_reading.specs.Linked.{home_of};
ghost use Rattle.cxx_reading.specs.Seen.{declared_in};

use crate::typed::first_or;
use cxx_graph::Graph;
use cxx_model::{Entity, Fact, FactId, FactList, Listed, Name, ScopeId};
use cxx_names::{Names, has_name};
use cxx_types::TypeTable;
use std::alloc::{AllocError, Global};

/// What is read to tell default arguments: what is declared so far, the index of its names, and the types that it names.
#[derive(Clone, Copy)]
pub(crate) struct Telling<'a> {
    pub(crate) graph: &'a Graph,
    pub(crate) names: &'a Names,
    pub(crate) types: &'a TypeTable,
}

// Whether a declaration is one of the function with a first declaration.
fn declares_function(function: FactId, number: FactId, what: Entity) -> bool
    ensures { (types : List CxxType) → result ≡ definition.declares_function function.0 number.0 (declares_at types what) }
{
    match what {
        Entity::Function { first, .. } => first_or(number, first).0 == function.0,
        _ => false,
    }
}

// Whether a declaration is one of a function.
fn is_function(what: Entity) -> bool
    ensures { (types : List CxxType) → result ≡ definition.is_function_fact (declares_at types what) }
{
    match what {
        Entity::Function { .. } => true,
        _ => false,
    }
}

// A declaration, where it is another one than the first.
fn other_giver(function: FactId, number: FactId) -> Option<FactId>
    ensures { result ≡ (if nat_eq number.0 function.0 then None else Some number) }
{
    if number.0 == function.0 {
        None
    } else {
        Some(number)
    }
}

impl Telling<'_> {
    /// A declaration, where there is one with its number.
    pub(crate) fn fact(&self, number: FactId) -> Option<&Fact>
        ensures { option_copied result ≡ slice_get self.now.graph.now.facts number.0 }
    {
        self.graph.facts().get(number.0 as usize)
    }

    // A declaration, where it is one of a function.
    #[tactic(auto, using(crate::proofs::Told::when_is, crate::proofs::Told::when_not, crate::proofs::Told::when_none, crate::proofs::Told::within))]
    fn when_of(&self, function: FactId, number: FactId) -> Option<FactId>
        ensures is { told_in self.now result ≡ definition.last_of function.0 (those_in self.now (number ∷ [])) }
        ensures there { IfSome result (λ one. one.0 < count_in self.now) }
    {
        match self.fact(number) {
            Some(fact) => {
                if declares_function(function, number, fact.what) {
                    Some(number)
                } else {
                    None
                }
            }
            None => None,
        }
    }

    // A declaration, where it is one of a function, or else the one before.
    #[tactic(auto, using(crate::proofs::Told::found_next, crate::proofs::Told::passed_next))]
    fn later(&self, function: FactId, number: FactId, before: Option<FactId>) -> Option<FactId>
        requires { IfSome before (λ one. one.0 < count_in self.now) }
        ensures is { told_in self.now result ≡ definition.or_before (definition.last_of function.0 (those_in self.now (number ∷ []))) (told_in self.now before) }
        ensures there { IfSome result (λ one. one.0 < count_in self.now) }
    {
        match self.when_of(function, number) {
            Some(one) => Some(one),
            None => before,
        }
    }

    // The last of some declarations that is one of a function.
    #[tactic(auto, using(crate::proofs::Told::last_end))]
    fn last_of(&self, function: FactId, numbers: &[FactId]) -> Option<FactId>
        ensures is { told_in self.now result ≡ definition.last_of function.0 (those_in self.now numbers.now) }
        ensures there { IfSome result (λ one. one.0 < count_in self.now) }
    {
        let mut found = None;
        for number in numbers {
            found = self.later(function, *number, found);
        }
        found
    }

    // A declaration, where it has a name and is one of a function, or else the one before.
    #[tactic(auto, using(crate::proofs::Told::named_next, crate::proofs::Told::unnamed_next))]
    fn later_named(
        &self,
        name: &Name,
        function: FactId,
        number: FactId,
        before: Option<FactId>,
    ) -> Option<FactId>
        requires telling { IsTelling self.now }
        requires name { IsNameBelow (length self.now.types.now) name.now }
        requires before { IfSome before (λ one. one.0 < count_in self.now) }
        ensures is { told_in self.now result ≡ definition.or_before (definition.last_of function.0 (those_in self.now (named_in self.now (name_at self.now.types.now name.now) (number ∷ [])))) (told_in self.now before) }
        ensures there { IfSome result (λ one. one.0 < count_in self.now) }
    {
        if has_name(self.graph, self.types, number, name) {
            self.later(function, number, before)
        } else {
            before
        }
    }

    // The last of some declarations that has a name and is one of a function.
    #[tactic(auto, using(crate::proofs::Told::last_named_end, crate::proofs::Told::before_all))]
    fn last_named(&self, name: &Name, function: FactId, numbers: &[FactId]) -> Option<FactId>
        requires telling { IsTelling self.now }
        requires name { IsNameBelow (length self.now.types.now) name.now }
        ensures is { told_in self.now result ≡ definition.last_of function.0 (those_in self.now (named_in self.now (name_at self.now.types.now name.now) numbers.now)) }
        ensures there { IfSome result (λ one. one.0 < count_in self.now) }
    {
        let mut found = None;
        for number in numbers {
            found = self.later_named(name, function, *number, found);
        }
        found
    }

    // The last declaration of a function that has a name in a scope.
    #[tactic(auto, using(cxx_names::proofs::Wordless::no_unnamed, cxx_names::proofs::Wordless::named_are))]
    fn last_in(&self, scope: ScopeId, name: &Name, function: FactId) -> Option<FactId>
        requires telling { IsTelling self.now }
        requires name { IsNameBelow (length self.now.types.now) name.now }
        ensures is { told_in self.now result ≡ definition.last_of function.0 (declared_in (graph_of self.now) scope.0 (name_at self.now.types.now name.now)) }
        ensures there { IfSome result (λ one. one.0 < count_in self.now) }
    {
        match name {
            Name::Spelled(word) => {
                let row = self.names.declared_in(self.graph, scope, word.as_slice());
                self.last_of(function, row)
            }
            Name::Unnamed => None,
            _ => self.last_named(name, function, self.graph.facts_of(scope)),
        }
    }

    // Whether some declarations are there.
    #[tactic(auto, using(crate::proofs::Told::any_this, crate::proofs::Told::any_step, crate::proofs::Told::any_end))]
    fn are_any(&self, numbers: &[FactId]) -> bool
        ensures { result ≡ are_some (those_in self.now numbers.now) }
    {
        for number in numbers {
            if self.fact(*number).is_some() {
                return true;
            }
        }
        false
    }

    // Whether one of some declarations has a name.
    #[tactic(auto, using(crate::proofs::Told::named_this, crate::proofs::Told::named_step, crate::proofs::Told::named_end))]
    fn any_named(&self, name: &Name, numbers: &[FactId]) -> bool
        requires telling { IsTelling self.now }
        requires name { IsNameBelow (length self.now.types.now) name.now }
        ensures { result ≡ are_some (those_in self.now (named_in self.now (name_at self.now.types.now name.now) numbers.now)) }
    {
        for number in numbers {
            if has_name(self.graph, self.types, *number, name) {
                return true;
            }
        }
        false
    }

    // Whether a name is declared in a scope.
    #[tactic(auto, using(cxx_names::proofs::Wordless::no_unnamed, cxx_names::proofs::Wordless::named_are))]
    fn declares(&self, scope: ScopeId, name: &Name) -> bool
        requires telling { IsTelling self.now }
        requires name { IsNameBelow (length self.now.types.now) name.now }
        ensures { result ≡ are_some (declared_in (graph_of self.now) scope.0 (name_at self.now.types.now name.now)) }
    {
        match name {
            Name::Spelled(word) => {
                let row = self.names.declared_in(self.graph, scope, word.as_slice());
                self.are_any(row)
            }
            Name::Unnamed => false,
            _ => self.any_named(name, self.graph.facts_of(scope)),
        }
    }

    // Outward from a scope, up to the innermost namespace: the last declaration of a function in the first block that declares
    // a name (3.3.7).
    #[tactic(auto, using(crate::proofs::Told::out_here, crate::proofs::Told::out_end))]
    fn outward(&self, scope: ScopeId, name: &Name, function: FactId) -> Option<FactId>
        requires telling { IsTelling self.now }
        requires name { IsNameBelow (length self.now.types.now) name.now }
        ensures is { told_in self.now result ≡ definition.outward_from (graph_of self.now) function.0 (name_at self.now.types.now name.now) scope.0 scope.0 }
        ensures there { IfSome result (λ one. one.0 < count_in self.now) }
    {
        let mut now = scope;
        for turn in 0..scope.0 {
            if self.names.is_space(self.graph, now) {
                return None;
            }
            if self.declares(now, name) {
                return self.last_in(now, name, function);
            }
            now = self.names.parent(self.graph, now);
        }
        None
    }

    // The last declaration of a function in its namespace.
    fn at_home(&self, function: FactId, fact: &Fact) -> Option<FactId>
        requires telling { IsTelling self.now }
        requires name { IsNameBelow (length self.now.types.now) (fact.now).name }
        ensures is { told_in self.now result ≡ definition.last_of function.0 (declared_in (graph_of self.now) (home_of (graph_of self.now) (fact.now).scope.0) (name_at self.now.types.now (fact.now).name)) }
        ensures there { IfSome result (λ one. one.0 < count_in self.now) }
    {
        let home = self.names.home(self.graph, fact.scope);
        self.last_in(home, &fact.name, function)
    }

    // The declaration of a function that tells its default arguments in a scope, given its first one.
    #[tactic(auto, using(crate::proofs::Told::giver_outward, crate::proofs::Told::giver_home, crate::proofs::Told::name_below))]
    fn giver_by(&self, scope: ScopeId, function: FactId, fact: &Fact) -> Option<FactId>
        requires telling { IsTelling self.now }
        requires fact { slice_get self.now.graph.now.facts function.0 ≡ Some fact.now }
        ensures is { told_in self.now result ≡ definition.giver (graph_of self.now) scope.0 function.0 }
        ensures there { IfSome result (λ one. one.0 < count_in self.now) }
    {
        match self.outward(scope, &fact.name, function) {
            Some(one) => Some(one),
            None => self.at_home(function, fact),
        }
    }

    /// The declaration of a function that tells its default arguments in a scope, by its first one.
    #[tactic(auto, using(crate::proofs::Told::giver_none))]
    pub(crate) fn giver(&self, scope: ScopeId, function: FactId) -> Option<FactId>
        requires { IsTelling self.now }
        ensures is { told_in self.now result ≡ definition.giver (graph_of self.now) scope.0 function.0 }
        ensures there { IfSome result (λ one. one.0 < count_in self.now) }
    {
        match self.fact(function) {
            Some(fact) => self.giver_by(scope, function, fact),
            None => None,
        }
    }

    /// The scope of a declaration.
    #[tactic(auto, using(crate::proofs::Told::scope_there))]
    pub(crate) fn scope_of(&self, number: FactId) -> ScopeId
        requires { number.0 < count_in self.now }
        ensures { IsScopeOf (told_in self.now (Some number)) result }
    {
        self.graph.facts()[number.0 as usize].scope
    }

    // ---- beside the first declarations

    // The other declaration of a function that tells its default arguments in a scope.
    #[tactic(auto, using(crate::proofs::Told::other_same, crate::proofs::Told::other_found, crate::proofs::Told::other_none))]
    fn giver_of_function(&self, scope: ScopeId, function: FactId) -> Option<FactId>
        requires { IsTelling self.now }
        ensures is { those_in self.now (one_number result) ≡ definition.other_giver function.0 (definition.giver (graph_of self.now) scope.0 function.0) }
        ensures there { IfSome result (λ one. one.0 < count_in self.now) }
    {
        match self.giver(scope, function) {
            Some(one) => other_giver(function, one),
            None => None,
        }
    }

    // The same of a declaration that may be none of a function.
    #[tactic(auto, using(crate::proofs::Told::beside_function, crate::proofs::Told::beside_other, crate::proofs::Told::beside_none))]
    fn beside(&self, scope: ScopeId, number: FactId) -> Option<FactId>
        requires { IsTelling self.now }
        ensures is { those_in self.now (one_number result) ≡ definition.givers (graph_of self.now) scope.0 (those_in self.now (number ∷ [])) }
        ensures there { IfSome result (λ one. one.0 < count_in self.now) }
    {
        match self.fact(number) {
            Some(fact) => {
                if is_function(fact.what) {
                    self.giver_of_function(scope, number)
                } else {
                    None
                }
            }
            None => None,
        }
    }

    // ---- all of them

    // Adds a declaration, where it is there.
    #[tactic(auto, using(crate::proofs::Told::looked_more, crate::proofs::Told::looked_none, crate::proofs::Told::below_more))]
    fn add_known(&self, found: &mut FactList, number: FactId) -> Result<(), AllocError>
        requires { AreNumbersBelow (count_in self.now) found.old }
        ensures is { OnOk result (those_in self.now found.new ≡ those_in self.now found.old ++ those_in self.now (number ∷ [])) }
        ensures below { OnOk result (AreNumbersBelow (count_in self.now) found.new) }
    {
        if (number.0 as usize) < self.graph.facts().len() {
            found.push(number)?;
        }
        Ok(())
    }

    /// Those of some declarations that are there.
    #[tactic(auto, using(crate::proofs::Told::known_end))]
    pub(crate) fn known(&self, alloc: Global, numbers: &[FactId]) -> Result<FactList, AllocError>
        ensures is { IfOk result (λ found. those_in self.now found ≡ those_in self.now numbers.now) }
        ensures below { IfOk result (AreNumbersBelow (count_in self.now)) }
    {
        let mut found = Listed::new(alloc);
        for number in numbers {
            self.add_known(&mut found, *number)?;
        }
        Ok(found)
    }

    // Adds the other declaration that tells the default arguments of a function.
    #[tactic(auto, using(crate::proofs::Told::looked_more, crate::proofs::Told::below_more))]
    fn add_beside(
        &self,
        scope: ScopeId,
        found: &mut FactList,
        number: FactId,
    ) -> Result<(), AllocError>
        requires telling { IsTelling self.now }
        requires below { AreNumbersBelow (count_in self.now) found.old }
        ensures is { OnOk result (those_in self.now found.new ≡ those_in self.now found.old ++ definition.givers (graph_of self.now) scope.0 (those_in self.now (number ∷ []))) }
        ensures below { OnOk result (AreNumbersBelow (count_in self.now) found.new) }
    {
        if let Some(one) = self.beside(scope, number) {
            found.push(one)?;
        }
        Ok(())
    }

    // Adds the others that tell the default arguments of some functions.
    #[tactic(auto, using(crate::proofs::Told::givers_end))]
    fn add_givers(
        &self,
        scope: ScopeId,
        found: FactList,
        numbers: &[FactId],
    ) -> Result<FactList, AllocError>
        requires telling { IsTelling self.now }
        requires below { AreNumbersBelow (count_in self.now) found }
        ensures is { IfOk result (λ all. those_in self.now all ≡ those_in self.now found ++ definition.givers (graph_of self.now) scope.0 (those_in self.now numbers.now)) }
        ensures below { IfOk result (AreNumbersBelow (count_in self.now)) }
    {
        let mut found = found;
        for number in numbers {
            self.add_beside(scope, &mut found, *number)?;
        }
        Ok(found)
    }

    /// The first declarations of functions, and behind them the others that tell their default arguments in a scope.
    #[tactic(auto, unfolding(cxx_reading::specs::Givers::with_givers))]
    pub(crate) fn with_givers(
        &self,
        alloc: Global,
        scope: ScopeId,
        numbers: &[FactId],
    ) -> Result<FactList, AllocError>
        requires { IsTelling self.now }
        ensures is { IfOk result (λ all. those_in self.now all ≡ definition.with_givers (graph_of self.now) scope.0 (those_in self.now numbers.now)) }
        ensures below { IfOk result (AreNumbersBelow (count_in self.now)) }
    {
        let found = self.known(alloc, numbers)?;
        self.add_givers(scope, found, numbers)
    }
}
