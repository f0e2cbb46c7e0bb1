//! The functions that a call may mean besides those that its name means where it stands (3.4.2).

ghost use Rattle.std.specs.Prelude.{◌≡◌, ◌++◌, [], ◌∷◌, length, IfOk, OnOk};
ghost use Rattle.cxx_found.specs.Associated.{given};
ghost use Rattle.cxx_answers.specs.Answers as definition;
ghost use Rattle.cxx_answers.specs.Told.{AreNumbersBelow, IsTelling, count_in, graph_of, those_in};
ghost use Rattle.cxx_meaning.specs.Lookups.Associated.{associated};
ghost use Rattle.cxx_model.specs.Facts.Fitted.{Fitted};
ghost use Rattle.cxx_names.specs.Plain.{ArePlain};
ghost use Rattle.cxx_model.specs.Types.Numbers.{AreTypesBelow};
ghost use Rattle.cxx_reading.specs.Givers.{with_givers};
ghost use Rattle.cxx_reading.specs.Seen.{fact_numbers, numbered_at};

use crate::givers::Telling;
use cxx_model::{FactId, FactList, Listed, OutOfMemory, ScopeId, TypeIdList};
use std::alloc::{AllocError, Global};

impl Telling<'_> {
    // Whether one of some declarations has a number.
    #[tactic(auto, using(crate::proofs::Fresh::has_none))]
    fn has_number(&self, functions: &[FactId], number: FactId) -> bool
        requires { AreNumbersBelow (count_in self.now) functions.now }
        ensures { result ≡ definition.has_number number.0 (those_in self.now functions.now) }
    {
        for one in functions {
            if one.0 == number.0 {
                return true;
            }
        }
        false
    }

    // Adds a number that no one of some declarations has.
    #[tactic(auto, using(crate::proofs::Fresh::fresh_one, crate::proofs::Fresh::fresh_none))]
    fn add_fresh(
        &self,
        functions: &[FactId],
        found: &mut FactList,
        number: FactId,
    ) -> Result<(), AllocError>
        requires { AreNumbersBelow (count_in self.now) functions.now }
        ensures { OnOk result (fact_numbers found.new ≡ fact_numbers found.old ++ definition.fresh_among (those_in self.now functions.now) (number ∷ [])) }
    {
        if !self.has_number(functions, number) {
            found.push(number)?;
        }
        Ok(())
    }

    // Those of some numbers that no one of some declarations has.
    #[tactic(auto, using(crate::proofs::Fresh::fresh_end))]
    fn fresh_among(
        &self,
        alloc: Global,
        functions: &[FactId],
        numbers: &[FactId],
    ) -> Result<FactList, AllocError>
        requires { AreNumbersBelow (count_in self.now) functions.now }
        ensures { IfOk result (λ found. fact_numbers found ≡ definition.fresh_among (those_in self.now functions.now) numbers.now) }
    {
        let mut found = Listed::new(alloc);
        for number in numbers {
            self.add_fresh(functions, &mut found, *number)?;
        }
        Ok(found)
    }

    // Some functions that are not among others, and behind them the declarations that tell their default arguments.
    #[tactic(auto, using(crate::proofs::Fresh::numbered_is))]
    fn besides_among(
        &self,
        alloc: Global,
        scope: ScopeId,
        functions: &[FactId],
        numbers: &[FactId],
    ) -> Result<FactList, AllocError>
        requires telling { IsTelling self.now }
        requires functions { AreNumbersBelow (count_in self.now) functions.now }
        ensures is { IfOk result (λ all. those_in self.now all ≡ with_givers (graph_of self.now) scope.0 (numbered_at (graph_of self.now) (definition.fresh_among (those_in self.now functions.now) numbers.now))) }
        ensures below { IfOk result (AreNumbersBelow (count_in self.now)) }
    {
        let fresh = self.fresh_among(alloc, functions, numbers)?;
        self.with_givers(alloc, scope, fresh.as_slice())
    }

    /// The functions of a name that the types of arguments find besides others, and behind them the declarations that tell
    /// their default arguments in a scope.
    pub(crate) fn besides(
        &self,
        alloc: Global,
        scope: ScopeId,
        word: &[u8],
        functions: &[FactId],
        of: &TypeIdList,
    ) -> Result<FactList, OutOfMemory>
        requires telling { IsTelling self.now }
        requires fitted { Fitted self.now.graph.now self.now.types.now }
        requires plain { ArePlain self.now.graph.now.facts }
        requires functions { AreNumbersBelow (count_in self.now) functions.now }
        requires of { AreTypesBelow (length self.now.types.now) of.now }
        ensures is { IfOk result (λ all. those_in self.now all ≡ with_givers (graph_of self.now) scope.0 (numbered_at (graph_of self.now) (definition.fresh_among (those_in self.now functions.now) (definition.found_in_sets (graph_of self.now) word.now (associated (graph_of self.now) (given self.now.types.now of.now)))))) }
        ensures below { IfOk result (AreNumbersBelow (count_in self.now)) }
    {
        let found = self.found_by_types(alloc, word, of)?;
        Ok(self.besides_among(alloc, scope, functions, found.as_slice())?)
    }
}
