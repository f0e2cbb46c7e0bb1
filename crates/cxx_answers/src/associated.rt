//! The functions that the types of arguments find (3.4.2).

ghost use Rattle.std.specs.Prelude.{◌≡◌, ◌<◌, length, IfOk};
ghost use Rattle.cxx_answers.specs.Answers.{found_in_sets};
ghost use Rattle.cxx_answers.specs.Told.{IsTelling, graph_of};
ghost use Rattle.cxx_found.specs.Associated.{given};
ghost use Rattle.cxx_meaning.specs.Lookups.Associated.{associated};
ghost use Rattle.cxx_model.specs.Facts.Fitted.{Fitted};
ghost use Rattle.cxx_names.specs.Plain.{ArePlain};
ghost use Rattle.cxx_model.specs.Types.Numbers.{AreTypesBelow};

use crate::givers::Telling;
use cxx_found::found_by_types;
use cxx_model::{FactList, OutOfMemory, TypeIdList};
use std::alloc::Global;

impl Telling<'_> {
    /// The functions of a name that the types of arguments find, by their first declarations.
    #[tactic(auto, using(crate::proofs::ByTypes::found_in))]
    pub(crate) fn found_by_types(
        &self,
        alloc: Global,
        word: &[u8],
        of: &TypeIdList,
    ) -> Result<FactList, OutOfMemory>
        requires telling { IsTelling self.now }
        requires fitted { Fitted self.now.graph.now self.now.types.now }
        requires plain { ArePlain self.now.graph.now.facts }
        requires of { AreTypesBelow (length self.now.types.now) of.now }
        ensures { IfOk result (λ found. found ≡ found_in_sets (graph_of self.now) word.now (associated (graph_of self.now) (given self.now.types.now of.now))) }
    {
        let found = found_by_types(
            alloc,
            self.names,
            self.graph,
            self.types,
            of.as_slice(),
            word,
        )?;
        Ok(found)
    }
}
