//! The values of the labels of a switch (6.4.2).

ghost use Rattle.std.specs.Prelude.{◌≡◌, ◌++◌, [], ◌∷◌, IfOk};
ghost use Rattle.cxx_statements.specs.Statements as definition;

use cxx_model::Listed;
use std::alloc::{AllocError, Global};
use std::collections::BTreeSet;
use std::marker::Model;

/// Some values in order, of which each is found in few steps, however many there are.
#[derive(Drop)]
pub(crate) struct Values {
    all: Listed<i128>,
    // The same values, each once.
    known: BTreeSet<i128>,
}

impl Model for Values {
    ghost use Rattle.std.specs.Prelude.{List, ℤ};
    ghost use Rattle.std.specs.Coded.{codes};
    ghost use Rattle.cxx_statements.specs.Known.{AreKnown};

    ghost Value = { List ℤ };

    ghost coded = { Prim.hlevel codes };

    ghost view = { λ values. values.all };

    ghost invariant = { λ values. AreKnown values.known.keys values.all };
}

impl Values {
    /// No values.
    #[tactic(auto, using(crate::proofs::Known::none_known))]
    pub(crate) fn new(alloc: Global) -> Values
        ensures { result ≡ [] }
    {
        Values {
            all: Listed::new(alloc),
            known: BTreeSet::new(alloc),
        }
    }

    /// Whether a value is among them.
    pub(crate) fn has(&self, value: i128) -> bool
        ensures { result ≡ definition.has_value value self.now }
    {
        self.known.contains(&value)
    }

    /// With one more value behind them.
    #[tactic(auto, using(crate::proofs::Known::one_known))]
    pub(crate) fn with(self, value: i128) -> Result<Values, AllocError>
        ensures { IfOk result (λ more. more ≡ self ++ value ∷ []) }
    {
        let Values { mut all, mut known } = self;
        all.push(value)?;
        known.insert(value)?;
        Ok(Values { all, known })
    }
}
