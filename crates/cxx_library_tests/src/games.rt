//! Contests in memory, which the tests of the champion ask.

ghost use Rattle.std.specs.Prelude.{◌≡◌};
ghost use Rattle.cxx_library_tests.specs.Games.{wins_by};

use cxx_champion::Contest;
use cxx_model::Steps;
use std::alloc::AllocError;
use std::cell::Cell;
use std::sync::ledger::Ledger;

/// Who beats whom.
#[derive(Clone, Copy)]
pub enum Rule {
    /// A member beats all before it.
    LaterWins,
    /// Of three, each beats the next.
    Circle,
}

impl Rule {
    fn wins(self, first: usize, second: usize) -> bool
        ensures { result ≡ wins_by self first second }
    {
        match self {
            Rule::LaterWins => second < first,
            Rule::Circle => {
                let next = if first % 3 == 2 { 0 } else { first % 3 + 1 };
                next == second
            }
        }
    }
}

/// Members that are compared by a rule. The comparison with a given number, from 1, runs out of memory.
#[derive(Drop)]
pub struct Game {
    pub members: usize,
    pub rule: Rule,
    pub failing: usize,
    pub compared: Cell<usize>,
}

impl Game {
    /// Members of which no comparison lacks memory.
    pub fn new(members: usize, rule: Rule) -> Game
        ensures { result.members ≡ members }
    {
        Game {
            members,
            rule,
            failing: 0,
            compared: Cell::new(0),
        }
    }
}

impl Contest for Game {
    ghost use Rattle.cxx_library_tests.specs.Games.{wins_by, rule_asymmetric};

    ghost count = { λ game. game.members };

    ghost wins = { λ game. wins_by game.rule };

    ghost lacks_memory = { λ _ _ _. Unit {0} };

    fn size(&self) -> usize {
        self.members
    }

    fn beats<L: Ledger>(
        &self,
        first: usize,
        second: usize,
        steps: &mut Steps<L>,
    ) -> Result<bool, AllocError> {
        steps.tick();
        let compared = self.compared.get().wrapping_add(1);
        self.compared.set(compared);
        if compared == self.failing {
            return Err(AllocError);
        }
        Ok(self.rule.wins(first, second))
    }

    ghost asymmetric = { λ game. rule_asymmetric game.rule game.members };
}
