ghost use Rattle.std.specs.Prelude.{◌≡◌, length, Ok};
ghost use Rattle.cxx_model.specs.Facts.Declarations.{type_of_option};
ghost use Rattle.cxx_model.specs.Facts.Fitted.{IsTypeNumberBelow};
ghost use Rattle.cxx_reading.specs.Declaring as declaring;
ghost use Rattle.cxx_reading.specs.Declaring.{with_result, with_tested, within_step};
ghost use Rattle.cxx_tree.specs.Answered.{AnyKnown, IsAnswered, itself};
ghost use Rattle.cxx_tree.specs.Held.{fact_of_option, meaning};
ghost use Rattle.cxx_tree.specs.Later.{Later};
ghost use Rattle.cxx_tree.specs.Whole.{IsFunctionBelow};

use crate::state::State;
use cxx_model::{FactId, ScopeKind, Stop, TypeId};

impl State {
    /// What the function returns whose body is read (6.6.3).
    pub fn result(&self) -> Option<TypeId>
        ensures is { result ≡ (self.now).result }
        ensures below { IsTypeNumberBelow (length (self.now).types) result }
    {
        self.result
    }

    /// The body of a function that returns a type begins to be read, or ends (6.6.3).
    pub fn set_result(&mut self, of: Option<TypeId>)
        requires { IsTypeNumberBelow (length (self.old).types) of }
        ensures later { Later self.old self.new }
        ensures is { meaning self.new ≡ with_result (type_of_option (self.old).types of) (meaning self.old) }
        ensures held { self.new ≡ record self.old { result = of } }
    {
        self.result = of;
    }

    /// The object that a condition declared last, by its declaration (6.4).
    pub fn tested(&self) -> Option<FactId>
        ensures { result ≡ (self.now).tested }
    {
        self.tested
    }

    /// Keeps the object that a condition declares, or that it declares none (6.4).
    pub fn set_tested(&mut self, number: Option<FactId>)
        ensures later { Later self.old self.new }
        ensures is { meaning self.new ≡ with_tested (fact_of_option number) (meaning self.old) }
        ensures held { self.new ≡ record self.old { tested = number } }
    {
        self.tested = number;
    }

    /// Whether what a `for` does behind each turn is being read (6.5.3).
    pub fn in_step(&self) -> bool
        ensures { result ≡ (self.now).in_step }
    {
        self.in_step
    }

    /// What a `for` does behind each turn begins to be read, or ends (6.5.3).
    pub fn set_in_step(&mut self, inside: bool)
        ensures later { Later self.old self.new }
        ensures is { meaning self.new ≡ within_step inside (meaning self.old) }
        ensures held { self.new ≡ record self.old { in_step = inside } }
    {
        self.in_step = inside;
    }

    /// A block begins (3.3.2), where there is room for its scope. The reader stands in that then. The outermost block of a
    /// body names a declaration of its function.
    pub fn enter_block(&mut self, function: Option<FactId>) -> Result<(), Stop>
        requires function { IsFunctionBelow (length (self.old).graph.facts) function }
        ensures { IsAnswered itself AnyKnown self.old self.new result (declaring.enter_block function (meaning self.old)) }
    {
        self.enter_scope(ScopeKind::Block(function))?;
        Ok(())
    }

    /// A block ends: the reader stands in the scope that holds its scope (3.3.2).
    pub fn leave_block(&mut self)
        ensures later { Later self.old self.new }
        ensures is { declaring.leave_block (meaning self.old) ≡ Ok (tt, meaning self.new) }
    {
        self.leave_scope();
    }
}
