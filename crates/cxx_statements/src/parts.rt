//! What is asked while statements are read.

ghost use Rattle.std.specs.Prelude.{ℕ};
ghost use Rattle.cxx_reading.specs.State.{CxxState};
ghost use Rattle.cxx_statements.specs.Statements as definition;
ghost use Rattle.cxx_statements.specs.Views.{IsTarget, target_of};
ghost use Rattle.cxx_cursor.specs.Asking.{AnyKnown, IsAsked, IsTreeKnown, itself};
ghost use Rattle.cxx_cursor.specs.Reading.{IsRead};
ghost use Rattle.cxx_tree.specs.Held.{meaning, tree};

use cxx_cursor::Cursor;
use cxx_model::{Stop, TreeId, TypeId};
use cxx_tree::State;

/// What begins at a token with which no statement begins by its keyword (6.8).
#[derive(Clone, Copy)]
pub enum Head {
    Declaration,
    Expression,
}

/// For what an expression is read.
#[derive(Clone, Copy)]
pub enum Purpose {
    /// A whole expression, which may hold commas (5.18).
    Whole,
    /// The constant of a label (6.1, 6.4.2).
    Constant,
    /// An expression, or a declaration of one object with its value (6.4).
    Condition,
    /// What a `for` does behind each turn (6.5.3).
    Step,
}

/// What an expression of a statement becomes.
#[derive(Clone, Copy)]
pub enum Target {
    /// A condition (6.4, 6.5).
    Bool,
    /// What is switched over, by its promotion (6.4.2).
    Promoted,
    /// The constant of a label, by the promoted type of its switch (6.4.2).
    Of(TypeId),
    /// What a function answers (6.6.3).
    Result,
}

/// What a reader of statements asks of its user, with room for so many more brackets and statements inside one another.
/// `asks` is the definition that the answers follow.
pub trait Parts {
    ghost asks: { Self → ℕ → definition.Parts CxxState };

    ghost is_ready: { Self → Type 0 };

    /// Whether a declaration or an expression begins ahead, where no other statement does by its keyword, or the fault of
    /// what begins none (6.8). No token is taken.
    fn head(&self, state: &mut State, cursor: &Cursor<'_>, room: u32) -> Result<Head, Stop>
        requires { is_ready self.now }
        ensures { IsRead itself AnyKnown state.old state.new cursor.now result ((asks self.now room).head (meaning state.old) cursor.now) };

    /// A declaration with its end (6.7).
    fn declaration(
        &self,
        state: &mut State,
        cursor: &mut Cursor<'_>,
        room: u32,
    ) -> Result<TreeId, Stop>
        requires { is_ready self.now }
        ensures { IsRead tree IsTreeKnown state.old state.new cursor.new result ((asks self.now room).declaration (meaning state.old) cursor.old) };

    /// An expression (5); a condition may be a declaration (6.4).
    fn expression(
        &self,
        state: &mut State,
        cursor: &mut Cursor<'_>,
        purpose: Purpose,
        room: u32,
    ) -> Result<TreeId, Stop>
        requires { is_ready self.now }
        ensures { IsRead tree IsTreeKnown state.old state.new cursor.new result ((asks self.now room).expression purpose (meaning state.old) cursor.old) };

    /// An expression was read as a whole, and becomes what is wanted.
    fn converted(
        &self,
        state: &mut State,
        target: Target,
        number: TreeId,
        room: u32,
    ) -> Result<TreeId, Stop>
        requires ready { is_ready self.now }
        requires target { IsTarget state.old target }
        requires number { IsTreeKnown state.old number }
        ensures { IsAsked tree IsTreeKnown state.old state.new result ((asks self.now room).converted (target_of state.old target) (tree state.old number) (meaning state.old)) };

    /// The value of the constant of a label (5.19).
    fn value(&self, state: &mut State, number: TreeId, room: u32) -> Result<i128, Stop>
        requires ready { is_ready self.now }
        requires number { IsTreeKnown state.old number }
        ensures { IsAsked itself AnyKnown state.old state.new result ((asks self.now room).value (tree state.old number) (meaning state.old)) };

    /// A scope is entered (3.3.2).
    fn enter_block(&self, state: &mut State, room: u32) -> Result<(), Stop>
        requires { is_ready self.now }
        ensures { IsAsked itself AnyKnown state.old state.new result ((asks self.now room).enter_block (meaning state.old)) };

    /// It is left.
    fn leave_block(&self, state: &mut State, room: u32) -> Result<(), Stop>
        requires { is_ready self.now }
        ensures { IsAsked itself AnyKnown state.old state.new result ((asks self.now room).leave_block (meaning state.old)) };
}
