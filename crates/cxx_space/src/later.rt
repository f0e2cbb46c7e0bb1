//! The default arguments and the bodies of functions in a class, which are read where the outermost class has ended (9.2 p2).

ghost use Rattle.std.specs.Prelude.{◌≡◌, ◌<◌, ◌++◌, [], length, IfOk};
ghost use Rattle.cxx_language.specs.Later as definition;
ghost use Rattle.cxx_later.specs.FoundDefaults.{AreDefaultsHeld, IsDefaultKnown, default_of, defaults_held};
ghost use Rattle.cxx_later.specs.Views.{AreWaitingHeld, IsWaitingKnown, waiting_held, waiting_of};
ghost use Rattle.cxx_reading.specs.Reads.{Ahead};
ghost use Rattle.cxx_space.specs.Behind.{bodies_from};
ghost use Rattle.cxx_space.specs.Classes.{bodies_then, default_inside};
ghost use Rattle.cxx_cursor.specs.Asking.{AnyKnown, IsTreeKnown, itself};
ghost use Rattle.cxx_cursor.specs.Making.{GrowsTree};
ghost use Rattle.cxx_cursor.specs.Reading.{IsRead};
ghost use Rattle.cxx_cursor.specs.Views.{AreSpecifiers, AreTreesHeld, specifiers_of, trees_held};
ghost use Rattle.cxx_tree.specs.Held.{meaning, tree, trees};

use crate::declarators::standing;
use crate::space::{Defines, Space};
use cxx_cursor::{Cursor, Specifiers, joined, node_from, push};
use cxx_later::{
    LaterDefault, Waiting, all_defaults, all_waiting, ends_where, forward_to, name_declared,
};
use cxx_model::{Listed, ScopeId, Stop, Text, TreeId, TreeIdList};
use cxx_tree::State;
use cxx_units::trees::with_tree;
use std::alloc::AllocError;

/// The number of the production.
const FUNCTION_DEFINITION: u8 = 15;

// A scope that there is.
#[tactic(auto, using(cxx_cursor::proofs::Kept::later_refl), unfolding(cxx_language::specs::Later::list_there, cxx_tree::specs::Held::meaning))]
fn list_there(state: &State, cursor: &Cursor<'_>, list: ScopeId) -> Result<(), Stop>
    ensures { IsRead itself AnyKnown state.now state.now cursor.now result (definition.list_there list.0 (meaning state.now) cursor.now) }
{
    if list.0 < state.names().scopes(state.graph()).0 {
        return Ok(());
    }
    Err(Stop::Fault(cursor.refused()?))
}

// The definition of a function: its declarator and its body.
fn definition_tree(
    state: &mut State,
    declarator: TreeId,
    body: TreeId,
    from: &Cursor<'_>,
    to: &Cursor<'_>,
) -> Result<TreeId, Stop>
    requires declarator { declarator.0 < length (trees state.old) }
    requires body { body.0 < length (trees state.old) }
    ensures { GrowsTree state.old state.new result (definition.definition_tree (tree state.old declarator) (tree state.old body) from.now to.now) }
{
    let mut parts = Listed::new(from.alloc());
    parts.push(declarator)?;
    parts.push(body)?;
    let spelling = Text::from_slice(from.alloc(), b"")?;
    push(
        state,
        node_from(FUNCTION_DEFINITION, spelling, from, to, parts),
    )
}

fn with_parts(so_far: Specifiers, parts: TreeIdList) -> Result<Specifiers, AllocError>
    ensures { IfOk result (λ all. all ≡ record so_far { parts = so_far.parts ++ parts }) }
{
    let mut so_far = so_far;
    so_far.parts = joined(so_far.parts, parts)?;
    Ok(so_far)
}

impl<D: Defines> Space<'_, D> {
    // ---- default arguments

    // Where the reader stands in the scope of the list of a default argument; it stands where it stood before then.
    #[tactic(auto, using(cxx_cursor::proofs::Kept::type_kept, cxx_cursor::proofs::Kept::type_later, cxx_cursor::proofs::Kept::later_refl, cxx_cursor::proofs::Kept::later_trans))]
    fn default_inside(
        &self,
        state: &mut State,
        cursor: &mut Cursor<'_>,
        one: LaterDefault,
        outside: ScopeId,
    ) -> Result<(), Stop>
        requires { IsDefaultKnown state.old one }
        ensures { IsRead itself AnyKnown state.old state.new cursor.new result (default_inside (default_of state.old one) outside.0 (meaning state.old) cursor.old) }
    {
        self.declares.begin_later(state)?;
        let number = self.declares.default_value(state, cursor, one.room)?;
        self.declares
            .end_later(state, one.equals, one.number, one.index, one.of, number)?;
        self.declares.stand_in(state, outside)?;
        ends_where(state, cursor, one.last)
    }

    // A default argument, from behind its `=` on.
    #[tactic(auto, using(cxx_later::proofs::KeptDefaults::default_kept, cxx_later::proofs::KeptDefaults::default_later, cxx_cursor::proofs::Kept::later_refl, cxx_cursor::proofs::Kept::later_trans), unfolding(cxx_language::specs::Later::default_read))]
    fn default_read(
        &self,
        state: &mut State,
        cursor: &mut Cursor<'_>,
        one: LaterDefault,
    ) -> Result<(), Stop>
        requires { IsDefaultKnown state.old one }
        ensures { IsRead itself AnyKnown state.old state.new cursor.new result (definition.default_read (default_of state.old one) (meaning state.old) cursor.old) }
    {
        list_there(state, cursor, one.list)?;
        let outside = standing(state);
        self.declares.stand_in(state, one.list)?;
        self.default_inside(state, cursor, one, outside)
    }

    // The next one, from where the reader stands.
    #[tactic(auto, using(cxx_cursor::proofs::Kept::later_refl, cxx_cursor::proofs::Kept::later_trans), unfolding(cxx_language::specs::Later::later_read))]
    fn later_read(
        &self,
        state: &mut State,
        cursor: &mut Cursor<'_>,
        one: LaterDefault,
    ) -> Result<(), Stop>
        requires { IsDefaultKnown state.old one }
        ensures { IsRead itself AnyKnown state.old state.new cursor.new result (definition.later_read (default_of state.old one) (meaning state.old) cursor.old) }
    {
        forward_to(state, cursor, one.first)?;
        self.default_read(state, cursor, one)
    }

    // One after another.
    fn defaults_read(
        &self,
        state: &mut State,
        cursor: &mut Cursor<'_>,
        all: &[LaterDefault],
    ) -> Result<(), Stop>
        requires { AreDefaultsHeld state.old all.now }
        ensures { IsRead itself AnyKnown state.old state.new cursor.new result (definition.defaults_read (defaults_held state.old all.now) (meaning state.old) cursor.old) }
    {
        for one in all {
            self.later_read(state, cursor, *one)?;
        }
        Ok(())
    }

    // ---- bodies

    // A body, from its `{` on.
    #[tactic(auto, using(cxx_cursor::proofs::Kept::trees_kept, cxx_cursor::proofs::Kept::trees_later, cxx_expr::proofs::Kept::tree_kept, cxx_expr::proofs::Kept::tree_later, cxx_cursor::proofs::Kept::type_kept, cxx_cursor::proofs::Kept::type_later, cxx_cursor::proofs::Kept::later_refl, cxx_cursor::proofs::Kept::later_trans), unfolding(cxx_language::specs::Later::body_read))]
    fn body_read(
        &self,
        state: &mut State,
        cursor: &mut Cursor<'_>,
        one: Waiting,
    ) -> Result<TreeId, Stop>
        requires { IsWaitingKnown state.old one }
        ensures { IsRead tree IsTreeKnown state.old state.new cursor.new result (definition.body_read (waiting_of state.old one) (meaning state.old) cursor.old) }
    {
        let from = cursor.mark();
        list_there(state, cursor, one.list)?;
        let name = name_declared(state, cursor.alloc(), one.declarator)?;
        let body = self.declares.body(
            state, cursor, &name, one.of, one.number, one.list, one.room,
        )?;
        ends_where(state, cursor, one.last)?;
        definition_tree(state, one.declarator, body, &from, cursor)
    }

    // The next one, from where the reader stands.
    #[tactic(auto, using(cxx_cursor::proofs::Kept::later_refl, cxx_cursor::proofs::Kept::later_trans), unfolding(cxx_language::specs::Later::waiting_read))]
    fn waiting_read(
        &self,
        state: &mut State,
        cursor: &mut Cursor<'_>,
        one: Waiting,
    ) -> Result<TreeId, Stop>
        requires { IsWaitingKnown state.old one }
        ensures { IsRead tree IsTreeKnown state.old state.new cursor.new result (definition.waiting_read (waiting_of state.old one) (meaning state.old) cursor.old) }
    {
        forward_to(state, cursor, one.first)?;
        self.body_read(state, cursor, one)
    }

    // One after another.
    fn each_read(
        &self,
        state: &mut State,
        cursor: &mut Cursor<'_>,
        all: &[Waiting],
    ) -> Result<TreeIdList, Stop>
        requires { AreWaitingHeld state.old all.now }
        ensures { IsRead trees_held AreTreesHeld state.old state.new cursor.new result (definition.each_read (waiting_held state.old all.now) [] (meaning state.old) cursor.old) }
    {
        let mut so_far = Listed::new(cursor.alloc());
        for one in all {
            let number = self.waiting_read(state, cursor, *one)?;
            so_far = with_tree(so_far, number)?;
        }
        Ok(so_far)
    }

    // ---- all of them

    // The bodies of a class whose definition stands from one place up to another.
    #[tactic(auto, using(cxx_cursor::proofs::Kept::later_refl, cxx_cursor::proofs::Kept::later_trans))]
    fn bodies_from(
        &self,
        state: &mut State,
        from: &Cursor<'_>,
        to: &Cursor<'_>,
        all: &[Waiting],
    ) -> Result<TreeIdList, Stop>
        requires { AreWaitingHeld state.old all.now }
        ensures { (ahead : Ahead) → IsRead trees_held AreTreesHeld state.old state.new to.now result (bodies_from from.now to.now (waiting_held state.old all.now) (meaning state.old) ahead) }
    {
        let _ = to;
        let mut again = from.mark();
        self.each_read(state, &mut again, all)
    }

    // Its default arguments, and then its bodies.
    #[tactic(auto, using(cxx_later::proofs::Kept::all_waiting_kept, cxx_later::proofs::Kept::all_waiting_later, cxx_cursor::proofs::Kept::later_refl, cxx_cursor::proofs::Kept::later_trans), unfolding(cxx_language::specs::Later::all_read))]
    fn all_read(
        &self,
        state: &mut State,
        from: &Cursor<'_>,
        to: &Cursor<'_>,
        defaults: &[LaterDefault],
        bodies: &[Waiting],
    ) -> Result<TreeIdList, Stop>
        requires defaults { AreDefaultsHeld state.old defaults.now }
        requires bodies { AreWaitingHeld state.old bodies.now }
        ensures { IsRead trees_held AreTreesHeld state.old state.new to.now result (definition.all_read from.now to.now (defaults_held state.old defaults.now) (waiting_held state.old bodies.now) (meaning state.old) to.now) }
    {
        let mut inside = from.mark();
        self.defaults_read(state, &mut inside, defaults)?;
        self.bodies_from(state, from, to, bodies)
    }

    /// Behind a class that began where `from` stands: the default arguments and the bodies of the functions in it.
    #[tactic(auto, using(cxx_cursor::proofs::Kept::named_kept, cxx_cursor::proofs::Kept::named_later, cxx_cursor::proofs::Kept::trees_kept, cxx_cursor::proofs::Kept::trees_later, cxx_cursor::proofs::Kept::trees_append, cxx_cursor::proofs::Kept::trees_below_append, cxx_cursor::proofs::Kept::later_refl, cxx_cursor::proofs::Kept::later_trans))]
    pub(crate) fn bodies_then(
        &self,
        state: &mut State,
        cursor: &Cursor<'_>,
        one: Specifiers,
        from: &Cursor<'_>,
    ) -> Result<Specifiers, Stop>
        requires { AreSpecifiers state.old one }
        ensures { IsRead specifiers_of AreSpecifiers state.old state.new cursor.now result (bodies_then self.now.room from.now (specifiers_of state.old one) (meaning state.old) cursor.now) }
    {
        let defaults = all_defaults(state, one.parts.as_slice(), cursor.alloc())?;
        let bodies = all_waiting(state, one.parts.as_slice(), self.room, cursor.alloc())?;
        let parts = self.all_read(state, from, cursor, defaults.as_slice(), bodies.as_slice())?;
        Ok(with_parts(one, parts)?)
    }
}
