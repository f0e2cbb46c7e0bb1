//! Declarations in conditions (6.4).

ghost use Rattle.std.specs.Prelude.{◌≡◌, ◌<◌, ◌∷◌, [], false, length, Some};
ghost use Rattle.cxx_expr.specs.Operands.{object_operand};
ghost use Rattle.cxx_language.specs.Asked.{answers, inner_at, phrases_at};
ghost use Rattle.cxx_language.specs.Blocks as definition;
ghost use Rattle.cxx_meaning.specs.Conversions.Sizes.{referred as referred_to};
ghost use Rattle.cxx_reading.specs.Labels.{label_from};
ghost use Rattle.cxx_reading.specs.Trees.{tree_of};
ghost use Rattle.cxx_reading.specs.Units.{specifiers_tree as specifiers_tree_of};
ghost use Rattle.cxx_standard.specs.Views.{operand_at};
ghost use Rattle.cxx_statements.specs.Productions as statement;
ghost use Rattle.cxx_cursor.specs.Asking.{AnyKnown, IsAsked, IsTreeKnown, itself};
ghost use Rattle.cxx_cursor.specs.Making.{GrowsTree};
ghost use Rattle.cxx_cursor.specs.Reading.{IsRead};
ghost use Rattle.cxx_cursor.specs.Views.{AreSpecifiers, AreTreesHeld, IsDeclarator, declarator_of, name_at, specifiers_of, trees_held};
ghost use Rattle.cxx_tree.specs.Held.{meaning, tree, trees, type_of};
ghost use Rattle.cxx_units.specs.Said.{IsDeclared, IsSaid, said_of};

use crate::declares::{Declares, Reader};
use crate::initializers::initializer_node;
use cxx_cursor::{
    Cursor, Declarator, NameToken, Specifiers, joined, no_specifiers_yet, node_from, push,
};
use cxx_expr::operands::referred;
use cxx_model::{ConstantKind, FactId, Listed, Operand, Place, Stop, TreeId, TreeIdList, TypeId};
use cxx_reading::{Naming, SpecifierPlace};
use cxx_syntax::declared;
use cxx_tree::State;
use cxx_units::declared_fits;
use cxx_units::ends::{complete_object, own_parameters};
use cxx_units::said::{Said, said_by};
use cxx_units::trees::{declarator_tree, listed_tree, one_tree, specifiers_tree, token_or};
use cxx_units::types::is_function_type;

/// The numbers of the productions.
mod production {
    pub const SIMPLE_DECLARATION: u8 = 8;

    pub const DECLARATION_STATEMENT: u8 = 24;
}

// The object is kept, since a `for` may not name it behind each turn (6.5.3).
#[tactic(auto, unfolding(crate::specs::Blocks::keep_tested))]
fn keep_tested(state: &mut State, number: FactId) -> Result<(), Stop>
    ensures { IsAsked itself AnyKnown state.old state.new result (definition.keep_tested number.0 (meaning state.old)) }
{
    state.set_tested(Some(number));
    Ok(())
}

// The type of the object of a declarator.
fn type_of_declarator(state: &State, declarator: TreeId, other: TypeId) -> TypeId
    requires declarator { declarator.0 < length (trees state.now) }
    requires other { other.0 < length (state.now).types }
    ensures is { type_of state.now result ≡ definition.type_of_declarator (tree state.now declarator).label.of (type_of state.now other) }
    ensures known { result.0 < length (state.now).types }
{
    match state.node(declarator).of {
        Some(of) => of,
        None => other,
    }
}

// The object of a declarator, as a condition is asked about it.
fn object_of(state: &State, declarator: TreeId, other: TypeId) -> Operand
    requires declarator { declarator.0 < length (trees state.now) }
    requires other { other.0 < length (state.now).types }
    ensures is { operand_at (state.now).types result ≡ object_operand (referred_to (definition.type_of_declarator (tree state.now declarator).label.of (type_of state.now other))) }
    ensures known { result.of.0 < length (state.now).types }
{
    let of = type_of_declarator(state, declarator, other);
    Operand {
        of: referred(state.types(), of),
        lvalue: true,
        constant: ConstantKind::No,
    }
}

fn place_of(state: &State, number: TreeId) -> Place
    requires { number.0 < length (trees state.now) }
    ensures { result ≡ (tree state.now number).label.place }
{
    state.node(number).place
}

// What stands for an object, with its declaration.
fn object_tree(
    state: &mut State,
    inside: TreeId,
    place: Place,
    operand: Operand,
    from: &Cursor<'_>,
    to: &Cursor<'_>,
) -> Result<TreeId, Stop>
    requires inside { inside.0 < length (trees state.old) }
    requires operand { operand.of.0 < length (state.old).types }
    ensures { GrowsTree state.old state.new result (tree_of (record (label_from statement.declaration_statement [] from.now to.now) { place = place; operand = Some (operand_at (state.old).types operand) }) (tree state.old inside ∷ [])) }
{
    let parts = one_tree(from.alloc(), inside)?;
    let mut node = node_from(
        production::DECLARATION_STATEMENT,
        Listed::new(from.alloc()),
        from,
        to,
        parts,
    );
    node.place = place;
    node.operand = Some(operand);
    push(state, node)
}

// The declaration of one declarator.
#[tactic(auto, using(cxx_cursor::proofs::Kept::trees_kept, cxx_cursor::proofs::Kept::trees_later, cxx_cursor::proofs::Kept::type_kept, cxx_cursor::proofs::Kept::type_later, cxx_expr::proofs::Kept::operand_kept, cxx_expr::proofs::Kept::tree_kept, cxx_expr::proofs::Kept::tree_later, cxx_cursor::proofs::Kept::later_refl, cxx_cursor::proofs::Kept::later_trans))]
fn condition_tree(
    state: &mut State,
    other: TypeId,
    specifiers: TreeId,
    declarator: TreeId,
    from: &Cursor<'_>,
    to: &Cursor<'_>,
) -> Result<TreeId, Stop>
    requires other { other.0 < length (state.old).types }
    requires specifiers { specifiers.0 < length (trees state.old) }
    requires declarator { declarator.0 < length (trees state.old) }
    ensures { GrowsTree state.old state.new result (definition.condition_tree (type_of state.old other) (tree state.old specifiers) (tree state.old declarator) from.now to.now) }
{
    let operand = object_of(state, declarator, other);
    let place = place_of(state, declarator);
    let all = one_tree(from.alloc(), declarator)?;
    let inside = listed_tree(
        state,
        production::SIMPLE_DECLARATION,
        specifiers,
        all,
        from,
        to,
    )?;
    object_tree(state, inside, place, operand, from, to)
}

// The same with the tree of the specifiers.
#[tactic(auto, using(cxx_cursor::proofs::Kept::type_kept, cxx_cursor::proofs::Kept::type_later, cxx_expr::proofs::Kept::tree_kept, cxx_expr::proofs::Kept::tree_later, cxx_cursor::proofs::Kept::later_refl, cxx_cursor::proofs::Kept::later_trans))]
fn declared_tree(
    state: &mut State,
    other: TypeId,
    specifiers: Specifiers,
    declarator: TreeId,
    from: &Cursor<'_>,
    between: &Cursor<'_>,
    to: &Cursor<'_>,
) -> Result<TreeId, Stop>
    requires other { other.0 < length (state.old).types }
    requires specifiers { AreSpecifiers state.old specifiers }
    requires declarator { declarator.0 < length (trees state.old) }
    ensures { GrowsTree state.old state.new result (definition.condition_tree (type_of state.old other) (specifiers_tree_of (specifiers_of state.old specifiers) from.now between.now) (tree state.old declarator) from.now to.now) }
{
    let first = specifiers_tree(state, specifiers, from, between)?;
    condition_tree(state, other, first, declarator, from, to)
}

impl<D: Declares> Reader<'_, D> {
    // Behind the declarator of a condition.
    #[tactic(auto, using(cxx_cursor::proofs::Kept::trees_kept, cxx_cursor::proofs::Kept::trees_later, cxx_cursor::proofs::Kept::type_kept, cxx_cursor::proofs::Kept::type_later, cxx_cursor::proofs::Kept::later_refl, cxx_cursor::proofs::Kept::later_trans), unfolding(crate::specs::Blocks::condition_part))]
    fn condition_part(
        &self,
        state: &mut State,
        cursor: &mut Cursor<'_>,
        name: &NameToken,
        of: TypeId,
        number: FactId,
    ) -> Result<TreeIdList, Stop>
        requires { of.0 < length (state.old).types }
        ensures { IsRead trees_held AreTreesHeld state.old state.new cursor.new result (definition.condition_part answers (phrases_at self.now.room) (inner_at self.now.room).phrases (name_at name.now) (type_of state.old of) number.0 (meaning state.old) cursor.old) }
    {
        complete_object(state, cursor, name, of)?;
        let from = cursor.mark();
        let read = self.declares.condition_value(state, cursor, self.room)?;
        let node = initializer_node(state, read, &from, cursor)?;
        let given = self.declares.initialize(state, of, node)?;
        self.initialized_by(state, cursor, name, of, number, given)
    }

    // The object that a condition declares.
    #[tactic(auto, using(cxx_cursor::proofs::Kept::trees_kept, cxx_cursor::proofs::Kept::trees_later, cxx_cursor::proofs::Kept::trees_append, cxx_cursor::proofs::Kept::trees_below_append, cxx_cursor::proofs::Kept::type_kept, cxx_cursor::proofs::Kept::type_later, cxx_cursor::proofs::Kept::later_refl, cxx_cursor::proofs::Kept::later_trans), unfolding(crate::specs::Blocks::tested_object))]
    fn tested_object(
        &self,
        state: &mut State,
        cursor: &mut Cursor<'_>,
        said: Said,
        from: &Cursor<'_>,
        declarator: Declarator,
        of: TypeId,
    ) -> Result<TreeId, Stop>
        requires { IsDeclared state.old said declarator of }
        ensures { IsRead tree IsTreeKnown state.old state.new cursor.new result (definition.tested_object self.now.room (said_of state.old said) (declarator_of state.old declarator) from.now (meaning state.old) cursor.old) }
    {
        let name = token_or(cursor.alloc(), declarator.name);
        let number = self.declares.define_object(state, &name, of)?;
        let parts = self.condition_part(state, cursor, &name, of, number)?;
        keep_tested(state, number)?;
        let parts = joined(declarator.parts, parts)?;
        declarator_tree(state, false, &name, of, number, parts, from, cursor)
    }

    // A function has no `=` behind it.
    #[tactic(auto, using(cxx_cursor::proofs::Kept::layers_kept, cxx_cursor::proofs::Kept::later_refl, cxx_cursor::proofs::Kept::later_trans), unfolding(crate::specs::Blocks::tested_function))]
    fn tested_function(
        &self,
        state: &mut State,
        cursor: &Cursor<'_>,
        said: Said,
        declarator: Declarator,
        of: TypeId,
    ) -> Result<TreeId, Stop>
        requires { IsDeclared state.old said declarator of }
        ensures { IsRead tree IsTreeKnown state.old state.new cursor.now result (definition.tested_function (said_of state.old said) (declarator_of state.old declarator) (meaning state.old) cursor.now) }
    {
        let _ = said;
        let name = token_or(cursor.alloc(), declarator.name);
        let list = own_parameters(state, &declarator.layers);
        self.declares.declare_function(state, list, &name, of)?;
        Err(Stop::Fault(cursor.refused()?))
    }

    #[tactic(auto, using(cxx_cursor::proofs::Kept::later_refl, cxx_cursor::proofs::Kept::later_trans))]
    fn tested_by(
        &self,
        state: &mut State,
        cursor: &mut Cursor<'_>,
        said: Said,
        from: &Cursor<'_>,
        declarator: Declarator,
        of: TypeId,
    ) -> Result<TreeId, Stop>
        requires { IsDeclared state.old said declarator of }
        ensures { IsRead tree IsTreeKnown state.old state.new cursor.new result (definition.tested_by self.now.room (said_of state.old said) from.now (declarator_of state.old declarator) (meaning state.old) cursor.old) }
    {
        if is_function_type(state.types(), of) {
            return self.tested_function(state, cursor, said, declarator, of);
        }
        self.tested_object(state, cursor, said, from, declarator, of)
    }

    // A declarator that fits, with the type that it declares.
    #[tactic(auto, using(cxx_cursor::proofs::Kept::layers_kept, cxx_cursor::proofs::Kept::layers_later, cxx_cursor::proofs::Kept::trees_kept, cxx_cursor::proofs::Kept::trees_later, cxx_cursor::proofs::Kept::type_kept, cxx_cursor::proofs::Kept::type_later, cxx_cursor::proofs::Kept::later_refl, cxx_cursor::proofs::Kept::later_trans))]
    fn tested_as(
        &self,
        state: &mut State,
        cursor: &mut Cursor<'_>,
        said: Said,
        from: &Cursor<'_>,
        declarator: Declarator,
    ) -> Result<TreeId, Stop>
        requires said { IsSaid state.old said }
        requires declarator { IsDeclarator state.old declarator }
        ensures { IsRead tree IsTreeKnown state.old state.new cursor.new result (definition.tested_by self.now.room (said_of state.old said) from.now (declarator_of state.old declarator) (meaning state.old) cursor.old) }
    {
        match declared(state, declarator.layers.as_slice(), said.of) {
            Ok(of) => self.tested_by(state, cursor, said, from, declarator, of),
            Err(_) => Err(Stop::OutOfMemory),
        }
    }

    #[tactic(auto, using(cxx_cursor::proofs::Kept::type_kept, cxx_cursor::proofs::Kept::type_later, cxx_cursor::proofs::Kept::later_refl, cxx_cursor::proofs::Kept::later_trans), unfolding(crate::specs::Blocks::tested_declarator_at))]
    fn tested_declarator_at(
        &self,
        state: &mut State,
        cursor: &mut Cursor<'_>,
        said: Said,
    ) -> Result<TreeId, Stop>
        requires { IsSaid state.old said }
        ensures { IsRead tree IsTreeKnown state.old state.new cursor.new result (definition.tested_declarator_at self.now.room (said_of state.old said) (meaning state.old) cursor.old) }
    {
        let from = cursor.mark();
        let declarator = self
            .declares
            .declarator(state, cursor, Naming::Required, self.room)?;
        declared_fits(state, cursor, said, &declarator)?;
        self.tested_as(state, cursor, said, &from, declarator)
    }

    #[tactic(auto, using(cxx_cursor::proofs::Kept::named_kept, cxx_cursor::proofs::Kept::named_later, cxx_cursor::proofs::Kept::type_kept, cxx_cursor::proofs::Kept::type_later, cxx_cursor::proofs::Kept::trees_kept, cxx_cursor::proofs::Kept::trees_later, cxx_cursor::proofs::Kept::later_refl, cxx_cursor::proofs::Kept::later_trans), unfolding(crate::specs::Blocks::declared_condition_at))]
    fn declared_condition_at(
        &self,
        state: &mut State,
        cursor: &mut Cursor<'_>,
    ) -> Result<TreeId, Stop>
        ensures { IsRead tree IsTreeKnown state.old state.new cursor.new result (definition.declared_condition_at self.now.room (meaning state.old) cursor.old) }
    {
        let from = cursor.mark();
        let none = no_specifiers_yet(cursor.alloc());
        let specifiers = self
            .declares
            .specifiers(state, cursor, SpecifierPlace::TypeId, none, self.room)?;
        let between = cursor.mark();
        let said = said_by(state, false, &specifiers)?;
        let declarator = self.tested_declarator_at(state, cursor, said)?;
        declared_tree(
            state, said.of, specifiers, declarator, &from, &between, cursor,
        )
    }
}

/// A declaration in a condition (6.4), with room for so many more brackets inside one another.
pub fn read_declared_condition<D: Declares>(
    declares: &D,
    state: &mut State,
    cursor: &mut Cursor<'_>,
    room: u32,
) -> Result<TreeId, Stop>
    ensures { IsRead tree IsTreeKnown state.old state.new cursor.new result (definition.declared_condition_at room (meaning state.old) cursor.old) }
{
    let reader = Reader { declares, room };
    reader.declared_condition_at(state, cursor)
}
