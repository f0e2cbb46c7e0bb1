//! Declarations (clause 7), with those in the braces of a linkage (7.5) or a namespace.

ghost use Rattle.std.specs.Prelude.{◌≡◌, ◌<◌, ◌∷◌, [], if◌then◌else◌, length, nat_eq, true};
ghost use Rattle.cxx_language.specs.Units as units;
ghost use Rattle.cxx_reading.specs.Productions as of_reading;
ghost use Rattle.cxx_reading.specs.Units as definition;
ghost use Rattle.cxx_space.specs.Parts.{linkages_at};
ghost use Rattle.cxx_statements.specs.Productions as statement;
ghost use Rattle.cxx_cursor.specs.Asking.{IsTreeKnown};
ghost use Rattle.cxx_cursor.specs.Making.{GrowsTree};
ghost use Rattle.cxx_cursor.specs.Reading.{IsRead};
ghost use Rattle.cxx_cursor.specs.Views.{AreSpecifiers, AreTreesHeld, IsTreesTurn, specifiers_of, trees_held, trees_turn};
ghost use Rattle.cxx_tree.specs.Held.{meaning, tree, trees};

use crate::space::{Defines, Space};
use cxx_cursor::{Cursor, Specifiers, Turn, is_keyword, is_punct};
use cxx_language::using_at;
use cxx_model::{LimitKind, Listed, Stop, TreeId, TreeIdList, keyword, punct};
use cxx_tree::State;
use cxx_units::ends::{another_ahead, no_declaration};
use cxx_units::linkage::linkages_passed;
use cxx_units::trees::{
    empty_tree, linkage_tree, listed_tree, one_tree, specifiers_tree, with_tree,
};

/// The numbers of the productions.
mod production {
    pub const SIMPLE_DECLARATION: u8 = 8;

    pub const FUNCTION_DEFINITION: u8 = 15;

    pub const BLOCK: u8 = 23;
}

// A declaration with a body is the definition of a function (8.4).
fn has_body(state: &State, declarators: &[TreeId]) -> bool
    requires { AreTreesHeld state.now declarators.now }
    ensures { result ≡ units.has_body (trees_held state.now declarators.now) }
{
    for one in declarators {
        if is_body(state, *one) {
            return true;
        }
    }
    false
}

fn is_body(state: &State, number: TreeId) -> bool
    requires { number.0 < length (trees state.now) }
    ensures { result ≡ nat_eq (tree state.now number).label.production statement.block }
{
    state.node(number).production == production::BLOCK
}

fn production_of(state: &State, declarators: &[TreeId]) -> u8
    requires { AreTreesHeld state.now declarators.now }
    ensures { result ≡ (if units.has_body (trees_held state.now declarators.now) then of_reading.function_definition else of_reading.simple_declaration) }
{
    if has_body(state, declarators) {
        production::FUNCTION_DEFINITION
    } else {
        production::SIMPLE_DECLARATION
    }
}

// The tree of a declaration, with that of its specifiers.
#[tactic(auto, using(cxx_cursor::proofs::Kept::trees_kept, cxx_cursor::proofs::Kept::trees_later, cxx_cursor::proofs::Kept::later_refl, cxx_cursor::proofs::Kept::later_trans))]
fn declaration_tree(
    state: &mut State,
    specifiers: Specifiers,
    declarators: TreeIdList,
    from: &Cursor<'_>,
    between: &Cursor<'_>,
    to: &Cursor<'_>,
) -> Result<TreeId, Stop>
    requires specifiers { AreSpecifiers state.old specifiers }
    requires declarators { AreTreesHeld state.old declarators }
    ensures { GrowsTree state.old state.new result (units.declaration_tree (definition.specifiers_tree (specifiers_of state.old specifiers) from.now between.now) (trees_held state.old declarators) from.now to.now) }
{
    let number = production_of(state, declarators.as_slice());
    let first = specifiers_tree(state, specifiers, from, between)?;
    listed_tree(state, number, first, declarators, from, to)
}

impl<D: Defines> Space<'_, D> {
    // A declaration of declarators (clause 7).
    #[tactic(auto, using(cxx_cursor::proofs::Kept::named_kept, cxx_cursor::proofs::Kept::named_later, cxx_cursor::proofs::Kept::trees_kept, cxx_cursor::proofs::Kept::trees_later, cxx_cursor::proofs::Kept::later_refl, cxx_cursor::proofs::Kept::later_trans), unfolding(cxx_language::specs::Units::simple_declaration_at))]
    fn simple_declaration_at(
        &self,
        state: &mut State,
        cursor: &mut Cursor<'_>,
        counts_as_extern: bool,
    ) -> Result<TreeId, Stop>
        ensures { IsRead tree IsTreeKnown state.old state.new cursor.new result (units.simple_declaration_at self.now.room counts_as_extern (meaning state.old) cursor.old) }
    {
        let from = cursor.mark();
        let specifiers = self.declaration_specifiers(state, cursor)?;
        let between = cursor.mark();
        let declarators = self.declarators_of(state, cursor, counts_as_extern, &specifiers)?;
        declaration_tree(state, specifiers, declarators, &from, &between, cursor)
    }

    // A declaration without a linkage of its own.
    #[tactic(auto, using(cxx_cursor::proofs::Kept::later_refl, cxx_cursor::proofs::Kept::later_trans), unfolding(cxx_language::specs::Units::plain_declaration_at, cxx_reading::specs::Tokens::no_declaration))]
    fn plain_declaration_at(
        &self,
        state: &mut State,
        cursor: &mut Cursor<'_>,
        counts_as_extern: bool,
    ) -> Result<TreeId, Stop>
        ensures { IsRead tree IsTreeKnown state.old state.new cursor.new result (units.plain_declaration_at self.now.room counts_as_extern (meaning state.old) cursor.old) }
    {
        if is_punct(punct::SEMICOLON, cursor.kind()) {
            let number = empty_tree(state, cursor)?;
            cursor.advance();
            return Ok(number);
        }
        if another_ahead(cursor.kind()) {
            return Err(Stop::Fault(no_declaration(cursor)?));
        }
        self.simple_declaration_at(state, cursor, counts_as_extern)
    }

    // The one declaration behind a linkage without braces, which counts as if it had `extern` (7.5).
    #[cycle(declaration)]
    #[tactic(auto, unfolding(cxx_language::specs::Units::linked_one))]
    fn linked_one(&self, state: &mut State, cursor: &mut Cursor<'_>) -> Result<TreeId, Stop>
        ensures { IsRead tree IsTreeKnown state.old state.new cursor.new result (units.linked_one self.now.room (units.linkage_opened self.now.room) (meaning state.old) cursor.old) }
    {
        if is_keyword(keyword::NAMESPACE, cursor.kind()) {
            return self.namespace_at(state, cursor);
        }
        if is_keyword(keyword::USING, cursor.kind()) {
            return using_at(self.declares, state, cursor);
        }
        self.plain_declaration_at(state, cursor, true)
    }

    // What a linkage is of: the declarations in its braces, or one.
    #[cycle(declaration)]
    #[tactic(auto, using(cxx_cursor::proofs::Kept::later_refl, cxx_cursor::proofs::Kept::later_trans), unfolding(cxx_reading::specs::Units::linkage_list))]
    fn linked_by(&self, state: &mut State, cursor: &mut Cursor<'_>) -> Result<TreeIdList, Stop>
        ensures { IsRead trees_held AreTreesHeld state.old state.new cursor.new result (units.linked_by self.now.room (units.linkage_opened self.now.room) (meaning state.old) cursor.old) }
    {
        if is_punct(punct::LEFT_BRACE, cursor.kind()) {
            cursor.advance();
            return self.linkage_opened(state, cursor);
        }
        let number = self.linked_one(state, cursor)?;
        Ok(one_tree(cursor.alloc(), number)?)
    }

    // Behind specifications of linkage, where there are any.
    #[cycle(declaration)]
    #[tactic(auto, using(cxx_cursor::proofs::Kept::later_refl, cxx_cursor::proofs::Kept::later_trans))]
    fn linkage_by(
        &self,
        state: &mut State,
        cursor: &mut Cursor<'_>,
        from: &Cursor<'_>,
        any: bool,
    ) -> Result<TreeId, Stop>
        ensures { IsRead tree IsTreeKnown state.old state.new cursor.new result (units.linkage_by self.now.room (units.linkage_opened self.now.room) from.now any (meaning state.old) cursor.old) }
    {
        if !any {
            return self.plain_declaration_at(state, cursor, false);
        }
        let inside = self.linked_by(state, cursor)?;
        linkage_tree(state, inside, from, cursor)
    }

    // A declaration with specifications of linkage, or without.
    #[cycle(declaration)]
    #[tactic(auto, using(cxx_cursor::proofs::Kept::later_refl, cxx_cursor::proofs::Kept::later_trans))]
    fn linkages_at(&self, state: &mut State, cursor: &mut Cursor<'_>) -> Result<TreeId, Stop>
        ensures { IsRead tree IsTreeKnown state.old state.new cursor.new result (linkages_at self.now.room (units.linkage_opened self.now.room) (meaning state.old) cursor.old) }
    {
        let from = cursor.mark();
        let any = linkages_passed(state, cursor)?;
        self.linkage_by(state, cursor, &from, any)
    }

    /// A declaration (clause 7), with room for so many more braces of linkages and namespaces.
    #[cycle(declaration)]
    #[tactic(auto, unfolding(cxx_language::specs::Units::declaration_at, cxx_language::specs::Units::declaration_by))]
    pub(crate) fn declaration_at(
        &self,
        state: &mut State,
        cursor: &mut Cursor<'_>,
    ) -> Result<TreeId, Stop>
        ensures { IsRead tree IsTreeKnown state.old state.new cursor.new result (units.declaration_at self.now.room (meaning state.old) cursor.old) }
    {
        if is_keyword(keyword::NAMESPACE, cursor.kind()) {
            return self.namespace_at(state, cursor);
        }
        if is_keyword(keyword::USING, cursor.kind()) {
            return using_at(self.declares, state, cursor);
        }
        self.linkages_at(state, cursor)
    }

    // A declaration in braces, or their end.
    #[cycle(declaration)]
    #[tactic(auto, using(cxx_cursor::proofs::Kept::trees_kept, cxx_cursor::proofs::Kept::trees_later, cxx_cursor::proofs::Kept::trees_append, cxx_cursor::proofs::Kept::trees_below_append, cxx_cursor::proofs::Kept::later_refl, cxx_cursor::proofs::Kept::later_trans), unfolding(cxx_reading::specs::Units::inside_step))]
    fn inside_step(
        &self,
        state: &mut State,
        cursor: &mut Cursor<'_>,
        so_far: TreeIdList,
    ) -> Result<Turn<TreeIdList, TreeIdList>, Stop>
        requires { AreTreesHeld state.old so_far }
        ensures { IsRead trees_turn IsTreesTurn state.old state.new cursor.new result (definition.inside_step (units.declaration_at self.now.room) (trees_held state.old so_far) (meaning state.old) cursor.old) }
    {
        if is_punct(punct::RIGHT_BRACE, cursor.kind()) {
            cursor.advance();
            return Ok(Turn::Done(so_far));
        }
        let number = self.declaration_at(state, cursor)?;
        Ok(Turn::More(with_tree(so_far, number)?))
    }

    // The declarations behind a brace that was taken, with its end.
    #[cycle(declaration)]
    #[tactic(auto, using(cxx_cursor::proofs::Loops::turn, cxx_cursor::proofs::Loops::no_turn, crate::proofs::Opened::opened_zero, crate::proofs::Opened::opened_more, cxx_cursor::proofs::Kept::later_refl, cxx_cursor::proofs::Kept::later_trans))]
    pub(crate) fn linkage_opened(
        &self,
        state: &mut State,
        cursor: &mut Cursor<'_>,
    ) -> Result<TreeIdList, Stop>
        ensures { IsRead trees_held AreTreesHeld state.old state.new cursor.new result (units.linkage_opened self.now.room (meaning state.old) cursor.old) }
    {
        if self.room == 0 {
            return Err(Stop::Limit(LimitKind::Nesting));
        }
        let inside = Space {
            declares: self.declares,
            room: self.room - 1,
        };
        let mut so_far = Listed::new(cursor.alloc());
        for _turn in 0..cursor.count() {
            match inside.inside_step(state, cursor, so_far)? {
                Turn::More(next) => so_far = next,
                Turn::Done(all) => return Ok(all),
            }
        }
        Ok(so_far)
    }
}
