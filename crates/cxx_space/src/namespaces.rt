//! Definitions of namespaces (7.3.1).

ghost use Rattle.cxx_language.specs.Spaces as definition;
ghost use Rattle.cxx_language.specs.Units as units;
ghost use Rattle.cxx_reading.specs.Spaces as spaces;
ghost use Rattle.cxx_space.specs.Parts.{behind_begin};
ghost use Rattle.cxx_cursor.specs.Asking.{IsTreeKnown};
ghost use Rattle.cxx_cursor.specs.Reading.{IsRead};
ghost use Rattle.cxx_cursor.specs.Views.{lexeme_at};
ghost use Rattle.cxx_tree.specs.Held.{meaning, tree};

use crate::space::{Defines, Space};
use cxx_cursor::{Cursor, Spelled, is_name, is_punct};
use cxx_language::alias_or_not;
use cxx_model::{Place, Stop, TreeId, punct};
use cxx_tree::State;
use cxx_units::trees::part_tree;

/// The number of the production.
const NAMESPACE_DEFINITION: u8 = 4;

impl<D: Defines> Space<'_, D> {
    // From the `{` on, where the namespace has begun.
    #[cycle(declaration)]
    #[tactic(auto, using(cxx_cursor::proofs::Kept::trees_kept, cxx_cursor::proofs::Kept::trees_later, cxx_cursor::proofs::Kept::later_refl, cxx_cursor::proofs::Kept::later_trans))]
    fn behind_begin(
        &self,
        state: &mut State,
        cursor: &mut Cursor<'_>,
        from: &Cursor<'_>,
    ) -> Result<TreeId, Stop>
        ensures { IsRead tree IsTreeKnown state.old state.new cursor.new result (behind_begin (units.linkage_opened self.now.room) from.now (meaning state.old) cursor.old) }
    {
        cursor.advance();
        let inside = self.linkage_opened(state, cursor)?;
        self.declares.close_space(state)?;
        part_tree(state, NAMESPACE_DEFINITION, inside, from, cursor)
    }

    #[cycle(declaration)]
    #[tactic(auto, using(cxx_cursor::proofs::Kept::later_refl, cxx_cursor::proofs::Kept::later_trans), unfolding(cxx_language::specs::Spaces::space_opened))]
    fn named_opened(
        &self,
        state: &mut State,
        cursor: &mut Cursor<'_>,
        from: &Cursor<'_>,
        name: Spelled<'_>,
    ) -> Result<TreeId, Stop>
        ensures { IsRead tree IsTreeKnown state.old state.new cursor.new result (definition.space_opened (spaces.open_space (lexeme_at name.entry)) (units.linkage_opened self.now.room) from.now (meaning state.old) cursor.old) }
    {
        self.declares.open_space(state, name)?;
        self.behind_begin(state, cursor, from)
    }

    #[cycle(declaration)]
    #[tactic(auto, using(cxx_cursor::proofs::Kept::later_refl, cxx_cursor::proofs::Kept::later_trans), unfolding(cxx_language::specs::Spaces::space_opened))]
    fn unnamed_opened(
        &self,
        state: &mut State,
        cursor: &mut Cursor<'_>,
        from: &Cursor<'_>,
        place: Place,
    ) -> Result<TreeId, Stop>
        ensures { IsRead tree IsTreeKnown state.old state.new cursor.new result (definition.space_opened (spaces.open_unnamed place) (units.linkage_opened self.now.room) from.now (meaning state.old) cursor.old) }
    {
        self.declares.open_unnamed(state, place)?;
        self.behind_begin(state, cursor, from)
    }

    // Behind its name.
    #[cycle(declaration)]
    fn space_or_alias(
        &self,
        state: &mut State,
        cursor: &mut Cursor<'_>,
        from: &Cursor<'_>,
        name: Spelled<'_>,
    ) -> Result<TreeId, Stop>
        ensures { IsRead tree IsTreeKnown state.old state.new cursor.new result (definition.space_or_alias (units.linkage_opened self.now.room) from.now (lexeme_at name.entry) (meaning state.old) cursor.old) }
    {
        if is_punct(punct::LEFT_BRACE, cursor.kind()) {
            return self.named_opened(state, cursor, from, name);
        }
        alias_or_not(self.declares, state, cursor, from, name)
    }

    // Behind the word `namespace`.
    #[cycle(declaration)]
    #[tactic(auto, using(cxx_cursor::proofs::Kept::later_refl), unfolding(cxx_language::specs::Spaces::behind_namespace))]
    fn behind_namespace(
        &self,
        state: &mut State,
        cursor: &mut Cursor<'_>,
        from: &Cursor<'_>,
    ) -> Result<TreeId, Stop>
        ensures { IsRead tree IsTreeKnown state.old state.new cursor.new result (definition.behind_namespace (units.linkage_opened self.now.room) from.now (meaning state.old) cursor.old) }
    {
        if is_punct(punct::LEFT_BRACE, cursor.kind()) {
            return self.unnamed_opened(state, cursor, from, from.place());
        }
        if is_name(cursor.kind()) {
            let name = cursor.token();
            return self.space_or_alias(state, cursor, from, name);
        }
        Err(Stop::Fault(cursor.refused()?))
    }

    /// A definition of a namespace or another name of one (7.3.1, 7.3.2), from the word `namespace` on.
    #[cycle(declaration)]
    #[tactic(auto, unfolding(cxx_language::specs::Spaces::namespace_at))]
    pub(crate) fn namespace_at(
        &self,
        state: &mut State,
        cursor: &mut Cursor<'_>,
    ) -> Result<TreeId, Stop>
        ensures { IsRead tree IsTreeKnown state.old state.new cursor.new result (definition.namespace_at (units.linkage_opened self.now.room) (meaning state.old) cursor.old) }
    {
        let from = cursor.mark();
        cursor.advance();
        self.behind_namespace(state, cursor, &from)
    }
}
