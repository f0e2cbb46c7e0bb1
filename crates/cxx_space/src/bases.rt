//! The bases of a class (clause 10).

ghost use Rattle.std.specs.Prelude.{◌≡◌, ◌++◌, ◌∷◌, [], length, suc, IfSome, ◌^◌, ◌≤◌, IfNone};
ghost use Rattle.cxx_declare.specs.Based.{base_of};
ghost use Rattle.cxx_language.specs.Classes as definition;
ghost use Rattle.cxx_space.specs.Bases.{AreBasesTurn, bases_turn, list_of};
ghost use Rattle.cxx_cursor.specs.Asking.{AnyKnown, IsTreeKnown, itself};
ghost use Rattle.cxx_cursor.specs.Making.{GrowsTree};
ghost use Rattle.cxx_cursor.specs.Reading.{IsRead};
ghost use Rattle.cxx_cursor.specs.Views.{AreTreesHeld, trees_held};
ghost use Rattle.cxx_tree.specs.Arena.{path_at};
ghost use Rattle.cxx_tree.specs.Held.{meaning, tree};

use crate::classes::{access_by, is_access_word};
use crate::space::{Defines, Space};
use cxx_cursor::{Cursor, Turn, is_keyword, is_punct, last_place, node_from, push};
use cxx_declare::BaseOf;
use cxx_model::{
    Access, ClassId, FaultText, LeftOut, Listed, Path, ScopeId, Stop, TreeId, TreeIdList, keyword,
    punct,
};
use cxx_tree::State;
use cxx_units::trees::with_tree;

/// The number of the production.
const BASE_SPECIFIER: u8 = 55;

/// Where the bases of a class are declared.
#[derive(Clone, Copy)]
pub(crate) struct BaseList {
    pub scope: ScopeId,
    pub class: ClassId,
    /// The access of those that no word stands before (11.2).
    pub access: Access,
}

// ---- the access

// A virtual base is left out (10.1).
#[tactic(auto, using(cxx_cursor::proofs::Kept::later_refl), unfolding(cxx_language::specs::Classes::no_virtual))]
fn no_virtual(state: &State, cursor: &Cursor<'_>, label: Access) -> Result<Access, Stop>
    ensures { IsRead itself AnyKnown state.now state.now cursor.now result (definition.no_virtual label (meaning state.now) cursor.now) }
{
    let _ = state;
    if is_keyword(keyword::VIRTUAL, cursor.kind()) {
        let form = FaultText::LeftOut(LeftOut::VirtualBase);
        return Err(Stop::Fault(cursor.faulty(form)?));
    }
    Ok(label)
}

#[tactic(auto, using(cxx_cursor::proofs::Kept::later_refl))]
fn access_at(state: &State, cursor: &mut Cursor<'_>, label: Access) -> Result<Access, Stop>
    ensures { IsRead itself AnyKnown state.now state.now cursor.new result (definition.access_at label (meaning state.now) cursor.old) }
{
    let _ = state;
    if is_access_word(cursor.kind()) {
        let said = access_by(cursor.kind());
        cursor.advance();
        return Ok(said);
    }
    Ok(label)
}

// The access before the name of a base (11.2).
#[tactic(auto, using(cxx_cursor::proofs::Kept::later_refl, cxx_cursor::proofs::Kept::later_trans), unfolding(cxx_language::specs::Classes::base_access))]
fn base_access(state: &State, cursor: &mut Cursor<'_>, otherwise: Access) -> Result<Access, Stop>
    ensures { IsRead itself AnyKnown state.now state.now cursor.new result (definition.base_access otherwise (meaning state.now) cursor.old) }
{
    let before = no_virtual(state, cursor, otherwise)?;
    let label = access_at(state, cursor, before)?;
    no_virtual(state, cursor, label)
}

// ---- one base

fn base_tree(
    state: &mut State,
    path: Path,
    from: &Cursor<'_>,
    to: &Cursor<'_>,
) -> Result<TreeId, Stop>
    ensures { GrowsTree state.old state.new result (definition.base_tree (path_at path) from.now to.now) }
{
    let alloc = from.alloc();
    let mut node = node_from(
        BASE_SPECIFIER,
        Listed::new(alloc),
        from,
        to,
        Listed::new(alloc),
    );
    node.place = last_place(path.parts.as_slice());
    node.path = Some(path);
    push(state, node)
}

// The position behind some bases, where there is a number for it.
fn position_behind(count: usize) -> Option<u32>
    ensures is { IfSome result (λ position. position ≡ suc count) }
    ensures none { IfNone result (2 ^ 32 ≤ suc count) }
{
    let count = u32::try_from(count).ok()?;
    count.checked_add(1)
}

// Where the base behind some others is declared.
fn one_of(of: BaseList, count: usize, label: Access) -> Option<BaseOf>
    ensures is { IfSome result (λ one. base_of one ≡ record { scope = of.scope.0; class = of.class.0; position = suc count; access = label }) }
    ensures none { IfNone result (2 ^ 32 ≤ suc count) }
{
    let position = position_behind(count)?;
    Some(BaseOf {
        scope: of.scope,
        class: of.class,
        position,
        access: label,
    })
}

// Another base, or the members.
#[tactic(auto, using(cxx_cursor::proofs::Kept::trees_append, cxx_cursor::proofs::Kept::trees_below_append, cxx_cursor::proofs::Kept::later_refl), unfolding(cxx_language::specs::Classes::base_ended))]
fn base_ended(
    state: &State,
    cursor: &mut Cursor<'_>,
    so_far: TreeIdList,
    number: TreeId,
) -> Result<Turn<TreeIdList, TreeIdList>, Stop>
    requires so_far { AreTreesHeld state.now so_far }
    requires number { IsTreeKnown state.now number }
    ensures { IsRead bases_turn AreBasesTurn state.now state.now cursor.new result (definition.base_ended (trees_held state.now so_far) (tree state.now number) (meaning state.now) cursor.old) }
{
    let _ = state;
    if is_punct(punct::COMMA, cursor.kind()) {
        cursor.advance();
        return Ok(Turn::More(with_tree(so_far, number)?));
    }
    if is_punct(punct::LEFT_BRACE, cursor.kind()) {
        return Ok(Turn::Done(with_tree(so_far, number)?));
    }
    Err(Stop::Fault(cursor.refused()?))
}

impl<D: Defines> Space<'_, D> {
    // The name of a base.
    #[tactic(auto, using(cxx_cursor::proofs::Kept::later_refl, cxx_cursor::proofs::Kept::later_trans), unfolding(cxx_language::specs::Classes::base_taken))]
    fn base_taken(
        &self,
        state: &mut State,
        cursor: &mut Cursor<'_>,
        one: BaseOf,
        from: &Cursor<'_>,
    ) -> Result<TreeId, Stop>
        ensures { IsRead tree IsTreeKnown state.old state.new cursor.new result (definition.base_taken (base_of one) from.now (meaning state.old) cursor.old) }
    {
        let path = cursor.path_taken(state)?;
        self.declares.declare_base(state, one, &path)?;
        base_tree(state, path, from, cursor)
    }

    #[tactic(auto, using(cxx_cursor::proofs::Kept::later_refl))]
    fn base_name_at(
        &self,
        state: &mut State,
        cursor: &mut Cursor<'_>,
        one: BaseOf,
        from: &Cursor<'_>,
    ) -> Result<TreeId, Stop>
        ensures { IsRead tree IsTreeKnown state.old state.new cursor.new result (definition.base_name_at (base_of one) from.now (meaning state.old) cursor.old) }
    {
        if !cursor.begins_name() {
            return Err(Stop::Fault(cursor.refused()?));
        }
        self.base_taken(state, cursor, one, from)
    }

    #[tactic(auto, using(crate::proofs::Based::count_held, cxx_cursor::proofs::Kept::later_refl, cxx_cursor::proofs::Kept::later_trans), unfolding(cxx_language::specs::Classes::base_at))]
    fn base_at(
        &self,
        state: &mut State,
        cursor: &mut Cursor<'_>,
        of: BaseList,
        so_far: &TreeIdList,
    ) -> Result<TreeId, Stop>
        ensures { IsRead tree IsTreeKnown state.old state.new cursor.new result (definition.base_at (list_of of) (trees_held state.old so_far.now) (meaning state.old) cursor.old) }
    {
        let from = cursor.mark();
        let label = base_access(state, cursor, of.access)?;
        match one_of(of, so_far.len(), label) {
            Some(one) => self.base_name_at(state, cursor, one, &from),
            None => Err(Stop::OutOfMemory),
        }
    }

    #[tactic(auto, using(cxx_cursor::proofs::Kept::trees_kept, cxx_cursor::proofs::Kept::trees_later, cxx_cursor::proofs::Kept::later_refl, cxx_cursor::proofs::Kept::later_trans), unfolding(cxx_language::specs::Classes::base_step))]
    fn base_step(
        &self,
        state: &mut State,
        cursor: &mut Cursor<'_>,
        of: BaseList,
        so_far: TreeIdList,
    ) -> Result<Turn<TreeIdList, TreeIdList>, Stop>
        requires { AreTreesHeld state.old so_far }
        ensures { IsRead bases_turn AreBasesTurn state.old state.new cursor.new result (definition.base_step (list_of of) (trees_held state.old so_far) (meaning state.old) cursor.old) }
    {
        let number = self.base_at(state, cursor, of, &so_far)?;
        base_ended(state, cursor, so_far, number)
    }

    // The bases behind the `:`, up to the `{`.
    #[tactic(auto, using(cxx_cursor::proofs::Loops::turn, cxx_cursor::proofs::Loops::no_turn, cxx_cursor::proofs::Kept::later_refl, cxx_cursor::proofs::Kept::later_trans), unfolding(cxx_language::specs::Classes::base_list))]
    fn base_list(
        &self,
        state: &mut State,
        cursor: &mut Cursor<'_>,
        of: BaseList,
    ) -> Result<TreeIdList, Stop>
        ensures { IsRead trees_held AreTreesHeld state.old state.new cursor.new result (definition.base_list (list_of of) (meaning state.old) cursor.old) }
    {
        let mut so_far = Listed::new(cursor.alloc());
        for _turn in 0..cursor.count() {
            match self.base_step(state, cursor, of, so_far)? {
                Turn::More(next) => so_far = next,
                Turn::Done(all) => return Ok(all),
            }
        }
        Ok(so_far)
    }

    // From the `:` on: names of bases are looked up where the class is declared.
    #[tactic(auto, using(cxx_cursor::proofs::Kept::trees_kept, cxx_cursor::proofs::Kept::trees_later, cxx_cursor::proofs::Kept::later_refl, cxx_cursor::proofs::Kept::later_trans), unfolding(cxx_language::specs::Classes::bases_at, cxx_tree::specs::Held::meaning))]
    fn bases_at(
        &self,
        state: &mut State,
        cursor: &mut Cursor<'_>,
        outside: ScopeId,
        class: ClassId,
        access: Access,
    ) -> Result<TreeIdList, Stop>
        ensures { IsRead trees_held AreTreesHeld state.old state.new cursor.new result (definition.bases_at outside.0 class.0 access (meaning state.old) cursor.old) }
    {
        let scope = state.scope();
        self.declares.stand_in(state, outside)?;
        cursor.advance();
        let of = BaseList {
            scope,
            class,
            access,
        };
        let bases = self.base_list(state, cursor, of)?;
        self.declares.stand_in(state, scope)?;
        Ok(bases)
    }

    /// The bases of a class, where it has some, up to the `{` of its members.
    #[tactic(auto, using(cxx_cursor::proofs::Kept::later_refl))]
    pub(crate) fn bases_or_none(
        &self,
        state: &mut State,
        cursor: &mut Cursor<'_>,
        outside: ScopeId,
        class: ClassId,
        access: Access,
    ) -> Result<TreeIdList, Stop>
        ensures { IsRead trees_held AreTreesHeld state.old state.new cursor.new result (definition.bases_or_none outside.0 class.0 access (meaning state.old) cursor.old) }
    {
        if !is_punct(punct::COLON, cursor.kind()) {
            return Ok(Listed::new(cursor.alloc()));
        }
        self.bases_at(state, cursor, outside, class, access)
    }
}
