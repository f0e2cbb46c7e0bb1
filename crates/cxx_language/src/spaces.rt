//! Other names of namespaces (7.3.2), using-declarations (7.3.3) and using-directives (7.3.4).

ghost use Rattle.std.specs.Prelude.{◌≡◌, []};
ghost use Rattle.cxx_language.specs.Spaces as definition;
ghost use Rattle.cxx_language.specs.Views.{IsSpaceKnown, space_of};
ghost use Rattle.cxx_cursor.specs.Asking.{AnyKnown, IsTreeKnown, itself};
ghost use Rattle.cxx_cursor.specs.Making.{GrowsTree};
ghost use Rattle.cxx_cursor.specs.Reading.{IsRead};
ghost use Rattle.cxx_cursor.specs.Views.{lexeme_at};
ghost use Rattle.cxx_tree.specs.Arena.{path_at};
ghost use Rattle.cxx_tree.specs.Held.{meaning, tree};

use crate::declares::Declares;
use cxx_cursor::{Cursor, Spelled, is_keyword, is_name, is_punct};
use cxx_model::{Access, Listed, Path, Place, ScopeId, Stop, TreeId, keyword, punct};
use cxx_paths::last_place;
use cxx_tree::State;
use cxx_units::trees::part_tree;

/// The numbers of the productions.
mod production {
    pub const NAMESPACE_ALIAS: u8 = 5;

    pub const USING_DIRECTIVE: u8 = 6;

    pub const USING_DECLARATION: u8 = 7;
}

/// A namespace that is named, and the place of its name.
#[derive(Clone, Copy)]
pub(crate) struct NamedSpace {
    pub place: Place,
    pub inner: ScopeId,
}

// A name of a namespace (3.4.6).
#[tactic(auto, using(cxx_cursor::proofs::Kept::later_refl, cxx_cursor::proofs::Kept::later_trans), unfolding(crate::specs::Spaces::space_name_at))]
fn space_name_at<D: Declares>(
    declares: &D,
    state: &mut State,
    cursor: &mut Cursor<'_>,
) -> Result<NamedSpace, Stop>
    ensures { IsRead space_of IsSpaceKnown state.old state.new cursor.new result (definition.space_name_at (meaning state.old) cursor.old) }
{
    if !cursor.begins_name() {
        return Err(Stop::Fault(cursor.refused()?));
    }
    let path = cursor.path_taken(state)?;
    let inner = declares.space_here(state, &path)?;
    Ok(NamedSpace {
        place: last_place(path.parts.as_slice()),
        inner,
    })
}

// The tree of what holds no parts.
fn bare_tree(
    state: &mut State,
    number: u8,
    from: &Cursor<'_>,
    to: &Cursor<'_>,
) -> Result<TreeId, Stop>
    ensures { GrowsTree state.old state.new result (definition.part_tree number [] from.now to.now) }
{
    part_tree(state, number, Listed::new(from.alloc()), from, to)
}

// Another name of a namespace, from the `=` on.
#[tactic(auto, using(cxx_cursor::proofs::Kept::later_refl, cxx_cursor::proofs::Kept::later_trans), unfolding(crate::specs::Spaces::alias_at))]
fn alias_at<D: Declares>(
    declares: &D,
    state: &mut State,
    cursor: &mut Cursor<'_>,
    from: &Cursor<'_>,
    name: Spelled<'_>,
) -> Result<TreeId, Stop>
    ensures { IsRead tree IsTreeKnown state.old state.new cursor.new result (definition.alias_at from.now (lexeme_at name.entry) (meaning state.old) cursor.old) }
{
    cursor.advance();
    let space = space_name_at(declares, state, cursor)?;
    declares.declare_alias(state, name, space.inner)?;
    cursor.punct(punct::SEMICOLON)?;
    bare_tree(state, production::NAMESPACE_ALIAS, from, cursor)
}

/// Behind `namespace` and a name: another name of a namespace, from its `=` on (7.3.2).
#[tactic(auto, using(cxx_cursor::proofs::Kept::later_refl))]
pub fn alias_or_not<D: Declares>(
    declares: &D,
    state: &mut State,
    cursor: &mut Cursor<'_>,
    from: &Cursor<'_>,
    name: Spelled<'_>,
) -> Result<TreeId, Stop>
    ensures { IsRead tree IsTreeKnown state.old state.new cursor.new result (definition.alias_or_not from.now (lexeme_at name.entry) (meaning state.old) cursor.old) }
{
    if is_punct(punct::EQUALS, cursor.kind()) {
        return alias_at(declares, state, cursor, from, name);
    }
    Err(Stop::Fault(cursor.refused()?))
}

// Behind the word in a block, where no namespace is defined (7.3).
#[tactic(auto, using(cxx_cursor::proofs::Kept::later_refl), unfolding(crate::specs::Spaces::behind_word))]
fn behind_word<D: Declares>(
    declares: &D,
    state: &mut State,
    cursor: &mut Cursor<'_>,
    from: &Cursor<'_>,
) -> Result<TreeId, Stop>
    ensures { IsRead tree IsTreeKnown state.old state.new cursor.new result (definition.behind_word from.now (meaning state.old) cursor.old) }
{
    if is_name(cursor.kind()) {
        let name = cursor.token();
        return alias_or_not(declares, state, cursor, from, name);
    }
    Err(Stop::Fault(cursor.refused()?))
}

/// Another name of a namespace in a block, from the word `namespace` on.
#[tactic(auto, unfolding(crate::specs::Spaces::local_alias_at))]
pub(crate) fn local_alias_at<D: Declares>(
    declares: &D,
    state: &mut State,
    cursor: &mut Cursor<'_>,
) -> Result<TreeId, Stop>
    ensures { IsRead tree IsTreeKnown state.old state.new cursor.new result (definition.local_alias_at (meaning state.old) cursor.old) }
{
    let from = cursor.mark();
    cursor.advance();
    behind_word(declares, state, cursor, &from)
}

// A using-directive, from the word `using` on.
#[tactic(auto, using(cxx_cursor::proofs::Kept::later_refl, cxx_cursor::proofs::Kept::later_trans), unfolding(crate::specs::Spaces::directive_at))]
fn directive_at<D: Declares>(
    declares: &D,
    state: &mut State,
    cursor: &mut Cursor<'_>,
) -> Result<TreeId, Stop>
    ensures { IsRead tree IsTreeKnown state.old state.new cursor.new result (definition.directive_at (meaning state.old) cursor.old) }
{
    let from = cursor.mark();
    cursor.advance();
    cursor.advance();
    let space = space_name_at(declares, state, cursor)?;
    declares.declare_directive(state, space.place, space.inner)?;
    cursor.punct(punct::SEMICOLON)?;
    bare_tree(state, production::USING_DIRECTIVE, &from, cursor)
}

// The name of a using-declaration, which has a qualifier.
#[tactic(auto, using(cxx_cursor::proofs::Kept::later_refl))]
fn qualified_taken(state: &State, cursor: &mut Cursor<'_>) -> Result<Path, Stop>
    ensures { IsRead (λ held. path_at) AnyKnown state.now state.now cursor.new result (definition.qualified_taken (meaning state.now) cursor.old) }
{
    if cursor.is_plain_name() {
        cursor.advance();
        return Err(Stop::Fault(cursor.refused()?));
    }
    cursor.path_taken(state)
}

// The name behind `using`; behind `typename` it is not read yet (14.6).
#[tactic(auto, using(cxx_cursor::proofs::Kept::later_refl), unfolding(crate::specs::Spaces::brought_name_at))]
fn brought_name_at(state: &State, cursor: &mut Cursor<'_>) -> Result<Path, Stop>
    ensures { IsRead (λ held. path_at) AnyKnown state.now state.now cursor.new result (definition.brought_name_at (meaning state.now) cursor.old) }
{
    if cursor.begins_name() {
        return qualified_taken(state, cursor);
    }
    if is_keyword(keyword::TYPENAME, cursor.kind()) {
        return Err(Stop::Fault(cursor.not_built()?));
    }
    Err(Stop::Fault(cursor.refused()?))
}

// A using-declaration, from the word `using` on (7.3.3).
#[tactic(auto, using(cxx_cursor::proofs::Kept::later_refl, cxx_cursor::proofs::Kept::later_trans), unfolding(crate::specs::Spaces::using_declaration_at))]
fn using_declaration_at<D: Declares>(
    declares: &D,
    state: &mut State,
    cursor: &mut Cursor<'_>,
) -> Result<TreeId, Stop>
    ensures { IsRead tree IsTreeKnown state.old state.new cursor.new result (definition.using_declaration_at (meaning state.old) cursor.old) }
{
    let from = cursor.mark();
    cursor.advance();
    let path = brought_name_at(state, cursor)?;
    declares.bring_here(state, &path)?;
    cursor.punct(punct::SEMICOLON)?;
    bare_tree(state, production::USING_DECLARATION, &from, cursor)
}

/// A using-declaration in a class, from the word `using` on (7.3.3). What it brings has an access (11.1).
#[tactic(auto, using(cxx_cursor::proofs::Kept::later_refl, cxx_cursor::proofs::Kept::later_trans), unfolding(crate::specs::Spaces::member_using_at))]
pub fn member_using_at<D: Declares>(
    declares: &D,
    state: &mut State,
    cursor: &mut Cursor<'_>,
    label: Access,
) -> Result<(), Stop>
    ensures { IsRead itself AnyKnown state.old state.new cursor.new result (definition.member_using_at label (meaning state.old) cursor.old) }
{
    cursor.advance();
    let path = brought_name_at(state, cursor)?;
    declares.bring_member(state, label, &path)?;
    cursor.punct(punct::SEMICOLON)?;
    Ok(())
}

/// What begins with the word `using` (7.3.3, 7.3.4).
#[tactic(auto, unfolding(crate::specs::Spaces::using_at))]
pub fn using_at<D: Declares>(
    declares: &D,
    state: &mut State,
    cursor: &mut Cursor<'_>,
) -> Result<TreeId, Stop>
    ensures { IsRead tree IsTreeKnown state.old state.new cursor.new result (definition.using_at (meaning state.old) cursor.old) }
{
    if is_keyword(keyword::NAMESPACE, cursor.kind_behind()) {
        return directive_at(declares, state, cursor);
    }
    using_declaration_at(declares, state, cursor)
}
