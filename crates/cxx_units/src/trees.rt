//! The trees of declarations.

ghost use Rattle.std.specs.Prelude.{◌≡◌, ◌<◌, ◌++◌, ◌∷◌, [], if◌then◌else◌, length, IfOk, codes};
ghost use Rattle.cxx_model.specs.Facts.Declarations.{type_of_option};
ghost use Rattle.cxx_model.specs.Facts.Fitted.{IsTypeNumberBelow};
ghost use Rattle.cxx_model.specs.Stops.{Faulty, fault};
ghost use Rattle.cxx_reading.specs.Labels.{label_from};
ghost use Rattle.cxx_reading.specs.Productions as production;
ghost use Rattle.cxx_reading.specs.Trees.{tree_of};
ghost use Rattle.cxx_reading.specs.Units as definition;
ghost use Rattle.cxx_cursor.specs.Making.{GrowsTree};
ghost use Rattle.cxx_cursor.specs.Views.{AreSpecifiers, AreTreesHeld, name_at, name_of_option, specifiers_of, trees_held};
ghost use Rattle.cxx_tree.specs.Held.{tree, trees, type_of};

use crate::said::{storage_text, type_of_specifiers};
use cxx_cursor::{Cursor, NameToken, Specifiers, node_from, path_to, push};
use cxx_model::{
    FactId, Fault, FaultText, Listed, Place, Stop, Text, TokenKind, TreeId, TreeIdList, TypeId,
};
use cxx_tree::State;
use std::alloc::{AllocError, Global};

/// The numbers of the productions.
mod production {
    pub const EMPTY_DECLARATION: u8 = 2;

    pub const LINKAGE: u8 = 3;

    pub const SIMPLE_DECLARATION: u8 = 8;

    pub const DECLARATOR: u8 = 20;

    pub const SPECIFIERS: u8 = 53;
}

/// A fault that rests on nothing but its place.
pub fn faulty(alloc: Global, place: Place, text: FaultText) -> Result<Box<Fault>, AllocError>
    ensures { IfOk result (λ at. Faulty at.value ≡ fault place text) }
{
    Ok(Box::new(
        alloc,
        Fault {
            place,
            text,
            evidence: Listed::new(alloc),
        },
    )?)
}

/// The name of a declarator that has one.
pub fn token_or(alloc: Global, name: Option<NameToken>) -> NameToken
    ensures { name_at result ≡ definition.token_or (name_of_option name) }
{
    match name {
        None => NameToken {
            kind: TokenKind::End,
            place: Place { line: 0, column: 0 },
            spelling: Listed::new(alloc),
        },
        Some(name) => name,
    }
}

/// A list of one tree.
pub fn one_tree(alloc: Global, number: TreeId) -> Result<TreeIdList, AllocError>
    ensures { IfOk result (λ all. all ≡ number ∷ []) }
{
    let mut all = Listed::new(alloc);
    all.push(number)?;
    Ok(all)
}

/// One tree more.
pub fn with_tree(trees: TreeIdList, number: TreeId) -> Result<TreeIdList, AllocError>
    ensures { IfOk result (λ all. all ≡ trees ++ number ∷ []) }
{
    let mut all = trees;
    all.push(number)?;
    Ok(all)
}

/// `;` alone (clause 7).
pub fn empty_tree(state: &mut State, from: &Cursor<'_>) -> Result<TreeId, Stop>
    ensures { GrowsTree state.old state.new result (definition.empty_tree from.now) }
{
    let mut behind = from.mark();
    behind.advance();
    let node = node_from(
        production::EMPTY_DECLARATION,
        Listed::new(from.alloc()),
        from,
        &behind,
        Listed::new(from.alloc()),
    );
    push(state, node)
}

/// What holds parts and says nothing else, by the number of its production.
pub fn part_tree(
    state: &mut State,
    number: u8,
    inside: TreeIdList,
    from: &Cursor<'_>,
    to: &Cursor<'_>,
) -> Result<TreeId, Stop>
    requires { AreTreesHeld state.old inside }
    ensures { GrowsTree state.old state.new result (tree_of (label_from number [] from.now to.now) (trees_held state.old inside)) }
{
    let node = node_from(number, Listed::new(from.alloc()), from, to, inside);
    push(state, node)
}

/// A specification of linkage with its declarations (7.5).
pub fn linkage_tree(
    state: &mut State,
    inside: TreeIdList,
    from: &Cursor<'_>,
    to: &Cursor<'_>,
) -> Result<TreeId, Stop>
    requires { AreTreesHeld state.old inside }
    ensures { GrowsTree state.old state.new result (definition.linkage_tree (trees_held state.old inside) from.now to.now) }
{
    part_tree(state, production::LINKAGE, inside, from, to)
}

/// A declarator of a declaration (8), spelled `extern` where its declaration counts as if it had that word.
pub fn declarator_tree(
    state: &mut State,
    is_extern: bool,
    name: &NameToken,
    of: TypeId,
    number: FactId,
    parts: TreeIdList,
    from: &Cursor<'_>,
    to: &Cursor<'_>,
) -> Result<TreeId, Stop>
    requires known { of.0 < length (state.old).types }
    requires parts { AreTreesHeld state.old parts }
    ensures { GrowsTree state.old state.new result (definition.declarator_tree is_extern (name_at name.now) (type_of state.old of) number.0 (trees_held state.old parts) from.now to.now) }
{
    let path = path_to(from.alloc(), name)?;
    let spelling = Text::from_slice(from.alloc(), extern_text(is_extern))?;
    let mut node = node_from(production::DECLARATOR, spelling, from, to, parts);
    node.place = name.place;
    node.path = Some(path);
    node.of = Some(of);
    node.target = Some(number);
    push(state, node)
}

fn extern_text(is_extern: bool) -> &'static [u8]
    ensures { result.now ≡ (if is_extern then codes "extern" else []) }
{
    if is_extern { b"extern" } else { b"" }
}

// The tree of specifiers that name a type.
fn specifiers_node(
    state: &mut State,
    specifiers: Specifiers,
    of: Option<TypeId>,
    from: &Cursor<'_>,
    to: &Cursor<'_>,
) -> Result<TreeId, Stop>
    requires known { IsTypeNumberBelow (length (state.old).types) of }
    requires parts { AreTreesHeld state.old specifiers.parts }
    ensures { GrowsTree state.old state.new result (tree_of (record (label_from production.specifiers (definition.storage_text specifiers.storage) from.now to.now) { of = type_of_option (state.old).types of }) (trees_held state.old specifiers.parts)) }
{
    let spelling = Text::from_slice(from.alloc(), storage_text(specifiers.storage))?;
    let mut node = node_from(production::SPECIFIERS, spelling, from, to, specifiers.parts);
    node.of = of;
    push(state, node)
}

/// The specifiers of a declaration (7.1), spelled by their storage word.
#[tactic(auto, using(cxx_cursor::proofs::Kept::trees_kept, cxx_cursor::proofs::Kept::trees_later, cxx_cursor::proofs::Kept::later_trans, cxx_cursor::proofs::Kept::later_refl))]
pub fn specifiers_tree(
    state: &mut State,
    specifiers: Specifiers,
    from: &Cursor<'_>,
    to: &Cursor<'_>,
) -> Result<TreeId, Stop>
    requires { AreSpecifiers state.old specifiers }
    ensures { GrowsTree state.old state.new result (definition.specifiers_tree (specifiers_of state.old specifiers) from.now to.now) }
{
    let of = type_of_specifiers(state, &specifiers)?;
    specifiers_node(state, specifiers, of, from, to)
}

/// Specifiers with what they declare (clause 7), by the number of the production.
pub fn listed_tree(
    state: &mut State,
    number: u8,
    specifiers: TreeId,
    declarators: TreeIdList,
    from: &Cursor<'_>,
    to: &Cursor<'_>,
) -> Result<TreeId, Stop>
    requires specifiers { specifiers.0 < length (trees state.old) }
    requires declarators { AreTreesHeld state.old declarators }
    ensures { GrowsTree state.old state.new result (tree_of (label_from number [] from.now to.now) (tree state.old specifiers ∷ trees_held state.old declarators)) }
{
    let mut all = declarators;
    all.push_front(specifiers)?;
    let node = node_from(number, Listed::new(from.alloc()), from, to, all);
    push(state, node)
}

/// The tree of a declaration, with that of its specifiers.
#[tactic(auto, using(cxx_cursor::proofs::Kept::trees_kept, cxx_cursor::proofs::Kept::trees_later, cxx_cursor::proofs::Kept::later_refl, cxx_cursor::proofs::Kept::later_trans))]
pub fn declaration_tree(
    state: &mut State,
    specifiers: Specifiers,
    declarators: TreeIdList,
    from: &Cursor<'_>,
    between: &Cursor<'_>,
    to: &Cursor<'_>,
) -> Result<TreeId, Stop>
    requires specifiers { AreSpecifiers state.old specifiers }
    requires declarators { AreTreesHeld state.old declarators }
    ensures { GrowsTree state.old state.new result (definition.simple_tree (definition.specifiers_tree (specifiers_of state.old specifiers) from.now between.now) (trees_held state.old declarators) from.now to.now) }
{
    let first = specifiers_tree(state, specifiers, from, between)?;
    listed_tree(
        state,
        production::SIMPLE_DECLARATION,
        first,
        declarators,
        from,
        to,
    )
}
