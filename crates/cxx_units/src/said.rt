//! What the specifiers of a declaration say of each declarator (clause 7).

ghost use Rattle.std.specs.Prelude.{◌≡◌, ◌<◌, length};
ghost use Rattle.cxx_model.specs.Types.Trees.{fundamental, with_cv as with_cv_words};
ghost use Rattle.cxx_reading.specs.Declarators as declarators;
ghost use Rattle.cxx_reading.specs.Units as definition;
ghost use Rattle.cxx_cursor.specs.Views.{AreSpecifiers, specifiers_of};
ghost use Rattle.cxx_tree.specs.Held.{type_of};
ghost use Rattle.cxx_units.specs.Made.{GrowsType, GrowsTypeOption};
ghost use Rattle.cxx_units.specs.Said.{GrowsSaid};

use cxx_cursor::{Specifiers, base_of_words};
use cxx_model::{Base, Cv, Stop, TreeIdList, TypeId};
use cxx_reading::{StorageWord, TypeWords};
use cxx_syntax::specified;
use cxx_tree::State;

/// What the specifiers say of each declarator.
#[derive(Clone, Copy)]
pub struct Said {
    pub of: TypeId,
    pub is_typedef: bool,
    pub is_extern: bool,
    /// Of a member (7.1.1, 9.4).
    pub is_mutable: bool,
    pub is_static: bool,
}

/// The trees of declarators that were read, and whether the next is the first.
#[derive(Drop)]
pub struct Listed {
    pub trees: TreeIdList,
    pub is_first: bool,
}

pub(crate) fn is_typedef_word(word: Option<StorageWord>) -> bool
    ensures { result ≡ definition.is_typedef_word word }
{
    match word {
        Some(StorageWord::Typedef) => true,
        _ => false,
    }
}

pub(crate) fn is_extern_word(word: Option<StorageWord>) -> bool
    ensures { result ≡ definition.is_extern_word word }
{
    match word {
        Some(StorageWord::Extern) => true,
        _ => false,
    }
}

pub(crate) fn is_mutable_word(word: Option<StorageWord>) -> bool
    ensures { result ≡ definition.is_mutable_word word }
{
    match word {
        Some(StorageWord::Mutable) => true,
        _ => false,
    }
}

pub(crate) fn is_static_word(word: Option<StorageWord>) -> bool
    ensures { result ≡ definition.is_static_word word }
{
    match word {
        Some(StorageWord::Static) => true,
        _ => false,
    }
}

/// A storage word as it is spelled (7.1.1).
pub(crate) fn storage_text(word: Option<StorageWord>) -> &'static [u8]
    ensures { result.now ≡ definition.storage_text word }
{
    match word {
        None => b"",
        Some(StorageWord::Auto) => b"auto",
        Some(StorageWord::Extern) => b"extern",
        Some(StorageWord::Mutable) => b"mutable",
        Some(StorageWord::Register) => b"register",
        Some(StorageWord::Static) => b"static",
        Some(StorageWord::Typedef) => b"typedef",
    }
}

#[tactic(auto, using(cxx_cursor::proofs::Kept::later_refl))]
fn plain(state: &mut State, of: Base) -> Result<TypeId, Stop>
    ensures { GrowsType state.old state.new result (fundamental of) }
{
    match state.plain(of) {
        Ok(number) => Ok(number),
        Err(_) => Err(Stop::OutOfMemory),
    }
}

fn with_cv(state: &mut State, of: TypeId, cv: Cv) -> Result<TypeId, Stop>
    requires { of.0 < length (state.old).types }
    ensures { GrowsType state.old state.new result (with_cv_words cv (type_of state.old of)) }
{
    match state.with_cv(of, cv) {
        Ok(number) => Ok(number),
        Err(_) => Err(Stop::OutOfMemory),
    }
}

// The type that words name (Table 7).
#[tactic(auto, using(cxx_cursor::proofs::Kept::later_refl))]
fn type_of_words(state: &mut State, words: TypeWords) -> Result<Option<TypeId>, Stop>
    ensures { GrowsTypeOption state.old state.new result (declarators.of_base (declarators.base_of_words words)) }
{
    match base_of_words(words) {
        None => Ok(None),
        Some(of) => Ok(Some(plain(state, of)?)),
    }
}

// The type without its cv words.
#[tactic(auto, using(cxx_cursor::proofs::Kept::later_refl))]
fn bare_type(state: &mut State, specifiers: &Specifiers) -> Result<Option<TypeId>, Stop>
    requires { AreSpecifiers state.old specifiers.now }
    ensures { GrowsTypeOption state.old state.new result (declarators.bare_type (specifiers_of state.old specifiers.now)) }
{
    match specifiers.named {
        Some(of) => Ok(Some(of)),
        None => type_of_words(state, specifiers.words),
    }
}

/// The type that the specifiers name (7.1.5).
#[tactic(auto, using(cxx_cursor::proofs::Kept::later_refl, cxx_cursor::proofs::Kept::later_trans))]
pub(crate) fn type_of_specifiers(
    state: &mut State,
    specifiers: &Specifiers,
) -> Result<Option<TypeId>, Stop>
    requires { AreSpecifiers state.old specifiers.now }
    ensures { GrowsTypeOption state.old state.new result (declarators.type_of_specifiers (specifiers_of state.old specifiers.now)) }
{
    match bare_type(state, specifiers)? {
        None => Ok(None),
        Some(of) => Ok(Some(with_cv(state, of, specifiers.cv)?)),
    }
}

/// What the specifiers say; a linkage without braces counts as `extern` for its one declaration (7.5).
pub fn said_by(
    state: &mut State,
    counts_as_extern: bool,
    specifiers: &Specifiers,
) -> Result<Said, Stop>
    requires { AreSpecifiers state.old specifiers.now }
    ensures { GrowsSaid state.old state.new result (definition.said_by counts_as_extern (specifiers_of state.old specifiers.now)) }
{
    match specified(state, specifiers) {
        Ok(of) => Ok(Said {
            of,
            is_typedef: is_typedef_word(specifiers.storage),
            is_extern: counts_as_extern || is_extern_word(specifiers.storage),
            is_mutable: is_mutable_word(specifiers.storage),
            is_static: is_static_word(specifiers.storage),
        }),
        Err(_) => Err(Stop::OutOfMemory),
    }
}
