ghost use Rattle.std.specs.Prelude.{◌≡◌, ◌++◌, [], ◌∷◌, None, Some, false, true, IfOk, IfErr};
ghost use Rattle.cxx_model.specs.declared.stop.Stop.TheVariants as stop;
ghost use Rattle.cxx_reading.specs.Declarators.{has_type as has_type_in, no_cv, no_words};
ghost use Rattle.cxx_reading.specs.Reads.{count_ahead, give, repeat};
ghost use Rattle.cxx_reading.specs.Specifiers as definition;
ghost use Rattle.cxx_reading.specs.Tokens.{kind_of_name};
ghost use Rattle.cxx_cursor.specs.Asking.{AnyKnown, itself};
ghost use Rattle.cxx_cursor.specs.Reading.{IsRead};
ghost use Rattle.cxx_cursor.specs.Words.{word_of};
ghost use Rattle.cxx_cursor.specs.Views.{AreSpecifiers, AreTreesHeld, IsSpecifiersTurn, name_of_option, specifiers_of, specifiers_turn, trees_held};
ghost use Rattle.cxx_tree.specs.Arena.{path_at};
ghost use Rattle.cxx_tree.specs.Held.{meaning};

use crate::kinds::Kinds;
use crate::nested::Nested;
use crate::reader::Reader;
use crate::trees::{elaborated_tree, enumeration_tree};
use cxx_cursor::{
    Cursor, NameToken, Specifiers, Turn, TypeWord, base_of_words, is_keyword, is_name, is_punct,
    no_specifiers_yet, place_of, storage_word, type_word, with_word,
};
use cxx_model::{
    Cv, EnumId, FaultText, Kind, LeftOut, Listed, Path, Stop, TokenKind, TreeId, TreeIdList,
    TypeId, keyword, punct,
};
use cxx_reading::{SpecifierPlace, StorageWord, TypeWords};
use cxx_tree::{State, is_plain_path};
use std::alloc::Global;

// Which storage words may stand there (7.1.1).
fn may_store(place: SpecifierPlace, word: StorageWord) -> bool
    ensures { result ≡ definition.may_store place word }
{
    match place {
        SpecifierPlace::Declaration => match word {
            StorageWord::Extern => true,
            StorageWord::Static => true,
            StorageWord::Typedef => true,
            _ => false,
        },
        SpecifierPlace::Block => match word {
            StorageWord::Mutable => false,
            _ => true,
        },
        SpecifierPlace::Member => match word {
            StorageWord::Mutable => true,
            StorageWord::Static => true,
            StorageWord::Typedef => true,
            _ => false,
        },
        SpecifierPlace::Parameter => match word {
            StorageWord::Auto => true,
            StorageWord::Register => true,
            _ => false,
        },
        SpecifierPlace::TypeId => false,
    }
}

#[tactic(auto, unfolding(cxx_reading::specs::Specifiers::storage_step))]
fn storage_step(
    state: &State,
    cursor: &mut Cursor<'_>,
    place: SpecifierPlace,
    word: StorageWord,
    so_far: Specifiers,
) -> Result<Turn<Specifiers, Specifiers>, Stop>
    requires { AreSpecifiers state.now so_far }
    ensures { IsRead specifiers_turn IsSpecifiersTurn state.now state.now cursor.new result (definition.storage_step place word (specifiers_of state.now so_far) (meaning state.now) cursor.old) }
{
    if !may_store(place, word) || so_far.storage.is_some() {
        return Err(Stop::Fault(cursor.refused()?));
    }
    cursor.advance();
    let mut so_far = so_far;
    so_far.storage = Some(word);
    Ok(Turn::More(so_far))
}

fn is_declaration(place: SpecifierPlace) -> bool
    ensures { result ≡ definition.is_declaration place }
{
    match place {
        SpecifierPlace::Declaration => true,
        SpecifierPlace::Block => true,
        SpecifierPlace::Member => true,
        _ => false,
    }
}

// `inline`, once, in a declaration (7.1.2).
#[tactic(auto, unfolding(cxx_reading::specs::Specifiers::inline_step))]
fn inline_step(
    state: &State,
    cursor: &mut Cursor<'_>,
    place: SpecifierPlace,
    so_far: Specifiers,
) -> Result<Turn<Specifiers, Specifiers>, Stop>
    requires { AreSpecifiers state.now so_far }
    ensures { IsRead specifiers_turn IsSpecifiersTurn state.now state.now cursor.new result (definition.inline_step place (specifiers_of state.now so_far) (meaning state.now) cursor.old) }
{
    if !is_declaration(place) || so_far.is_inline {
        return Err(Stop::Fault(cursor.refused()?));
    }
    cursor.advance();
    let mut so_far = so_far;
    so_far.is_inline = true;
    Ok(Turn::More(so_far))
}

// `const`, once (7.1.5.1).
#[tactic(auto, unfolding(cxx_reading::specs::Specifiers::const_step))]
fn const_step(
    state: &State,
    cursor: &mut Cursor<'_>,
    so_far: Specifiers,
) -> Result<Turn<Specifiers, Specifiers>, Stop>
    requires { AreSpecifiers state.now so_far }
    ensures { IsRead specifiers_turn IsSpecifiersTurn state.now state.now cursor.new result (definition.const_step (specifiers_of state.now so_far) (meaning state.now) cursor.old) }
{
    if so_far.cv.is_const {
        return Err(Stop::Fault(cursor.refused()?));
    }
    cursor.advance();
    let mut so_far = so_far;
    so_far.cv = Cv {
        is_const: true,
        is_volatile: so_far.cv.is_volatile,
    };
    Ok(Turn::More(so_far))
}

// `volatile`, once (7.1.5.1).
#[tactic(auto, unfolding(cxx_reading::specs::Specifiers::volatile_step))]
fn volatile_step(
    state: &State,
    cursor: &mut Cursor<'_>,
    so_far: Specifiers,
) -> Result<Turn<Specifiers, Specifiers>, Stop>
    requires { AreSpecifiers state.now so_far }
    ensures { IsRead specifiers_turn IsSpecifiersTurn state.now state.now cursor.new result (definition.volatile_step (specifiers_of state.now so_far) (meaning state.now) cursor.old) }
{
    if so_far.cv.is_volatile {
        return Err(Stop::Fault(cursor.refused()?));
    }
    cursor.advance();
    let mut so_far = so_far;
    so_far.cv = Cv {
        is_const: so_far.cv.is_const,
        is_volatile: true,
    };
    Ok(Turn::More(so_far))
}

// A word of a fundamental type, where the words before it go with it (7.1.5.2).
#[tactic(auto, unfolding(cxx_reading::specs::Specifiers::word_step))]
fn word_step(
    state: &State,
    cursor: &mut Cursor<'_>,
    word: TypeWord,
    so_far: Specifiers,
) -> Result<Turn<Specifiers, Specifiers>, Stop>
    requires { AreSpecifiers state.now so_far }
    ensures { IsRead specifiers_turn IsSpecifiersTurn state.now state.now cursor.new result (definition.word_step (word_of word) (specifiers_of state.now so_far) (meaning state.now) cursor.old) }
{
    if so_far.named.is_some() {
        return Err(Stop::Fault(cursor.refused()?));
    }
    match with_word(word, so_far.words) {
        Some(words) => {
            cursor.advance();
            let mut so_far = so_far;
            so_far.words = words;
            Ok(Turn::More(so_far))
        }
        None => Err(Stop::Fault(cursor.refused()?)),
    }
}

/// Whether a type stands among the specifiers.
pub fn has_type(state: &State, so_far: &Specifiers) -> bool
    ensures { result ≡ has_type_in (specifiers_of state.now so_far.now) }
{
    let _ = state;
    match so_far.named {
        Some(_) => true,
        None => base_of_words(so_far.words).is_some(),
    }
}

/// The word of a class (9).
pub fn class_key(is_union: bool) -> &'static [u8]
    ensures { result.now ≡ definition.class_key is_union }
{
    if is_union { b"union" } else { b"struct" }
}

// No specifier stands before.
fn is_first(state: &State, so_far: &Specifiers) -> bool
    ensures { result ≡ definition.is_first (specifiers_of state.now so_far.now) }
{
    let _ = state;
    so_far.storage.is_none()
        && (!so_far.is_inline && (!so_far.cv.is_const && !so_far.cv.is_volatile))
}

// The key and the name of a class are all of their declaration (3.3.1).
fn is_all(
    state: &State,
    place: SpecifierPlace,
    so_far: &Specifiers,
    path: &Path,
    kind: TokenKind,
) -> bool
    ensures { result ≡ definition.is_all place (specifiers_of state.now so_far.now) (path_at path.now) kind }
{
    is_declaration(place)
        && (is_first(state, so_far) && (is_plain_path(path) && is_punct(punct::SEMICOLON, kind)))
}

// Bases or members (9, 10).
fn begins_members(kind: TokenKind) -> bool
    ensures { result ≡ definition.begins_members kind }
{
    is_punct(punct::LEFT_BRACE, kind) || is_punct(punct::COLON, kind)
}

pub(crate) fn is_of_members(number: u8) -> bool
    ensures { result ≡ definition.is_of_members number }
{
    number == keyword::FRIEND || (number == keyword::VIRTUAL || number == keyword::EXPLICIT)
}

pub(crate) fn begins_class(number: u8) -> bool
    ensures { result ≡ definition.begins_class number }
{
    number == keyword::CLASS
        || (number == keyword::STRUCT || (number == keyword::UNION || number == keyword::TYPENAME))
}

// The head of a class that is defined (9). Among the specifiers of a declaration of a namespace or of a member reading stops
// at its key. In a block the form is left out (9.8), and elsewhere no class is defined (8.3.5, 5.3.3).
#[tactic(auto, using(cxx_cursor::proofs::Kept::later_refl))]
fn head_reached<'a>(
    state: &State,
    cursor: &mut Cursor<'a>,
    place: SpecifierPlace,
    from: &Cursor<'a>,
    so_far: Specifiers,
) -> Result<Turn<Specifiers, Specifiers>, Stop>
    requires { AreSpecifiers state.now so_far }
    ensures { IsRead specifiers_turn IsSpecifiersTurn state.now state.now cursor.new result (definition.head_reached place from.now (specifiers_of state.now so_far) (meaning state.now) cursor.old) }
{
    match place {
        SpecifierPlace::Declaration => {
            *cursor = from.mark();
            Ok(Turn::Done(so_far))
        }
        SpecifierPlace::Member => {
            *cursor = from.mark();
            Ok(Turn::Done(so_far))
        }
        SpecifierPlace::Block => {
            let text = FaultText::LeftOut(LeftOut::LocalClass);
            Err(Stop::Fault(from.faulty(text)?))
        }
        SpecifierPlace::Parameter => Err(Stop::Fault(cursor.refused()?)),
        SpecifierPlace::TypeId => Err(Stop::Fault(cursor.refused()?)),
    }
}

// A word that stands among the specifiers of members alone; those are not read yet (7.1.2, 11.4).
#[tactic(auto, using(cxx_cursor::proofs::Kept::later_refl))]
fn member_word(
    state: &State,
    cursor: &Cursor<'_>,
    place: SpecifierPlace,
) -> Result<Turn<Specifiers, Specifiers>, Stop>
    ensures { IsRead specifiers_turn IsSpecifiersTurn state.now state.now cursor.now result (definition.member_word place (meaning state.now) cursor.now) }
{
    let _ = state;
    match place {
        SpecifierPlace::Member => Err(Stop::Fault(cursor.not_built()?)),
        _ => Err(Stop::Fault(cursor.refused()?)),
    }
}

// Where no type stands among the specifiers of a declaration of a namespace or of a member, a key of a class is that of a
// class that is defined there (9).
fn is_head(place: SpecifierPlace, kind: TokenKind) -> bool
    ensures { result ≡ definition.is_head place kind }
{
    match place {
        SpecifierPlace::Declaration => match kind {
            TokenKind::Keyword(number) => begins_class(number),
            _ => false,
        },
        SpecifierPlace::Member => match kind {
            TokenKind::Keyword(number) => begins_class(number),
            _ => false,
        },
        _ => false,
    }
}

// The specifiers with a type that a name or an enumeration gives.
#[tactic(auto, using(cxx_cursor::proofs::Kept::trees_kept, cxx_cursor::proofs::Kept::trees_later))]
fn with_named(so_far: Specifiers, of: TypeId) -> Specifiers
    ensures { result ≡ record so_far { named = Some of } }
{
    let mut so_far = so_far;
    so_far.named = Some(of);
    so_far
}

// The same, with the tree that names an enumeration.
fn with_tree(so_far: Specifiers, of: TypeId, tree: TreeId) -> Result<Specifiers, Stop>
    ensures is { IfOk result (λ specifiers. specifiers ≡ record so_far { named = Some of; parts = so_far.parts ++ tree ∷ [] }) }
    ensures memory { IfErr result (λ why. why ≡ stop.OutOfMemory) }
{
    let mut so_far = so_far;
    so_far.named = Some(of);
    so_far.parts.push(tree)?;
    Ok(so_far)
}

// The same, with the tree that defines an enumeration or names a class.
fn with_declared(so_far: Specifiers, of: TypeId, tree: TreeId) -> Result<Specifiers, Stop>
    ensures is { IfOk result (λ specifiers. specifiers ≡ record so_far { named = Some of; stands_alone = true; parts = so_far.parts ++ tree ∷ [] }) }
    ensures memory { IfErr result (λ why. why ≡ stop.OutOfMemory) }
{
    let mut so_far = so_far;
    so_far.named = Some(of);
    so_far.stands_alone = true;
    so_far.parts.push(tree)?;
    Ok(so_far)
}

// One name and its list (7.2).
fn begins_named_list(cursor: &Cursor<'_>) -> bool
    ensures { result ≡ definition.begins_named_list cursor.now }
{
    is_name(cursor.kind()) && is_punct(punct::LEFT_BRACE, cursor.kind_behind())
}

impl<K: Kinds, N: Nested> Reader<'_, K, N> {
    // What the name ahead is to a reader (3.4); one that is not whole is met when it is read.
    #[tactic(auto, using(cxx_cursor::proofs::Kept::later_trans, cxx_cursor::proofs::Kept::later_refl), unfolding(cxx_reading::specs::Tokens::kind_of_name))]
    pub(crate) fn kind_of_name(&self, state: &mut State, cursor: &Cursor<'_>) -> Result<Kind, Stop>
        requires ready { K.is_ready self.now.kinds.now }
        ensures { IsRead itself AnyKnown state.old state.new cursor.now result (kind_of_name ((K.asks self.now.kinds.now self.now.room).kind) (meaning state.old) cursor.now) }
    {
        if !cursor.is_whole_name() {
            return Ok(Kind::Value);
        }
        self.kinds.kind(state, cursor, self.room)
    }

    // The name of a type, which is whole.
    #[tactic(auto, using(cxx_cursor::proofs::Kept::trees_kept, cxx_cursor::proofs::Kept::trees_later, cxx_cursor::proofs::Kept::named_kept, cxx_cursor::proofs::Kept::named_later, cxx_cursor::proofs::Kept::later_trans, cxx_cursor::proofs::Kept::later_refl), unfolding(cxx_reading::specs::Specifiers::type_name_step))]
    fn type_name_step(
        &self,
        state: &mut State,
        cursor: &mut Cursor<'_>,
        so_far: Specifiers,
    ) -> Result<Turn<Specifiers, Specifiers>, Stop>
        requires known { AreSpecifiers state.old so_far }
        requires ready { K.is_ready self.now.kinds.now }
        ensures { IsRead specifiers_turn IsSpecifiersTurn state.old state.new cursor.new result (definition.type_name_step (K.asks self.now.kinds.now self.now.room) (specifiers_of state.old so_far) (meaning state.old) cursor.old) }
    {
        let of = self.kinds.type_named(state, cursor, self.room)?;
        cursor.pass_name();
        Ok(Turn::More(with_named(so_far, of)))
    }

    // A name of a type, where no type is there yet; behind one it is the name of the declarator (7.1.5.2).
    #[tactic(auto, using(cxx_cursor::proofs::Kept::trees_kept, cxx_cursor::proofs::Kept::trees_later, cxx_cursor::proofs::Kept::named_kept, cxx_cursor::proofs::Kept::named_later, cxx_cursor::proofs::Kept::later_trans, cxx_cursor::proofs::Kept::later_refl), unfolding(cxx_reading::specs::Specifiers::named_step))]
    fn named_step(
        &self,
        state: &mut State,
        cursor: &mut Cursor<'_>,
        so_far: Specifiers,
    ) -> Result<Turn<Specifiers, Specifiers>, Stop>
        requires known { AreSpecifiers state.old so_far }
        requires ready { K.is_ready self.now.kinds.now }
        ensures { IsRead specifiers_turn IsSpecifiersTurn state.old state.new cursor.new result (definition.named_step (K.asks self.now.kinds.now self.now.room) (specifiers_of state.old so_far) (meaning state.old) cursor.old) }
    {
        if has_type(state, &so_far) {
            return Ok(Turn::Done(so_far));
        }
        match self.kind_of_name(state, cursor)? {
            Kind::OfType => self.type_name_step(state, cursor, so_far),
            _ => Ok(Turn::Done(so_far)),
        }
    }

    // `enum` and a name (7.1.5.3).
    #[tactic(auto, using(cxx_cursor::proofs::Kept::trees_kept, cxx_cursor::proofs::Kept::trees_later, cxx_cursor::proofs::Kept::trees_append, cxx_cursor::proofs::Kept::trees_below_append, cxx_cursor::proofs::Kept::named_kept, cxx_cursor::proofs::Kept::named_later, cxx_cursor::proofs::Kept::type_kept, cxx_cursor::proofs::Kept::type_later, cxx_cursor::proofs::Kept::later_trans, cxx_cursor::proofs::Kept::later_refl), unfolding(cxx_reading::specs::Specifiers::elaborated_step))]
    fn elaborated_step(
        &self,
        state: &mut State,
        cursor: &mut Cursor<'_>,
        from: &Cursor<'_>,
        so_far: Specifiers,
    ) -> Result<Turn<Specifiers, Specifiers>, Stop>
        requires known { AreSpecifiers state.old so_far }
        requires ready { K.is_ready self.now.kinds.now }
        ensures { IsRead specifiers_turn IsSpecifiersTurn state.old state.new cursor.new result (definition.elaborated_step (K.asks self.now.kinds.now self.now.room) from.now (specifiers_of state.old so_far) (meaning state.old) cursor.old) }
    {
        let name = cursor.mark();
        let path = cursor.path_taken(state)?;
        let of = self.kinds.elaborated(state, &name, self.room)?;
        let tree = elaborated_tree(cursor.alloc(), state, b"enum", path, of, from, cursor)?;
        Ok(Turn::More(with_tree(so_far, of, tree)?))
    }

    // The list of an enumeration, with its end (7.2).
    #[tactic(auto, using(cxx_cursor::proofs::Kept::later_trans, cxx_cursor::proofs::Kept::later_refl, cxx_cursor::proofs::Kept::trees_kept, cxx_cursor::proofs::Kept::trees_later), unfolding(cxx_reading::specs::Specifiers::enumeration_body))]
    fn enumeration_body(
        &self,
        state: &mut State,
        cursor: &mut Cursor<'_>,
        number: EnumId,
    ) -> Result<TreeIdList, Stop>
        requires ready { K.is_ready self.now.kinds.now }
        requires open { N.is_open self.now.nested.now }
        ensures { IsRead trees_held AreTreesHeld state.old state.new cursor.new result (definition.enumeration_body (K.asks self.now.kinds.now self.now.room) (N.inner self.now.nested.now) number.0 (meaning state.old) cursor.old) }
    {
        cursor.advance();
        let values = self.nested.enumerators(state, cursor, number)?;
        self.kinds.enumerated(state, number, self.room)?;
        Ok(values)
    }

    // An enumeration is declared before its list is read (7.2).
    #[tactic(auto, using(cxx_cursor::proofs::Kept::trees_kept, cxx_cursor::proofs::Kept::trees_later, cxx_cursor::proofs::Kept::trees_append, cxx_cursor::proofs::Kept::trees_below_append, cxx_cursor::proofs::Kept::named_kept, cxx_cursor::proofs::Kept::named_later, cxx_cursor::proofs::Kept::type_kept, cxx_cursor::proofs::Kept::type_later, cxx_cursor::proofs::Kept::later_trans, cxx_cursor::proofs::Kept::later_refl), unfolding(cxx_reading::specs::Specifiers::defined_step))]
    fn defined_step(
        &self,
        state: &mut State,
        cursor: &mut Cursor<'_>,
        from: &Cursor<'_>,
        name: &Option<NameToken>,
        so_far: Specifiers,
    ) -> Result<Turn<Specifiers, Specifiers>, Stop>
        requires known { AreSpecifiers state.old so_far }
        requires ready { K.is_ready self.now.kinds.now }
        requires open { N.is_open self.now.nested.now }
        ensures { IsRead specifiers_turn IsSpecifiersTurn state.old state.new cursor.new result (definition.defined_step (K.asks self.now.kinds.now self.now.room) (N.inner self.now.nested.now) from.now (name_of_option name.now) (specifiers_of state.old so_far) (meaning state.old) cursor.old) }
    {
        let place = place_of(from.place(), name);
        let both = self.kinds.enumeration(state, name, place, self.room)?;
        let values = self.enumeration_body(state, cursor, both.0)?;
        let tree = enumeration_tree(cursor.alloc(), state, name, both, values, from, cursor)?;
        Ok(Turn::More(with_declared(so_far, both.1, tree)?))
    }

    // No enumeration is defined among parameters and in a type that is named (8.3.5, 5.3.3).
    #[tactic(auto, using(cxx_cursor::proofs::Kept::trees_kept, cxx_cursor::proofs::Kept::trees_later, cxx_cursor::proofs::Kept::trees_append, cxx_cursor::proofs::Kept::trees_below_append, cxx_cursor::proofs::Kept::named_kept, cxx_cursor::proofs::Kept::named_later, cxx_cursor::proofs::Kept::type_kept, cxx_cursor::proofs::Kept::type_later, cxx_cursor::proofs::Kept::later_trans, cxx_cursor::proofs::Kept::later_refl), unfolding(cxx_reading::specs::Specifiers::list_step))]
    fn list_step(
        &self,
        state: &mut State,
        cursor: &mut Cursor<'_>,
        place: SpecifierPlace,
        from: &Cursor<'_>,
        name: &Option<NameToken>,
        so_far: Specifiers,
    ) -> Result<Turn<Specifiers, Specifiers>, Stop>
        requires known { AreSpecifiers state.old so_far }
        requires ready { K.is_ready self.now.kinds.now }
        requires open { N.is_open self.now.nested.now }
        ensures { IsRead specifiers_turn IsSpecifiersTurn state.old state.new cursor.new result (definition.list_step (K.asks self.now.kinds.now self.now.room) (N.inner self.now.nested.now) place from.now (name_of_option name.now) (specifiers_of state.old so_far) (meaning state.old) cursor.old) }
    {
        if !is_declaration(place) {
            return Err(Stop::Fault(cursor.refused()?));
        }
        self.defined_step(state, cursor, from, name, so_far)
    }

    // The name of an enumeration, and its list (7.2).
    #[tactic(auto, using(cxx_cursor::proofs::Kept::trees_kept, cxx_cursor::proofs::Kept::trees_later, cxx_cursor::proofs::Kept::trees_append, cxx_cursor::proofs::Kept::trees_below_append, cxx_cursor::proofs::Kept::named_kept, cxx_cursor::proofs::Kept::named_later, cxx_cursor::proofs::Kept::type_kept, cxx_cursor::proofs::Kept::type_later, cxx_cursor::proofs::Kept::later_trans, cxx_cursor::proofs::Kept::later_refl), unfolding(cxx_reading::specs::Specifiers::named_list_step))]
    fn named_list_step(
        &self,
        state: &mut State,
        cursor: &mut Cursor<'_>,
        place: SpecifierPlace,
        from: &Cursor<'_>,
        so_far: Specifiers,
    ) -> Result<Turn<Specifiers, Specifiers>, Stop>
        requires known { AreSpecifiers state.old so_far }
        requires ready { K.is_ready self.now.kinds.now }
        requires open { N.is_open self.now.nested.now }
        ensures { IsRead specifiers_turn IsSpecifiersTurn state.old state.new cursor.new result (definition.named_list_step (K.asks self.now.kinds.now self.now.room) (N.inner self.now.nested.now) place from.now (specifiers_of state.old so_far) (meaning state.old) cursor.old) }
    {
        let name = Some(cursor.kept()?);
        self.list_step(state, cursor, place, from, &name, so_far)
    }

    // Behind `enum`.
    #[tactic(auto, using(cxx_cursor::proofs::Kept::trees_kept, cxx_cursor::proofs::Kept::trees_later, cxx_cursor::proofs::Kept::trees_append, cxx_cursor::proofs::Kept::trees_below_append, cxx_cursor::proofs::Kept::named_kept, cxx_cursor::proofs::Kept::named_later, cxx_cursor::proofs::Kept::type_kept, cxx_cursor::proofs::Kept::type_later, cxx_cursor::proofs::Kept::later_trans, cxx_cursor::proofs::Kept::later_refl), unfolding(cxx_reading::specs::Specifiers::key_step))]
    fn key_step(
        &self,
        state: &mut State,
        cursor: &mut Cursor<'_>,
        place: SpecifierPlace,
        from: &Cursor<'_>,
        so_far: Specifiers,
    ) -> Result<Turn<Specifiers, Specifiers>, Stop>
        requires known { AreSpecifiers state.old so_far }
        requires ready { K.is_ready self.now.kinds.now }
        requires open { N.is_open self.now.nested.now }
        ensures { IsRead specifiers_turn IsSpecifiersTurn state.old state.new cursor.new result (definition.key_step (K.asks self.now.kinds.now self.now.room) (N.inner self.now.nested.now) place from.now (specifiers_of state.old so_far) (meaning state.old) cursor.old) }
    {
        if is_punct(punct::LEFT_BRACE, cursor.kind()) {
            return self.list_step(state, cursor, place, from, &None, so_far);
        }
        if begins_named_list(cursor) {
            return self.named_list_step(state, cursor, place, from, so_far);
        }
        if cursor.begins_name() {
            return self.elaborated_step(state, cursor, from, so_far);
        }
        Err(Stop::Fault(cursor.refused()?))
    }

    // A type that begins with `enum` (7.1.5.3, 7.2).
    #[tactic(auto, using(cxx_cursor::proofs::Kept::trees_kept, cxx_cursor::proofs::Kept::trees_later, cxx_cursor::proofs::Kept::trees_append, cxx_cursor::proofs::Kept::trees_below_append, cxx_cursor::proofs::Kept::named_kept, cxx_cursor::proofs::Kept::named_later, cxx_cursor::proofs::Kept::type_kept, cxx_cursor::proofs::Kept::type_later, cxx_cursor::proofs::Kept::later_trans, cxx_cursor::proofs::Kept::later_refl), unfolding(cxx_reading::specs::Specifiers::enumeration_step))]
    fn enumeration_step(
        &self,
        state: &mut State,
        cursor: &mut Cursor<'_>,
        place: SpecifierPlace,
        so_far: Specifiers,
    ) -> Result<Turn<Specifiers, Specifiers>, Stop>
        requires known { AreSpecifiers state.old so_far }
        requires ready { K.is_ready self.now.kinds.now }
        requires open { N.is_open self.now.nested.now }
        ensures { IsRead specifiers_turn IsSpecifiersTurn state.old state.new cursor.new result (definition.enumeration_step (K.asks self.now.kinds.now self.now.room) (N.inner self.now.nested.now) place (specifiers_of state.old so_far) (meaning state.old) cursor.old) }
    {
        if has_type(state, &so_far) {
            return Err(Stop::Fault(cursor.refused()?));
        }
        let from = cursor.mark();
        cursor.advance();
        self.key_step(state, cursor, place, &from, so_far)
    }

    // The class that a name means (7.1.5.3).
    #[tactic(auto, using(cxx_cursor::proofs::Kept::trees_kept, cxx_cursor::proofs::Kept::trees_later, cxx_cursor::proofs::Kept::trees_append, cxx_cursor::proofs::Kept::trees_below_append, cxx_cursor::proofs::Kept::named_kept, cxx_cursor::proofs::Kept::named_later, cxx_cursor::proofs::Kept::type_kept, cxx_cursor::proofs::Kept::type_later, cxx_cursor::proofs::Kept::later_trans, cxx_cursor::proofs::Kept::later_refl), unfolding(cxx_reading::specs::Specifiers::class_named_step))]
    fn class_named_step(
        &self,
        state: &mut State,
        cursor: &Cursor<'_>,
        is_union: bool,
        is_all: bool,
        from: &Cursor<'_>,
        path: Path,
        so_far: Specifiers,
    ) -> Result<Turn<Specifiers, Specifiers>, Stop>
        requires known { AreSpecifiers state.old so_far }
        requires ready { K.is_ready self.now.kinds.now }
        ensures { IsRead specifiers_turn IsSpecifiersTurn state.old state.new cursor.now result (definition.class_named_step (K.asks self.now.kinds.now self.now.room) is_union is_all from.now (path_at path) (specifiers_of state.old so_far) (meaning state.old) cursor.now) }
    {
        let of = self
            .kinds
            .class_named(state, &path, is_union, is_all, self.room)?;
        let key = class_key(is_union);
        let tree = elaborated_tree(cursor.alloc(), state, key, path, of, from, cursor)?;
        Ok(Turn::More(with_declared(so_far, of, tree)?))
    }

    // Behind the name of a class.
    #[tactic(auto, using(cxx_cursor::proofs::Kept::trees_kept, cxx_cursor::proofs::Kept::trees_later, cxx_cursor::proofs::Kept::trees_append, cxx_cursor::proofs::Kept::trees_below_append, cxx_cursor::proofs::Kept::named_kept, cxx_cursor::proofs::Kept::named_later, cxx_cursor::proofs::Kept::type_kept, cxx_cursor::proofs::Kept::type_later, cxx_cursor::proofs::Kept::later_trans, cxx_cursor::proofs::Kept::later_refl), unfolding(cxx_reading::specs::Specifiers::class_behind))]
    fn class_behind<'a>(
        &self,
        state: &mut State,
        cursor: &mut Cursor<'a>,
        is_union: bool,
        place: SpecifierPlace,
        from: &Cursor<'a>,
        path: Path,
        so_far: Specifiers,
    ) -> Result<Turn<Specifiers, Specifiers>, Stop>
        requires known { AreSpecifiers state.old so_far }
        requires ready { K.is_ready self.now.kinds.now }
        ensures { IsRead specifiers_turn IsSpecifiersTurn state.old state.new cursor.new result (definition.class_behind (K.asks self.now.kinds.now self.now.room) is_union place from.now (path_at path) (specifiers_of state.old so_far) (meaning state.old) cursor.old) }
    {
        if begins_members(cursor.kind()) {
            return head_reached(state, cursor, place, from, so_far);
        }
        let is_all = is_all(state, place, &so_far, &path, cursor.kind());
        self.class_named_step(state, cursor, is_union, is_all, from, path, so_far)
    }

    // The name of a class.
    #[tactic(auto, using(cxx_cursor::proofs::Kept::trees_kept, cxx_cursor::proofs::Kept::trees_later, cxx_cursor::proofs::Kept::trees_append, cxx_cursor::proofs::Kept::trees_below_append, cxx_cursor::proofs::Kept::named_kept, cxx_cursor::proofs::Kept::named_later, cxx_cursor::proofs::Kept::type_kept, cxx_cursor::proofs::Kept::type_later, cxx_cursor::proofs::Kept::later_trans, cxx_cursor::proofs::Kept::later_refl), unfolding(cxx_reading::specs::Specifiers::class_name_step))]
    fn class_name_step<'a>(
        &self,
        state: &mut State,
        cursor: &mut Cursor<'a>,
        is_union: bool,
        place: SpecifierPlace,
        from: &Cursor<'a>,
        so_far: Specifiers,
    ) -> Result<Turn<Specifiers, Specifiers>, Stop>
        requires known { AreSpecifiers state.old so_far }
        requires ready { K.is_ready self.now.kinds.now }
        ensures { IsRead specifiers_turn IsSpecifiersTurn state.old state.new cursor.new result (definition.class_name_step (K.asks self.now.kinds.now self.now.room) is_union place from.now (specifiers_of state.old so_far) (meaning state.old) cursor.old) }
    {
        let path = cursor.path_taken(state)?;
        self.class_behind(state, cursor, is_union, place, from, path, so_far)
    }

    // Behind `class`, `struct` or `union`.
    #[tactic(auto, using(cxx_cursor::proofs::Kept::trees_kept, cxx_cursor::proofs::Kept::trees_later, cxx_cursor::proofs::Kept::trees_append, cxx_cursor::proofs::Kept::trees_below_append, cxx_cursor::proofs::Kept::named_kept, cxx_cursor::proofs::Kept::named_later, cxx_cursor::proofs::Kept::type_kept, cxx_cursor::proofs::Kept::type_later, cxx_cursor::proofs::Kept::later_trans, cxx_cursor::proofs::Kept::later_refl), unfolding(cxx_reading::specs::Specifiers::class_key_step))]
    fn class_key_step<'a>(
        &self,
        state: &mut State,
        cursor: &mut Cursor<'a>,
        is_union: bool,
        place: SpecifierPlace,
        from: &Cursor<'a>,
        so_far: Specifiers,
    ) -> Result<Turn<Specifiers, Specifiers>, Stop>
        requires known { AreSpecifiers state.old so_far }
        requires ready { K.is_ready self.now.kinds.now }
        ensures { IsRead specifiers_turn IsSpecifiersTurn state.old state.new cursor.new result (definition.class_key_step (K.asks self.now.kinds.now self.now.room) is_union place from.now (specifiers_of state.old so_far) (meaning state.old) cursor.old) }
    {
        if cursor.begins_name() {
            return self.class_name_step(state, cursor, is_union, place, from, so_far);
        }
        if begins_members(cursor.kind()) {
            return head_reached(state, cursor, place, from, so_far);
        }
        Err(Stop::Fault(cursor.refused()?))
    }

    // A class (7.1.5.3, 9.1); `typename` is not read yet (14.6).
    #[tactic(auto, using(cxx_cursor::proofs::Kept::trees_kept, cxx_cursor::proofs::Kept::trees_later, cxx_cursor::proofs::Kept::trees_append, cxx_cursor::proofs::Kept::trees_below_append, cxx_cursor::proofs::Kept::named_kept, cxx_cursor::proofs::Kept::named_later, cxx_cursor::proofs::Kept::type_kept, cxx_cursor::proofs::Kept::type_later, cxx_cursor::proofs::Kept::later_trans, cxx_cursor::proofs::Kept::later_refl), unfolding(cxx_reading::specs::Specifiers::class_step))]
    fn class_step(
        &self,
        state: &mut State,
        cursor: &mut Cursor<'_>,
        place: SpecifierPlace,
        number: u8,
        so_far: Specifiers,
    ) -> Result<Turn<Specifiers, Specifiers>, Stop>
        requires known { AreSpecifiers state.old so_far }
        requires ready { K.is_ready self.now.kinds.now }
        ensures { IsRead specifiers_turn IsSpecifiersTurn state.old state.new cursor.new result (definition.class_step (K.asks self.now.kinds.now self.now.room) place number (specifiers_of state.old so_far) (meaning state.old) cursor.old) }
    {
        if has_type(state, &so_far) {
            return Err(Stop::Fault(cursor.refused()?));
        }
        if number == keyword::TYPENAME {
            return Err(Stop::Fault(cursor.not_built()?));
        }
        let from = cursor.mark();
        cursor.advance();
        self.class_key_step(
            state,
            cursor,
            number == keyword::UNION,
            place,
            &from,
            so_far,
        )
    }

    // A keyword that is no storage word and no word of a type.
    #[tactic(auto, using(cxx_cursor::proofs::Kept::trees_kept, cxx_cursor::proofs::Kept::trees_later, cxx_cursor::proofs::Kept::trees_append, cxx_cursor::proofs::Kept::trees_below_append, cxx_cursor::proofs::Kept::named_kept, cxx_cursor::proofs::Kept::named_later, cxx_cursor::proofs::Kept::type_kept, cxx_cursor::proofs::Kept::type_later, cxx_cursor::proofs::Kept::later_trans, cxx_cursor::proofs::Kept::later_refl), unfolding(cxx_reading::specs::Specifiers::other_step))]
    fn other_step(
        &self,
        state: &mut State,
        cursor: &mut Cursor<'_>,
        place: SpecifierPlace,
        number: u8,
        so_far: Specifiers,
    ) -> Result<Turn<Specifiers, Specifiers>, Stop>
        requires known { AreSpecifiers state.old so_far }
        requires ready { K.is_ready self.now.kinds.now }
        requires open { N.is_open self.now.nested.now }
        ensures { IsRead specifiers_turn IsSpecifiersTurn state.old state.new cursor.new result (definition.other_step (K.asks self.now.kinds.now self.now.room) (N.inner self.now.nested.now) place number (specifiers_of state.old so_far) (meaning state.old) cursor.old) }
    {
        if number == keyword::CONST {
            return const_step(state, cursor, so_far);
        }
        if number == keyword::VOLATILE {
            return volatile_step(state, cursor, so_far);
        }
        if number == keyword::INLINE {
            return inline_step(state, cursor, place, so_far);
        }
        if number == keyword::ENUM {
            return self.enumeration_step(state, cursor, place, so_far);
        }
        if begins_class(number) {
            return self.class_step(state, cursor, place, number, so_far);
        }
        if is_of_members(number) {
            return member_word(state, cursor, place);
        }
        Ok(Turn::Done(so_far))
    }

    // A keyword among the specifiers.
    #[tactic(auto, using(cxx_cursor::proofs::Kept::trees_kept, cxx_cursor::proofs::Kept::trees_later, cxx_cursor::proofs::Kept::trees_append, cxx_cursor::proofs::Kept::trees_below_append, cxx_cursor::proofs::Kept::named_kept, cxx_cursor::proofs::Kept::named_later, cxx_cursor::proofs::Kept::type_kept, cxx_cursor::proofs::Kept::type_later, cxx_cursor::proofs::Kept::later_trans, cxx_cursor::proofs::Kept::later_refl), unfolding(cxx_reading::specs::Specifiers::keyword_step))]
    fn keyword_step(
        &self,
        state: &mut State,
        cursor: &mut Cursor<'_>,
        place: SpecifierPlace,
        number: u8,
        so_far: Specifiers,
    ) -> Result<Turn<Specifiers, Specifiers>, Stop>
        requires known { AreSpecifiers state.old so_far }
        requires ready { K.is_ready self.now.kinds.now }
        requires open { N.is_open self.now.nested.now }
        ensures { IsRead specifiers_turn IsSpecifiersTurn state.old state.new cursor.new result (definition.keyword_step (K.asks self.now.kinds.now self.now.room) (N.inner self.now.nested.now) place number (specifiers_of state.old so_far) (meaning state.old) cursor.old) }
    {
        match storage_word(number) {
            Some(word) => storage_step(state, cursor, place, word, so_far),
            None => match type_word(number) {
                Some(word) => word_step(state, cursor, word, so_far),
                None => self.other_step(state, cursor, place, number, so_far),
            },
        }
    }

    // One specifier.
    #[tactic(auto, using(cxx_cursor::proofs::Kept::trees_kept, cxx_cursor::proofs::Kept::trees_later, cxx_cursor::proofs::Kept::trees_append, cxx_cursor::proofs::Kept::trees_below_append, cxx_cursor::proofs::Kept::named_kept, cxx_cursor::proofs::Kept::named_later, cxx_cursor::proofs::Kept::type_kept, cxx_cursor::proofs::Kept::type_later, cxx_cursor::proofs::Kept::later_trans, cxx_cursor::proofs::Kept::later_refl), unfolding(cxx_reading::specs::Specifiers::specifier_step))]
    fn specifier_step(
        &self,
        state: &mut State,
        cursor: &mut Cursor<'_>,
        place: SpecifierPlace,
        so_far: Specifiers,
    ) -> Result<Turn<Specifiers, Specifiers>, Stop>
        requires known { AreSpecifiers state.old so_far }
        requires ready { K.is_ready self.now.kinds.now }
        requires open { N.is_open self.now.nested.now }
        ensures { IsRead specifiers_turn IsSpecifiersTurn state.old state.new cursor.new result (definition.specifier_step (K.asks self.now.kinds.now self.now.room) (N.inner self.now.nested.now) place (specifiers_of state.old so_far) (meaning state.old) cursor.old) }
    {
        match cursor.kind() {
            TokenKind::Keyword(number) => self.keyword_step(state, cursor, place, number, so_far),
            TokenKind::Name => self.named_step(state, cursor, so_far),
            TokenKind::Punct(number) => {
                if number == punct::SCOPE {
                    self.named_step(state, cursor, so_far)
                } else {
                    Ok(Turn::Done(so_far))
                }
            }
            _ => Ok(Turn::Done(so_far)),
        }
    }

    // All specifiers (7.1), behind those that were read.
    #[tactic(auto, using(cxx_cursor::proofs::Loops::turn, cxx_cursor::proofs::Loops::no_turn, cxx_cursor::proofs::Kept::later_trans, cxx_cursor::proofs::Kept::later_refl))]
    fn specifiers_run(
        &self,
        state: &mut State,
        cursor: &mut Cursor<'_>,
        place: SpecifierPlace,
        so_far: Specifiers,
    ) -> Result<Specifiers, Stop>
        requires known { AreSpecifiers state.old so_far }
        requires ready { K.is_ready self.now.kinds.now }
        requires open { N.is_open self.now.nested.now }
        ensures { IsRead specifiers_of AreSpecifiers state.old state.new cursor.new result (repeat (definition.specifier_step (K.asks self.now.kinds.now self.now.room) (N.inner self.now.nested.now) place) give (count_ahead cursor.old) (specifiers_of state.old so_far) (meaning state.old) cursor.old) }
    {
        let mut so_far = so_far;
        for _turn in 0..cursor.count() {
            match self.specifier_step(state, cursor, place, so_far)? {
                Turn::More(next) => so_far = next,
                Turn::Done(all) => return Ok(all),
            }
        }
        Ok(so_far)
    }

    /// All specifiers, with a type among them, or with the head of a class behind them that is one (7.1, 7.1.5). Some may have
    /// been read.
    #[tactic(auto, using(cxx_cursor::proofs::Kept::later_trans, cxx_cursor::proofs::Kept::later_refl), unfolding(cxx_reading::specs::Specifiers::specifiers_from, cxx_reading::specs::Specifiers::typed))]
    pub fn specifiers_from(
        &self,
        state: &mut State,
        cursor: &mut Cursor<'_>,
        place: SpecifierPlace,
        so_far: Specifiers,
    ) -> Result<Specifiers, Stop>
        requires known { AreSpecifiers state.old so_far }
        requires ready { K.is_ready self.now.kinds.now }
        requires open { N.is_open self.now.nested.now }
        ensures { IsRead specifiers_of AreSpecifiers state.old state.new cursor.new result (definition.specifiers_from (K.asks self.now.kinds.now self.now.room) (N.inner self.now.nested.now) place (specifiers_of state.old so_far) (meaning state.old) cursor.old) }
    {
        let specifiers = self.specifiers_run(state, cursor, place, so_far)?;
        if has_type(state, &specifiers) || is_head(place, cursor.kind()) {
            return Ok(specifiers);
        }
        if is_declaration(place) && is_keyword(keyword::OPERATOR, cursor.kind()) {
            return Err(Stop::Fault(cursor.not_built()?));
        }
        Err(Stop::Fault(cursor.refused()?))
    }

    /// The same, where none was read.
    pub fn specifiers_at(
        &self,
        state: &mut State,
        cursor: &mut Cursor<'_>,
        place: SpecifierPlace,
    ) -> Result<Specifiers, Stop>
        requires ready { K.is_ready self.now.kinds.now }
        requires open { N.is_open self.now.nested.now }
        ensures { IsRead specifiers_of AreSpecifiers state.old state.new cursor.new result (definition.specifiers_at (K.asks self.now.kinds.now self.now.room) (N.inner self.now.nested.now) place (meaning state.old) cursor.old) }
    {
        let alloc = cursor.alloc();
        self.specifiers_from(state, cursor, place, no_specifiers_yet(alloc))
    }
}
