//! The declarations of members in the list of a class (9.2).

ghost use Rattle.std.specs.Prelude.{◌≡◌, ◌<◌, length};
ghost use Rattle.cxx_language.specs.Classes as definition;
ghost use Rattle.cxx_language.specs.Later as later;
ghost use Rattle.cxx_language.specs.Synonyms.{bare_synonym};
ghost use Rattle.cxx_reading.specs.Tokens as token;
ghost use Rattle.cxx_reading.specs.Units.{name_in};
ghost use Rattle.cxx_language.specs.Values.{member_value};
ghost use Rattle.cxx_reading.specs.Declarators.{no_cv};
ghost use Rattle.cxx_space.specs.Classes.{IsMemberDeclared, fitting_member, labelled_of, member_ended, member_kept, member_numbered, member_of, members_at};
ghost use Rattle.cxx_space.specs.Views.{IsBodyKnown, IsDeclaredKnown, body_of, declares_of};
ghost use Rattle.cxx_cursor.specs.Asking.{AnyKnown, IsTreeKnown, itself};
ghost use Rattle.cxx_cursor.specs.Reading.{IsRead};
ghost use Rattle.cxx_cursor.specs.Views.{AreSpecifiers, AreTreesHeld, IsDeclarator, declarator_of, name_at, specifiers_of, trees_held};
ghost use Rattle.cxx_tree.specs.Answered.{scope_of_option};
ghost use Rattle.cxx_tree.specs.Held.{meaning, tree, trees, type_of};
ghost use Rattle.cxx_units.specs.Said.{IsListed, IsListedTurn, IsSaid, listed_of, listed_turn, said_of};

use crate::bodies::{Declared, ended_by};
use crate::space::{Defines, Space};
use cxx_cursor::{Cursor, Declarator, NameToken, Specifiers, Turn, is_keyword, is_punct, joined};
use cxx_declare::MemberWords;
use cxx_language::Reader;
use cxx_later::{body_later, defaults_kept};
use cxx_model::{
    Access, Cv, FactId, FaultText, LeftOut, Listed, ScopeId, Stop, TokenKind, TreeId, TreeIdList,
    TypeId, keyword, punct,
};
use cxx_names::is_incomplete;
use cxx_reading::Naming;
use cxx_syntax::{declared, declared_member};
use cxx_tree::State;
use cxx_units::ends::{nothing_declared, own_parameters};
use cxx_units::said::{Listed as ListedTrees, Said, said_by};
use cxx_units::trees::{declaration_tree, declarator_tree, faulty, token_or};
use cxx_units::types::{is_const_type, is_function_type, is_reference, is_unbounded};
use cxx_units::{declared_fits, no_declarators, place_of_name};

/// What stands before a member: the label (11.1), and whether the word `virtual` does (10.3).
#[derive(Clone, Copy)]
pub(crate) struct Labelled {
    pub access: Access,
    pub is_virtual: bool,
}

// Bit-fields are left out (9.6).
#[tactic(auto, using(cxx_cursor::proofs::Kept::later_refl), unfolding(cxx_language::specs::Classes::no_bit_field))]
fn no_bit_field(state: &State, cursor: &Cursor<'_>, declarator: &Declarator) -> Result<(), Stop>
    ensures { IsRead itself AnyKnown state.now state.now cursor.now result (definition.no_bit_field (name_in (declarator_of state.now declarator.now)) (meaning state.now) cursor.now) }
{
    let _ = state;
    if is_punct(punct::COLON, cursor.kind()) {
        let place = place_of_name(&declarator.name);
        let text = FaultText::LeftOut(LeftOut::BitField);
        return Err(Stop::Fault(faulty(cursor.alloc(), place, text)?));
    }
    Ok(())
}

// A member that is not static is of a complete type; that of its own class is none yet (9.2, 9.4.2).
#[tactic(auto, using(cxx_cursor::proofs::Kept::later_refl), unfolding(cxx_language::specs::Classes::whole_member, cxx_tree::specs::Held::meaning))]
fn whole_member(
    state: &State,
    cursor: &Cursor<'_>,
    is_static: bool,
    name: &NameToken,
    of: TypeId,
) -> Result<(), Stop>
    requires { of.0 < length (state.now).types }
    ensures { IsRead itself AnyKnown state.now state.now cursor.now result (definition.whole_member is_static (name_at name.now) (type_of state.now of) (meaning state.now) cursor.now) }
{
    let types = state.types();
    if !is_static && (is_unbounded(types, of) || is_incomplete(state.graph(), types, of)) {
        let fault = faulty(cursor.alloc(), name.place, FaultText::IncompleteClass)?;
        return Err(Stop::Fault(fault));
    }
    Ok(())
}

fn no_words() -> Cv
    ensures { result ≡ no_cv }
{
    Cv {
        is_const: false,
        is_volatile: false,
    }
}

// A static function has no words behind its parameters (9.3.1).
fn words_of(state: &State, said: Said, declarator: &Declarator) -> Cv
    ensures { result ≡ definition.words_of (said_of state.now said) (declarator_of state.now declarator.now) }
{
    let _ = state;
    if said.is_static {
        no_words()
    } else {
        declarator.cv
    }
}

// A constant and a reference are not mutable (7.1.1 p8).
fn is_mutable_member(state: &State, said: Said, of: TypeId) -> bool
    requires { of.0 < length (state.now).types }
    ensures { result ≡ definition.is_mutable_member (said_of state.now said) (type_of state.now of) }
{
    let types = state.types();
    said.is_mutable && !(is_reference(types, of) || is_const_type(types, of))
}

// A function that belongs to an object is virtual where the word stands before it (10.3).
fn is_virtual_member(state: &State, is_virtual: bool, said: Said, of: TypeId) -> bool
    requires { of.0 < length (state.now).types }
    ensures { result ≡ definition.is_virtual_member is_virtual (said_of state.now said) (type_of state.now of) }
{
    is_virtual && (!said.is_static && is_function_type(state.types(), of))
}

// The literals of numbers and characters (2.13.1, 2.13.2).
#[tactic(auto, unfolding(cxx_reading::specs::Tokens::is_number))]
fn is_number(kind: TokenKind) -> bool
    ensures { result ≡ token.is_number kind }
{
    match kind {
        TokenKind::Integer => true,
        TokenKind::Character => true,
        _ => false,
    }
}

// The literal that is spelled `0` (2.13.1).
fn is_zero(cursor: &Cursor<'_>) -> bool
    ensures { result ≡ definition.is_zero cursor.now }
{
    is_number(cursor.kind()) && cursor.spelling() == b"0".as_slice()
}

// Whether `= 0` stands behind a virtual function (10.4 p2).
fn begins_pure(is_virtual: bool, cursor: &Cursor<'_>) -> bool
    ensures { result ≡ definition.begins_pure is_virtual cursor.now }
{
    let mut behind = cursor.mark();
    behind.advance();
    is_virtual && (is_punct(punct::EQUALS, cursor.kind()) && is_zero(&behind))
}

// The word `virtual`, taken where it stands ahead (7.1.2).
fn virtual_or_not(cursor: &mut Cursor<'_>) -> bool
    ensures is { result ≡ definition.begins_virtual cursor.old }
    ensures taken { cursor.new ≡ definition.behind_virtual cursor.old }
{
    let is_virtual = is_keyword(keyword::VIRTUAL, cursor.kind());
    if is_virtual {
        cursor.advance();
    }
    is_virtual
}

// What is said of a member with a type.
fn words_of_member(
    state: &State,
    label: Labelled,
    said: Said,
    of: TypeId,
    is_pure: bool,
) -> MemberWords
    requires { of.0 < length (state.now).types }
    ensures { result ≡ definition.words_of_member (labelled_of label) (said_of state.now said) (type_of state.now of) is_pure }
{
    MemberWords {
        access: label.access,
        is_static: said.is_static,
        is_mutable: is_mutable_member(state, said, of),
        is_virtual: is_virtual_member(state, label.is_virtual, said, of),
        is_pure,
    }
}

// `= 0`, taken.
#[tactic(auto, using(cxx_cursor::proofs::Kept::later_refl), unfolding(cxx_language::specs::Classes::pure_taken))]
fn pure_taken(state: &State, cursor: &mut Cursor<'_>) -> Result<TreeIdList, Stop>
    ensures { IsRead trees_held AreTreesHeld state.now state.now cursor.new result (definition.pure_taken (meaning state.now) cursor.old) }
{
    let _ = state;
    cursor.advance();
    cursor.advance();
    Ok(Listed::new(cursor.alloc()))
}

// A function that is defined has its own list of parameters (8.4).
#[tactic(auto, using(cxx_cursor::proofs::Kept::later_refl, cxx_cursor::proofs::Kept::later_trans))]
fn list_then_body(
    state: &mut State,
    cursor: &mut Cursor<'_>,
    declarator: TreeId,
    list: Option<ScopeId>,
) -> Result<Option<TreeId>, Stop>
    requires { declarator.0 < length (trees state.old) }
    ensures { IsRead body_of IsBodyKnown state.old state.new cursor.new result (later.list_then_body (tree state.old declarator) (scope_of_option list) (meaning state.old) cursor.old) }
{
    match list {
        None => Err(Stop::Fault(cursor.refused()?)),
        Some(list) => Ok(Some(body_later(state, cursor, list, declarator)?)),
    }
}

// It is defined by the first declarator of its declaration.
#[tactic(auto, using(cxx_cursor::proofs::Kept::later_refl))]
fn first_then_body(
    state: &mut State,
    cursor: &mut Cursor<'_>,
    is_first: bool,
    declarator: TreeId,
    list: Option<ScopeId>,
) -> Result<Option<TreeId>, Stop>
    requires { declarator.0 < length (trees state.old) }
    ensures { IsRead body_of IsBodyKnown state.old state.new cursor.new result (later.first_then_body is_first (tree state.old declarator) (scope_of_option list) (meaning state.old) cursor.old) }
{
    if !is_first {
        return Err(Stop::Fault(cursor.refused()?));
    }
    list_then_body(state, cursor, declarator, list)
}

// Behind the declarator of a function in a class a body may stand (9.3); exceptions are left out (15).
#[tactic(auto, using(cxx_cursor::proofs::Kept::later_refl), unfolding(cxx_language::specs::Later::member_body))]
fn member_body(
    state: &mut State,
    cursor: &mut Cursor<'_>,
    is_first: bool,
    of: TypeId,
    declarator: TreeId,
    list: Option<ScopeId>,
) -> Result<Option<TreeId>, Stop>
    requires of { of.0 < length (state.old).types }
    requires declarator { declarator.0 < length (trees state.old) }
    ensures { IsRead body_of IsBodyKnown state.old state.new cursor.new result (later.member_body is_first (type_of state.old of) (tree state.old declarator) (scope_of_option list) (meaning state.old) cursor.old) }
{
    if !is_function_type(state.types(), of) {
        return Ok(None);
    }
    if is_punct(punct::LEFT_BRACE, cursor.kind()) {
        return first_then_body(state, cursor, is_first, declarator, list);
    }
    if is_keyword(keyword::TRY, cursor.kind()) {
        let form = FaultText::LeftOut(LeftOut::Exception);
        return Err(Stop::Fault(cursor.faulty(form)?));
    }
    Ok(None)
}

// One that is pure has no body there (10.4 p2).
#[tactic(auto, using(cxx_cursor::proofs::Kept::later_refl))]
fn body_unless_pure(
    state: &mut State,
    cursor: &mut Cursor<'_>,
    is_pure: bool,
    is_first: bool,
    of: TypeId,
    declarator: TreeId,
    list: Option<ScopeId>,
) -> Result<Option<TreeId>, Stop>
    requires of { of.0 < length (state.old).types }
    requires declarator { declarator.0 < length (trees state.old) }
    ensures { IsRead body_of IsBodyKnown state.old state.new cursor.new result (definition.body_unless_pure is_pure is_first (type_of state.old of) (tree state.old declarator) (scope_of_option list) (meaning state.old) cursor.old) }
{
    if is_pure {
        return Ok(None);
    }
    member_body(state, cursor, is_first, of, declarator, list)
}

/// What stands behind the declarator of a member or a friend, given its tree.
#[tactic(auto, using(cxx_cursor::proofs::Kept::trees_kept, cxx_cursor::proofs::Kept::trees_later, cxx_expr::proofs::Kept::tree_kept, cxx_expr::proofs::Kept::tree_later, cxx_cursor::proofs::Kept::later_refl, cxx_cursor::proofs::Kept::later_trans), unfolding(cxx_language::specs::Classes::declared_behind))]
pub(crate) fn declared_behind(
    state: &mut State,
    cursor: &mut Cursor<'_>,
    is_pure: bool,
    is_first: bool,
    of: TypeId,
    list: Option<ScopeId>,
    defaults: TreeIdList,
    declarator: TreeId,
) -> Result<Declared, Stop>
    requires of { of.0 < length (state.old).types }
    requires defaults { AreTreesHeld state.old defaults }
    requires declarator { declarator.0 < length (trees state.old) }
    ensures { IsRead declares_of IsDeclaredKnown state.old state.new cursor.new result (definition.declared_behind is_pure is_first (type_of state.old of) (scope_of_option list) (trees_held state.old defaults) (tree state.old declarator) (meaning state.old) cursor.old) }
{
    let body = body_unless_pure(state, cursor, is_pure, is_first, of, declarator, list)?;
    Ok(Declared {
        tree: declarator,
        defaults,
        body,
    })
}

// A member whose value was read, if it has one.
#[tactic(auto, using(cxx_cursor::proofs::Kept::trees_kept, cxx_cursor::proofs::Kept::trees_later, cxx_cursor::proofs::Kept::type_kept, cxx_cursor::proofs::Kept::type_later, cxx_cursor::proofs::Kept::later_refl, cxx_cursor::proofs::Kept::later_trans))]
fn member_ended(
    state: &mut State,
    cursor: &mut Cursor<'_>,
    is_pure: bool,
    is_first: bool,
    list: Option<ScopeId>,
    name: &NameToken,
    of: TypeId,
    number: FactId,
    defaults: TreeIdList,
    parts: TreeIdList,
    from: &Cursor<'_>,
) -> Result<Declared, Stop>
    requires of { of.0 < length (state.old).types }
    requires defaults { AreTreesHeld state.old defaults }
    requires parts { AreTreesHeld state.old parts }
    ensures { IsRead declares_of IsDeclaredKnown state.old state.new cursor.new result (member_ended is_pure is_first (scope_of_option list) (name_at name.now) (type_of state.old of) number.0 (trees_held state.old defaults) (trees_held state.old parts) from.now (meaning state.old) cursor.old) }
{
    let tree = declarator_tree(state, false, name, of, number, parts, from, cursor)?;
    declared_behind(state, cursor, is_pure, is_first, of, list, defaults, tree)
}

impl<D: Defines> Space<'_, D> {
    // The value of a member in its class, where one stands there (9.4.2).
    fn member_value(
        &self,
        state: &mut State,
        cursor: &mut Cursor<'_>,
        is_static: bool,
        name: &NameToken,
        of: TypeId,
        number: FactId,
    ) -> Result<TreeIdList, Stop>
        requires { of.0 < length (state.old).types }
        ensures { IsRead trees_held AreTreesHeld state.old state.new cursor.new result (member_value self.now.room is_static (name_at name.now) (type_of state.old of) number.0 (meaning state.old) cursor.old) }
    {
        let reader = Reader {
            declares: self.declares,
            room: self.room,
        };
        reader.member_value(state, cursor, is_static, name, of, number)
    }

    // The same, or `= 0` (10.4).
    fn value_or_pure(
        &self,
        state: &mut State,
        cursor: &mut Cursor<'_>,
        is_pure: bool,
        is_static: bool,
        name: &NameToken,
        of: TypeId,
        number: FactId,
    ) -> Result<TreeIdList, Stop>
        requires { of.0 < length (state.old).types }
        ensures { IsRead trees_held AreTreesHeld state.old state.new cursor.new result (definition.value_or_pure is_pure self.now.room is_static (name_at name.now) (type_of state.old of) number.0 (meaning state.old) cursor.old) }
    {
        if is_pure {
            return pure_taken(state, cursor);
        }
        self.member_value(state, cursor, is_static, name, of, number)
    }

    // A member that is declared, with what is kept of its default arguments.
    #[tactic(auto, using(cxx_cursor::proofs::Kept::trees_kept, cxx_cursor::proofs::Kept::trees_later, cxx_cursor::proofs::Kept::trees_append, cxx_cursor::proofs::Kept::trees_below_append, cxx_cursor::proofs::Kept::type_kept, cxx_cursor::proofs::Kept::type_later, cxx_cursor::proofs::Kept::later_refl, cxx_cursor::proofs::Kept::later_trans))]
    fn member_kept(
        &self,
        state: &mut State,
        cursor: &mut Cursor<'_>,
        words: MemberWords,
        is_first: bool,
        list: Option<ScopeId>,
        name: &NameToken,
        of: TypeId,
        number: FactId,
        defaults: TreeIdList,
        parts: TreeIdList,
        from: &Cursor<'_>,
    ) -> Result<Declared, Stop>
        requires of { of.0 < length (state.old).types }
        requires defaults { AreTreesHeld state.old defaults }
        requires parts { AreTreesHeld state.old parts }
        ensures { IsRead declares_of IsDeclaredKnown state.old state.new cursor.new result (member_kept words.is_pure is_first (scope_of_option list) self.now.room words.is_static (name_at name.now) (type_of state.old of) number.0 (trees_held state.old defaults) (trees_held state.old parts) from.now (meaning state.old) cursor.old) }
    {
        whole_member(state, cursor, words.is_static, name, of)?;
        let value = self.value_or_pure(
            state,
            cursor,
            words.is_pure,
            words.is_static,
            name,
            of,
            number,
        )?;
        let parts = joined(parts, value)?;
        member_ended(
            state,
            cursor,
            words.is_pure,
            is_first,
            list,
            name,
            of,
            number,
            defaults,
            parts,
            from,
        )
    }

    // A member with its number: what was passed over in its declarator is kept for the end of the class (9.2 p2).
    #[tactic(auto, using(cxx_cursor::proofs::Kept::trees_kept, cxx_cursor::proofs::Kept::trees_later, cxx_cursor::proofs::Kept::type_kept, cxx_cursor::proofs::Kept::type_later, cxx_cursor::proofs::Kept::later_refl, cxx_cursor::proofs::Kept::later_trans))]
    fn member_numbered(
        &self,
        state: &mut State,
        cursor: &mut Cursor<'_>,
        words: MemberWords,
        is_first: bool,
        list: Option<ScopeId>,
        name: &NameToken,
        of: TypeId,
        number: FactId,
        parts: TreeIdList,
        from: &Cursor<'_>,
    ) -> Result<Declared, Stop>
        requires of { of.0 < length (state.old).types }
        requires parts { AreTreesHeld state.old parts }
        ensures { IsRead declares_of IsDeclaredKnown state.old state.new cursor.new result (member_numbered self.now.room words is_first (scope_of_option list) (name_at name.now) (type_of state.old of) (trees_held state.old parts) from.now number.0 (meaning state.old) cursor.old) }
    {
        let defaults = defaults_kept(state, cursor, list, Some(number))?;
        self.member_kept(
            state, cursor, words, is_first, list, name, of, number, defaults, parts, from,
        )
    }

    // A member, with what is said of it.
    #[tactic(auto, using(cxx_cursor::proofs::Kept::trees_kept, cxx_cursor::proofs::Kept::trees_later, cxx_cursor::proofs::Kept::type_kept, cxx_cursor::proofs::Kept::type_later, cxx_cursor::proofs::Kept::later_refl, cxx_cursor::proofs::Kept::later_trans))]
    fn member_with(
        &self,
        state: &mut State,
        cursor: &mut Cursor<'_>,
        words: MemberWords,
        is_first: bool,
        list: Option<ScopeId>,
        name: &NameToken,
        of: TypeId,
        parts: TreeIdList,
        from: &Cursor<'_>,
    ) -> Result<Declared, Stop>
        requires of { of.0 < length (state.old).types }
        requires parts { AreTreesHeld state.old parts }
        ensures { IsRead declares_of IsDeclaredKnown state.old state.new cursor.new result (member_of self.now.room words is_first (scope_of_option list) (name_at name.now) (type_of state.old of) (trees_held state.old parts) from.now (meaning state.old) cursor.old) }
    {
        let number = self.declares.declare_member(state, words, list, name, of)?;
        self.member_numbered(
            state, cursor, words, is_first, list, name, of, number, parts, from,
        )
    }

    // A member whose declarator fits, given its type.
    #[tactic(auto, using(cxx_cursor::proofs::Kept::trees_kept, cxx_cursor::proofs::Kept::trees_later, cxx_cursor::proofs::Kept::layers_kept, cxx_cursor::proofs::Kept::type_kept, cxx_cursor::proofs::Kept::type_later, cxx_cursor::proofs::Kept::later_refl, cxx_cursor::proofs::Kept::later_trans))]
    fn member_of(
        &self,
        state: &mut State,
        cursor: &mut Cursor<'_>,
        label: Labelled,
        said: Said,
        is_first: bool,
        declarator: Declarator,
        of: TypeId,
        from: &Cursor<'_>,
    ) -> Result<Declared, Stop>
        requires said { IsSaid state.old said }
        requires declared { IsMemberDeclared state.old said declarator of }
        ensures { IsRead declares_of IsDeclaredKnown state.old state.new cursor.new result (fitting_member self.now.room (labelled_of label) (said_of state.old said) is_first (declarator_of state.old declarator) from.now (meaning state.old) cursor.old) }
    {
        let is_virtual = is_virtual_member(state, label.is_virtual, said, of);
        let is_pure = begins_pure(is_virtual, cursor);
        let words = words_of_member(state, label, said, of, is_pure);
        let list = own_parameters(state, &declarator.layers);
        let name = token_or(cursor.alloc(), declarator.name);
        self.member_with(
            state,
            cursor,
            words,
            is_first,
            list,
            &name,
            of,
            declarator.parts,
            from,
        )
    }

    // The same with the type that the declarator declares.
    #[tactic(auto, using(cxx_cursor::proofs::Kept::layers_kept, cxx_cursor::proofs::Kept::layers_later, cxx_cursor::proofs::Kept::trees_kept, cxx_cursor::proofs::Kept::trees_later, cxx_cursor::proofs::Kept::type_kept, cxx_cursor::proofs::Kept::type_later, cxx_cursor::proofs::Kept::later_refl, cxx_cursor::proofs::Kept::later_trans))]
    fn member_as(
        &self,
        state: &mut State,
        cursor: &mut Cursor<'_>,
        label: Labelled,
        said: Said,
        is_first: bool,
        declarator: Declarator,
        from: &Cursor<'_>,
    ) -> Result<Declared, Stop>
        requires said { IsSaid state.old said }
        requires declarator { IsDeclarator state.old declarator }
        ensures { IsRead declares_of IsDeclaredKnown state.old state.new cursor.new result (fitting_member self.now.room (labelled_of label) (said_of state.old said) is_first (declarator_of state.old declarator) from.now (meaning state.old) cursor.old) }
    {
        let words = words_of(state, said, &declarator);
        match declared_member(state, declarator.layers.as_slice(), words, said.of) {
            Ok(of) => self.member_of(state, cursor, label, said, is_first, declarator, of, from),
            Err(_) => Err(Stop::OutOfMemory),
        }
    }

    // A data member or a function, given its declarator.
    #[tactic(auto, using(cxx_cursor::proofs::Kept::later_refl, cxx_cursor::proofs::Kept::later_trans), unfolding(cxx_language::specs::Classes::data_member))]
    fn data_member(
        &self,
        state: &mut State,
        cursor: &mut Cursor<'_>,
        label: Labelled,
        said: Said,
        is_first: bool,
        declarator: Declarator,
        from: &Cursor<'_>,
    ) -> Result<Declared, Stop>
        requires said { IsSaid state.old said }
        requires declarator { IsDeclarator state.old declarator }
        ensures { IsRead declares_of IsDeclaredKnown state.old state.new cursor.new result (definition.data_member self.now.room (labelled_of label) (said_of state.old said) is_first (declarator_of state.old declarator) from.now (meaning state.old) cursor.old) }
    {
        no_bit_field(state, cursor, &declarator)?;
        declared_fits(state, cursor, said, &declarator)?;
        self.member_as(state, cursor, label, said, is_first, declarator, from)
    }

    // A name of a type that fits, with the type that the declarator declares.
    #[tactic(auto, using(cxx_cursor::proofs::Kept::layers_kept, cxx_cursor::proofs::Kept::layers_later, cxx_cursor::proofs::Kept::trees_kept, cxx_cursor::proofs::Kept::trees_later, cxx_cursor::proofs::Kept::type_kept, cxx_cursor::proofs::Kept::type_later, cxx_cursor::proofs::Kept::later_refl, cxx_cursor::proofs::Kept::later_trans))]
    fn synonym_as(
        &self,
        state: &mut State,
        cursor: &Cursor<'_>,
        said: Said,
        declarator: Declarator,
        from: &Cursor<'_>,
    ) -> Result<TreeId, Stop>
        requires said { IsSaid state.old said }
        requires declarator { IsDeclarator state.old declarator }
        ensures { IsRead tree IsTreeKnown state.old state.new cursor.now result (bare_synonym (said_of state.old said) (declarator_of state.old declarator) from.now (meaning state.old) cursor.now) }
    {
        let reader = Reader {
            declares: self.declares,
            room: self.room,
        };
        match declared(state, declarator.layers.as_slice(), said.of) {
            Ok(of) => reader.bare_synonym(state, cursor, said, from, declarator, of),
            Err(_) => Err(Stop::OutOfMemory),
        }
    }

    // A name of a type, given its declarator (7.1.3).
    #[tactic(auto, using(cxx_expr::proofs::Kept::tree_kept, cxx_expr::proofs::Kept::tree_later, cxx_cursor::proofs::Kept::later_refl, cxx_cursor::proofs::Kept::later_trans), unfolding(cxx_language::specs::Classes::synonym_member))]
    fn synonym_member(
        &self,
        state: &mut State,
        cursor: &Cursor<'_>,
        said: Said,
        declarator: Declarator,
        from: &Cursor<'_>,
    ) -> Result<Declared, Stop>
        requires said { IsSaid state.old said }
        requires declarator { IsDeclarator state.old declarator }
        ensures { IsRead declares_of IsDeclaredKnown state.old state.new cursor.now result (definition.synonym_member (said_of state.old said) (declarator_of state.old declarator) from.now (meaning state.old) cursor.now) }
    {
        declared_fits(state, cursor, said, &declarator)?;
        let tree = self.synonym_as(state, cursor, said, declarator, from)?;
        let defaults = defaults_kept(state, cursor, None, None)?;
        Ok(Declared {
            tree,
            defaults,
            body: None,
        })
    }

    // A member, given its declarator.
    #[tactic(auto, using(cxx_cursor::proofs::Kept::later_refl, cxx_cursor::proofs::Kept::later_trans), unfolding(cxx_language::specs::Classes::declared_member))]
    fn declared_member(
        &self,
        state: &mut State,
        cursor: &mut Cursor<'_>,
        label: Labelled,
        said: Said,
        is_first: bool,
        declarator: Declarator,
        from: &Cursor<'_>,
    ) -> Result<Declared, Stop>
        requires said { IsSaid state.old said }
        requires declarator { IsDeclarator state.old declarator }
        ensures { IsRead declares_of IsDeclaredKnown state.old state.new cursor.new result (definition.declared_member self.now.room (labelled_of label) (said_of state.old said) is_first (declarator_of state.old declarator) from.now (meaning state.old) cursor.old) }
    {
        if said.is_typedef {
            return self.synonym_member(state, cursor, said, declarator, from);
        }
        self.data_member(state, cursor, label, said, is_first, declarator, from)
    }

    #[tactic(auto, using(cxx_cursor::proofs::Kept::type_kept, cxx_cursor::proofs::Kept::type_later, cxx_cursor::proofs::Kept::later_refl, cxx_cursor::proofs::Kept::later_trans), unfolding(cxx_language::specs::Classes::named_member_at))]
    fn named_member_at(
        &self,
        state: &mut State,
        cursor: &mut Cursor<'_>,
        label: Labelled,
        said: Said,
        is_first: bool,
    ) -> Result<Declared, Stop>
        requires { IsSaid state.old said }
        ensures { IsRead declares_of IsDeclaredKnown state.old state.new cursor.new result (definition.named_member_at self.now.room (labelled_of label) (said_of state.old said) is_first (meaning state.old) cursor.old) }
    {
        let from = cursor.mark();
        let declarator = self
            .declares
            .declarator(state, cursor, Naming::Required, self.room)?;
        self.declared_member(state, cursor, label, said, is_first, declarator, &from)
    }

    // A member; a bit-field may have no name (9.6).
    #[tactic(auto, using(cxx_cursor::proofs::Kept::later_refl), unfolding(cxx_language::specs::Classes::member_at))]
    fn member_at(
        &self,
        state: &mut State,
        cursor: &mut Cursor<'_>,
        label: Labelled,
        said: Said,
        is_first: bool,
    ) -> Result<Declared, Stop>
        requires { IsSaid state.old said }
        ensures { IsRead declares_of IsDeclaredKnown state.old state.new cursor.new result (definition.member_at self.now.room (labelled_of label) (said_of state.old said) is_first (meaning state.old) cursor.old) }
    {
        if is_punct(punct::COLON, cursor.kind()) {
            let form = FaultText::LeftOut(LeftOut::BitField);
            return Err(Stop::Fault(cursor.faulty(form)?));
        }
        self.named_member_at(state, cursor, label, said, is_first)
    }

    // A member, and what separates it from the next.
    #[tactic(auto, using(cxx_cursor::proofs::Kept::trees_kept, cxx_cursor::proofs::Kept::trees_later, cxx_cursor::proofs::Kept::later_refl, cxx_cursor::proofs::Kept::later_trans), unfolding(cxx_language::specs::Classes::member_step))]
    fn member_step(
        &self,
        state: &mut State,
        cursor: &mut Cursor<'_>,
        label: Labelled,
        said: Said,
        so_far: ListedTrees,
    ) -> Result<Turn<ListedTrees, TreeIdList>, Stop>
        requires said { IsSaid state.old said }
        requires listed { IsListed state.old so_far }
        ensures { IsRead listed_turn IsListedTurn state.old state.new cursor.new result (definition.member_step self.now.room (labelled_of label) (said_of state.old said) (listed_of state.old so_far) (meaning state.old) cursor.old) }
    {
        let one = self.member_at(state, cursor, label, said, so_far.is_first)?;
        ended_by(state, cursor, so_far, one)
    }

    // All members that one declaration declares, with its end.
    #[tactic(auto, using(cxx_cursor::proofs::Loops::turn, cxx_cursor::proofs::Loops::no_turn, cxx_cursor::proofs::Kept::type_kept, cxx_cursor::proofs::Kept::type_later, cxx_cursor::proofs::Kept::later_refl, cxx_cursor::proofs::Kept::later_trans))]
    fn members_at(
        &self,
        state: &mut State,
        cursor: &mut Cursor<'_>,
        label: Labelled,
        said: Said,
    ) -> Result<TreeIdList, Stop>
        requires { IsSaid state.old said }
        ensures { IsRead trees_held AreTreesHeld state.old state.new cursor.new result (members_at self.now.room (labelled_of label) (said_of state.old said) (meaning state.old) cursor.old) }
    {
        let mut so_far = no_declarators(cursor.alloc());
        for _turn in 0..cursor.count() {
            match self.member_step(state, cursor, label, said, so_far)? {
                Turn::More(next) => so_far = next,
                Turn::Done(all) => return Ok(all),
            }
        }
        Ok(so_far.trees)
    }

    #[tactic(auto, using(cxx_cursor::proofs::Kept::later_refl, cxx_cursor::proofs::Kept::later_trans), unfolding(cxx_language::specs::Classes::members_by))]
    fn members_by(
        &self,
        state: &mut State,
        cursor: &mut Cursor<'_>,
        label: Labelled,
        specifiers: &Specifiers,
    ) -> Result<TreeIdList, Stop>
        requires { AreSpecifiers state.old specifiers.now }
        ensures { IsRead trees_held AreTreesHeld state.old state.new cursor.new result (definition.members_by self.now.room (labelled_of label) (specifiers_of state.old specifiers.now) (meaning state.old) cursor.old) }
    {
        if is_punct(punct::SEMICOLON, cursor.kind()) {
            return nothing_declared(state, cursor, specifiers);
        }
        let said = said_by(state, false, specifiers)?;
        self.members_at(state, cursor, label, said)
    }

    /// A declaration of members, with the access of the label before it (9.2, 11.1).
    #[cycle(nested)]
    #[tactic(auto, using(cxx_cursor::proofs::Kept::named_kept, cxx_cursor::proofs::Kept::named_later, cxx_cursor::proofs::Kept::trees_kept, cxx_cursor::proofs::Kept::trees_later, cxx_cursor::proofs::Kept::later_refl, cxx_cursor::proofs::Kept::later_trans), unfolding(cxx_language::specs::Classes::member_declaration_by))]
    pub(crate) fn member_declaration_at(
        &self,
        state: &mut State,
        cursor: &mut Cursor<'_>,
        access: Access,
    ) -> Result<TreeId, Stop>
        ensures { IsRead tree IsTreeKnown state.old state.new cursor.new result (definition.member_declaration_at self.now.room access (meaning state.old) cursor.old) }
    {
        let from = cursor.mark();
        let is_virtual = virtual_or_not(cursor);
        let specifiers = self.member_specifiers(state, cursor)?;
        let between = cursor.mark();
        let label = Labelled { access, is_virtual };
        let declarators = self.members_by(state, cursor, label, &specifiers)?;
        declaration_tree(state, specifiers, declarators, &from, &between, cursor)
    }
}
