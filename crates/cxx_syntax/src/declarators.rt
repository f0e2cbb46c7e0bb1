//! How declarators are read (8.3).

ghost use Rattle.std.specs.Prelude.{◌≡◌, ◌++◌, List, [], ◌∷◌, Some, None, false, IfOk, IfErr};
ghost use Rattle.cxx_model.specs.declared.stop.Stop.TheVariants as stop;
ghost use Rattle.cxx_model.specs.Types.Trees.{CxxType};
ghost use Rattle.cxx_reading.specs.Shapes as shape;
ghost use Rattle.cxx_cursor.specs.declared.declarator.Layer.TheVariants as layer;
ghost use Rattle.cxx_reading.specs.Declarators.{no_cv};
ghost use Rattle.cxx_reading.specs.Declarators as declarators;
ghost use Rattle.cxx_reading.specs.Syntax as definition;
ghost use Rattle.cxx_reading.specs.Trees.{last_part};
ghost use Rattle.cxx_cursor.specs.Asking.{AnyKnown, itself};
ghost use Rattle.cxx_syntax.specs.Outlines.{names_type};
ghost use Rattle.cxx_cursor.specs.Reading.{IsRead};
ghost use Rattle.cxx_syntax.specs.Suffixes.{IsSuffixed, IsSuffixedTurn, suffixed_of, suffixed_turn};
ghost use Rattle.cxx_cursor.specs.Views.{IsConstantOption, IsDeclarator, declarator_of, layers_in, name_at};
ghost use Rattle.cxx_tree.specs.Arena.{bound_of, path_at};
ghost use Rattle.cxx_tree.specs.Held.{meaning};

use crate::cv::{cv_at, exceptions_at};
use crate::kinds::Kinds;
use crate::nested::Nested;
use crate::reader::Reader;
use crate::steps::begins_class;
use cxx_cursor::{
    Cursor, Declarator, Layer, NameToken, ParameterTypes, Turn, is_keyword, is_punct, joined,
    last_part, type_word,
};
use cxx_model::{
    Cv, FaultText, Kind, LeftOut, Listed, Path, Place, Stop, TokenKind, TreeIdList, Word, keyword,
    punct,
};
use cxx_reading::Naming;
use cxx_tree::State;
use std::alloc::{AllocError, Global};

/// What was read of a declarator, and whether it ends in a bound.
#[derive(Drop)]
pub(crate) struct Suffixed {
    pub declarator: Declarator,
    pub in_row: bool,
}

fn is_required(naming: Naming) -> bool
    ensures { result ≡ definition.is_required naming }
{
    match naming {
        Naming::Qualified => true,
        Naming::Required => true,
        _ => false,
    }
}

fn may_qualify(naming: Naming) -> bool
    ensures { result ≡ definition.may_qualify naming }
{
    match naming {
        Naming::Qualified => true,
        _ => false,
    }
}

fn is_never(naming: Naming) -> bool
    ensures { result ≡ definition.is_never naming }
{
    match naming {
        Naming::Never => true,
        _ => false,
    }
}

// The words behind the parameters of a function, before any is read.
fn no_words() -> Cv
    ensures { result ≡ no_cv }
{
    Cv {
        is_const: false,
        is_volatile: false,
    }
}

// Nothing was read of a declarator but, maybe, its name.
fn with_name(alloc: Global, name: Option<NameToken>) -> Declarator
    ensures { result ≡ record { name = name; is_qualified = false; layers = []; cv = no_cv; parts = [] } }
{
    Declarator {
        name,
        is_qualified: false,
        layers: Listed::new(alloc),
        cv: no_words(),
        parts: Listed::new(alloc),
    }
}

// The token of the last part of a name.
fn last_token(alloc: Global, path: &Path) -> Result<NameToken, AllocError>
    ensures { IfOk result (λ token. name_at token ≡ definition.token_of (last_part (path_at path.now).parts)) }
{
    match last_part(path.parts.as_slice()) {
        Some(part) => Ok(NameToken {
            kind: TokenKind::Name,
            place: part.place,
            spelling: Word::from_slice(alloc, part.word.as_slice())?,
        }),
        None => Ok(NameToken {
            kind: TokenKind::Name,
            place: Place { line: 0, column: 0 },
            spelling: Listed::new(alloc),
        }),
    }
}

// Nothing was read of a declarator but a name with qualifiers.
fn with_path(state: &State, alloc: Global, path: &Path) -> Result<Declarator, AllocError>
    ensures is { IfOk result (λ declarator. declarator_of state.now declarator ≡ definition.member_read (last_part (path_at path.now).parts)) }
    ensures known { IfOk result (IsDeclarator state.now) }
{
    let _ = state;
    let name = last_token(alloc, path)?;
    Ok(Declarator {
        name: Some(name),
        is_qualified: true,
        layers: Listed::new(alloc),
        cv: no_words(),
        parts: Listed::new(alloc),
    })
}

// A part of a declarator that stands outside of what was read of it.
fn outward(layer: Layer, parts: TreeIdList, inside: Declarator) -> Result<Declarator, Stop>
    ensures is { IfOk result (λ declarator. declarator ≡ record inside { layers = inside.layers ++ layer ∷ []; parts = inside.parts ++ parts }) }
    ensures memory { IfErr result (λ why. why ≡ stop.OutOfMemory) }
{
    let Declarator {
        name,
        is_qualified,
        mut layers,
        cv,
        parts: before,
    } = inside;
    layers.push(layer)?;
    Ok(Declarator {
        name,
        is_qualified,
        layers,
        cv,
        parts: joined(before, parts)?,
    })
}

// A bound below one is none (8.3.4).
fn bound_by(value: Option<i128>) -> Option<u64>
    requires { IsConstantOption value }
    ensures { bound_of result ≡ definition.bound_by value }
{
    match value {
        None => None,
        Some(value) => {
            if value < 0 {
                Some(0)
            } else {
                Some(value as u64)
            }
        }
    }
}

// The words behind the parameters of a function that a declarator with these layers declares.
#[tactic(auto, using(crate::proofs::Layering::own_of_some))]
fn own_cv(layers: &[Layer], words: Cv, before: Cv) -> Cv
    ensures { (types : List CxxType) → result ≡ declarators.own_cv (layers_in types layers.now) words before }
{
    match layers {
        [] => words,
        [_, ..] => before,
    }
}

// A function, with its parameters.
fn with_list(list: ParameterTypes, inside: Declarator) -> Result<Declarator, Stop>
    ensures is { IfOk result (λ declarator. declarator ≡ record inside { layers = inside.layers ++ layer.Function list.types list.ellipsis list.scope ∷ []; parts = inside.parts ++ list.parts }) }
    ensures memory { IfErr result (λ why. why ≡ stop.OutOfMemory) }
{
    let ParameterTypes {
        types,
        ellipsis,
        scope,
        parts,
    } = list;
    let layer = Layer::Function {
        parameters: types,
        ellipsis,
        scope,
    };
    outward(layer, parts, inside)
}

// The same with the words behind them.
fn with_function(list: ParameterTypes, cv: Cv, inside: Declarator) -> Result<Declarator, Stop>
    ensures is { (types : List CxxType) → IfOk result (λ declarator. declarator ≡ record inside { layers = inside.layers ++ layer.Function list.types list.ellipsis list.scope ∷ []; cv = declarators.own_cv (layers_in types inside.layers) cv inside.cv; parts = inside.parts ++ list.parts }) }
    ensures memory { IfErr result (λ why. why ≡ stop.OutOfMemory) }
{
    let own = own_cv(inside.layers.as_slice(), cv, inside.cv);
    let mut declarator = with_list(list, inside)?;
    declarator.cv = own;
    Ok(declarator)
}

pub(crate) fn is_cv(number: u8) -> bool
    ensures { result ≡ shape.is_cv number }
{
    number == keyword::CONST || number == keyword::VOLATILE
}

pub(crate) fn is_key(number: u8) -> bool
    ensures { result ≡ shape.is_key number }
{
    number == keyword::ENUM || begins_class(number)
}

// Whether no declarator begins so in brackets: by their end, an ellipsis, or a storage word of parameters (7.1.1, 8.3.5).
fn is_no_declarator(kind: TokenKind) -> bool
    ensures { result ≡ shape.is_no_declarator kind }
{
    is_punct(punct::RIGHT_PARENTHESIS, kind)
        || (is_punct(punct::ELLIPSIS, kind)
            || (is_keyword(keyword::AUTO, kind) || is_keyword(keyword::REGISTER, kind)))
}

impl<K: Kinds, N: Nested> Reader<'_, K, N> {
    // Whether the name ahead is one of a type (3.4).
    #[tactic(auto, using(cxx_cursor::proofs::Kept::later_trans, cxx_cursor::proofs::Kept::later_refl))]
    fn is_type_name(&self, state: &mut State, cursor: &Cursor<'_>) -> Result<bool, Stop>
        requires ready { K.is_ready self.now.kinds.now }
        ensures { IsRead itself AnyKnown state.old state.new cursor.now result (names_type (K.asks self.now.kinds.now self.now.room) (meaning state.old) cursor.now) }
    {
        match self.kind_of_name(state, cursor)? {
            Kind::OfType => Ok(true),
            _ => Ok(false),
        }
    }

    // Whether a type begins ahead.
    #[tactic(auto, unfolding(cxx_reading::specs::Shapes::begins_type))]
    pub(crate) fn begins_type(&self, state: &mut State, cursor: &Cursor<'_>) -> Result<bool, Stop>
        requires ready { K.is_ready self.now.kinds.now }
        ensures { IsRead itself AnyKnown state.old state.new cursor.now result (shape.begins_type (K.asks self.now.kinds.now self.now.room) (meaning state.old) cursor.now) }
    {
        match cursor.kind() {
            TokenKind::Keyword(number) => {
                Ok(type_word(number).is_some() || (is_cv(number) || is_key(number)))
            }
            TokenKind::Punct(number) => {
                if number == punct::SCOPE {
                    self.is_type_name(state, cursor)
                } else {
                    Ok(false)
                }
            }
            TokenKind::Name => self.is_type_name(state, cursor),
            _ => Ok(false),
        }
    }

    // Whether a bracket, which stands ahead where no name was read, holds parameters (8.2).
    #[tactic(auto, unfolding(cxx_reading::specs::Shapes::is_abstract_list))]
    pub(crate) fn is_abstract_list(
        &self,
        state: &mut State,
        cursor: &Cursor<'_>,
    ) -> Result<bool, Stop>
        requires ready { K.is_ready self.now.kinds.now }
        ensures { IsRead itself AnyKnown state.old state.new cursor.now result (shape.is_abstract_list (K.asks self.now.kinds.now self.now.room) (meaning state.old) cursor.now) }
    {
        if is_no_declarator(cursor.kind_behind()) {
            return Ok(true);
        }
        let mut ahead = cursor.mark();
        ahead.advance();
        self.begins_type(state, &ahead)
    }

    // Only the first bound of a row may be left out (8.3.4).
    #[tactic(auto, using(cxx_cursor::proofs::Kept::trees_kept, cxx_cursor::proofs::Kept::trees_later, cxx_cursor::proofs::Kept::trees_append, cxx_cursor::proofs::Kept::trees_below_append, cxx_cursor::proofs::Kept::layers_kept, cxx_cursor::proofs::Kept::layers_later, cxx_cursor::proofs::Kept::layers_append, cxx_cursor::proofs::Kept::layers_below_append, cxx_cursor::proofs::Kept::later_trans, cxx_cursor::proofs::Kept::later_refl), unfolding(cxx_reading::specs::Syntax::array_suffix))]
    fn array_suffix(
        &self,
        state: &mut State,
        cursor: &mut Cursor<'_>,
        so_far: Suffixed,
    ) -> Result<Turn<Suffixed, Declarator>, Stop>
        requires known { IsSuffixed state.old so_far }
        requires open { N.is_open self.now.nested.now }
        ensures { IsRead suffixed_turn IsSuffixedTurn state.old state.new cursor.new result (definition.array_suffix (N.inner self.now.nested.now) (suffixed_of state.old so_far) (meaning state.old) cursor.old) }
    {
        cursor.advance();
        let (value, parts) = self.nested.bound(state, cursor, !so_far.in_row)?;
        let declarator = outward(Layer::Array(bound_by(value)), parts, so_far.declarator)?;
        Ok(Turn::More(Suffixed {
            declarator,
            in_row: true,
        }))
    }

    // Parameters, and the words behind them (8.3.5).
    #[tactic(auto, using(cxx_cursor::proofs::Kept::trees_kept, cxx_cursor::proofs::Kept::trees_later, cxx_cursor::proofs::Kept::trees_append, cxx_cursor::proofs::Kept::trees_below_append, cxx_cursor::proofs::Kept::layers_kept, cxx_cursor::proofs::Kept::layers_later, cxx_cursor::proofs::Kept::layers_append, cxx_cursor::proofs::Kept::layers_below_append, cxx_cursor::proofs::Kept::later_trans, cxx_cursor::proofs::Kept::later_refl), unfolding(cxx_reading::specs::Syntax::function_suffix))]
    fn function_suffix(
        &self,
        state: &mut State,
        cursor: &mut Cursor<'_>,
        so_far: Suffixed,
    ) -> Result<Turn<Suffixed, Declarator>, Stop>
        requires known { IsSuffixed state.old so_far }
        requires open { N.is_open self.now.nested.now }
        ensures { IsRead suffixed_turn IsSuffixedTurn state.old state.new cursor.new result (definition.function_suffix (N.inner self.now.nested.now) (suffixed_of state.old so_far) (meaning state.old) cursor.old) }
    {
        cursor.advance();
        let list = self.nested.parameters(state, cursor)?;
        let cv = cv_at(cursor)?;
        exceptions_at(cursor)?;
        let declarator = with_function(list, cv, so_far.declarator)?;
        Ok(Turn::More(Suffixed {
            declarator,
            in_row: false,
        }))
    }

    // Behind a name a bracket holds parameters by its shape, and else an initializer (8.2).
    #[tactic(auto, using(cxx_cursor::proofs::Kept::trees_kept, cxx_cursor::proofs::Kept::trees_later, cxx_cursor::proofs::Kept::trees_append, cxx_cursor::proofs::Kept::trees_below_append, cxx_cursor::proofs::Kept::layers_kept, cxx_cursor::proofs::Kept::layers_later, cxx_cursor::proofs::Kept::layers_append, cxx_cursor::proofs::Kept::layers_below_append, cxx_cursor::proofs::Kept::later_trans, cxx_cursor::proofs::Kept::later_refl), unfolding(cxx_reading::specs::Syntax::bracket_suffix))]
    fn bracket_suffix(
        &self,
        state: &mut State,
        cursor: &mut Cursor<'_>,
        so_far: Suffixed,
    ) -> Result<Turn<Suffixed, Declarator>, Stop>
        requires known { IsSuffixed state.old so_far }
        requires open { N.is_open self.now.nested.now }
        ensures { IsRead suffixed_turn IsSuffixedTurn state.old state.new cursor.new result (definition.bracket_suffix (N.inner self.now.nested.now) (suffixed_of state.old so_far) (meaning state.old) cursor.old) }
    {
        if so_far.declarator.name.is_some() {
            let mut ahead = cursor.mark();
            ahead.advance();
            if !self.nested.holds_parameters(state, &mut ahead)? {
                return Ok(Turn::Done(so_far.declarator));
            }
        }
        self.function_suffix(state, cursor, so_far)
    }

    // One part behind a name.
    #[tactic(auto, unfolding(cxx_reading::specs::Syntax::suffix_at))]
    fn suffix_at(
        &self,
        state: &mut State,
        cursor: &mut Cursor<'_>,
        so_far: Suffixed,
    ) -> Result<Turn<Suffixed, Declarator>, Stop>
        requires known { IsSuffixed state.old so_far }
        requires open { N.is_open self.now.nested.now }
        ensures { IsRead suffixed_turn IsSuffixedTurn state.old state.new cursor.new result (definition.suffix_at (N.inner self.now.nested.now) (suffixed_of state.old so_far) (meaning state.old) cursor.old) }
    {
        if is_punct(punct::LEFT_PARENTHESIS, cursor.kind()) {
            return self.bracket_suffix(state, cursor, so_far);
        }
        if is_punct(punct::LEFT_BRACKET, cursor.kind()) {
            return self.array_suffix(state, cursor, so_far);
        }
        Ok(Turn::Done(so_far.declarator))
    }

    // All parts behind a name.
    #[tactic(auto, using(cxx_cursor::proofs::Loops::turn, cxx_cursor::proofs::Loops::no_turn, cxx_cursor::proofs::Kept::later_trans, cxx_cursor::proofs::Kept::later_refl), unfolding(cxx_reading::specs::Syntax::suffixes_at))]
    fn suffixes_at(
        &self,
        state: &mut State,
        cursor: &mut Cursor<'_>,
        declarator: Declarator,
    ) -> Result<Declarator, Stop>
        requires known { IsDeclarator state.old declarator }
        requires open { N.is_open self.now.nested.now }
        ensures { IsRead declarator_of IsDeclarator state.old state.new cursor.new result (definition.suffixes_at (N.inner self.now.nested.now) (declarator_of state.old declarator) (meaning state.old) cursor.old) }
    {
        let mut so_far = Suffixed {
            declarator,
            in_row: false,
        };
        for _turn in 0..cursor.count() {
            match self.suffix_at(state, cursor, so_far)? {
                Turn::More(next) => so_far = next,
                Turn::Done(all) => return Ok(all),
            }
        }
        Ok(so_far.declarator)
    }

    // A name with qualifiers, which is looked up before what stands behind it is read (8.3).
    #[tactic(auto, using(cxx_cursor::proofs::Kept::trees_kept, cxx_cursor::proofs::Kept::trees_later, cxx_cursor::proofs::Kept::trees_append, cxx_cursor::proofs::Kept::trees_below_append, cxx_cursor::proofs::Kept::layers_kept, cxx_cursor::proofs::Kept::layers_later, cxx_cursor::proofs::Kept::layers_append, cxx_cursor::proofs::Kept::layers_below_append, cxx_cursor::proofs::Kept::later_trans, cxx_cursor::proofs::Kept::later_refl), unfolding(cxx_reading::specs::Syntax::qualified_part))]
    fn qualified_part(&self, state: &mut State, cursor: &mut Cursor<'_>) -> Result<Declarator, Stop>
        requires ready { K.is_ready self.now.kinds.now }
        requires open { N.is_open self.now.nested.now }
        ensures { IsRead declarator_of IsDeclarator state.old state.new cursor.new result (definition.qualified_part (K.asks self.now.kinds.now self.now.room) (N.inner self.now.nested.now) (meaning state.old) cursor.old) }
    {
        let name = cursor.mark();
        let path = cursor.path_taken(state)?;
        self.kinds.entered(state, &name, self.room)?;
        let member = with_path(state, cursor.alloc(), &path)?;
        self.suffixes_at(state, cursor, member)
    }

    // A name, or none where none has to stand.
    #[tactic(auto, using(cxx_cursor::proofs::Kept::trees_kept, cxx_cursor::proofs::Kept::trees_later, cxx_cursor::proofs::Kept::trees_append, cxx_cursor::proofs::Kept::trees_below_append, cxx_cursor::proofs::Kept::layers_kept, cxx_cursor::proofs::Kept::layers_later, cxx_cursor::proofs::Kept::layers_append, cxx_cursor::proofs::Kept::layers_below_append, cxx_cursor::proofs::Kept::later_trans, cxx_cursor::proofs::Kept::later_refl), unfolding(cxx_reading::specs::Syntax::name_part, cxx_reading::specs::Tokens::no_declarator))]
    fn name_part(
        &self,
        state: &mut State,
        cursor: &mut Cursor<'_>,
        naming: Naming,
    ) -> Result<Declarator, Stop>
        requires ready { K.is_ready self.now.kinds.now }
        requires open { N.is_open self.now.nested.now }
        ensures { IsRead declarator_of IsDeclarator state.old state.new cursor.new result (definition.name_part (K.asks self.now.kinds.now self.now.room) (N.inner self.now.nested.now) naming (meaning state.old) cursor.old) }
    {
        if is_never(naming) {
            return self.suffixes_at(state, cursor, with_name(cursor.alloc(), None));
        }
        if cursor.is_plain_name() {
            let name = cursor.kept()?;
            return self.suffixes_at(state, cursor, with_name(cursor.alloc(), Some(name)));
        }
        if cursor.begins_name() {
            if may_qualify(naming) {
                return self.qualified_part(state, cursor);
            }
            return Err(Stop::Fault(cursor.no_qualifier()?));
        }
        if is_required(naming) {
            return Err(Stop::Fault(cursor.no_declarator()?));
        }
        self.suffixes_at(state, cursor, with_name(cursor.alloc(), None))
    }

    // The same, where it is no pointer to a member, which is left out (8.3.3).
    #[tactic(auto, using(cxx_cursor::proofs::Kept::later_refl))]
    fn named_part(
        &self,
        state: &mut State,
        cursor: &mut Cursor<'_>,
        naming: Naming,
    ) -> Result<Declarator, Stop>
        requires ready { K.is_ready self.now.kinds.now }
        requires open { N.is_open self.now.nested.now }
        ensures { IsRead declarator_of IsDeclarator state.old state.new cursor.new result (definition.named_part (K.asks self.now.kinds.now self.now.room) (N.inner self.now.nested.now) naming (meaning state.old) cursor.old) }
    {
        if cursor.points_to_member() {
            let form = FaultText::LeftOut(LeftOut::PointerToMember);
            return Err(Stop::Fault(cursor.faulty(form)?));
        }
        self.name_part(state, cursor, naming)
    }

    // A declarator in brackets.
    #[tactic(auto, using(cxx_cursor::proofs::Kept::trees_kept, cxx_cursor::proofs::Kept::trees_later, cxx_cursor::proofs::Kept::trees_append, cxx_cursor::proofs::Kept::trees_below_append, cxx_cursor::proofs::Kept::layers_kept, cxx_cursor::proofs::Kept::layers_later, cxx_cursor::proofs::Kept::layers_append, cxx_cursor::proofs::Kept::layers_below_append, cxx_cursor::proofs::Kept::later_trans, cxx_cursor::proofs::Kept::later_refl), unfolding(cxx_reading::specs::Syntax::grouped_part))]
    fn grouped_part(
        &self,
        state: &mut State,
        cursor: &mut Cursor<'_>,
        naming: Naming,
    ) -> Result<Declarator, Stop>
        requires open { N.is_open self.now.nested.now }
        ensures { IsRead declarator_of IsDeclarator state.old state.new cursor.new result (definition.grouped_part (N.inner self.now.nested.now) naming (meaning state.old) cursor.old) }
    {
        cursor.advance();
        let inside = self.nested.grouped(state, cursor, naming)?;
        self.suffixes_at(state, cursor, inside)
    }

    // Where no name has to stand, a bracket before a type holds parameters (8.2).
    #[tactic(auto, using(cxx_cursor::proofs::Kept::trees_kept, cxx_cursor::proofs::Kept::trees_later, cxx_cursor::proofs::Kept::trees_append, cxx_cursor::proofs::Kept::trees_below_append, cxx_cursor::proofs::Kept::layers_kept, cxx_cursor::proofs::Kept::layers_later, cxx_cursor::proofs::Kept::layers_append, cxx_cursor::proofs::Kept::layers_below_append, cxx_cursor::proofs::Kept::later_trans, cxx_cursor::proofs::Kept::later_refl), unfolding(cxx_reading::specs::Syntax::bracket_part))]
    fn bracket_part(
        &self,
        state: &mut State,
        cursor: &mut Cursor<'_>,
        naming: Naming,
    ) -> Result<Declarator, Stop>
        requires ready { K.is_ready self.now.kinds.now }
        requires open { N.is_open self.now.nested.now }
        ensures { IsRead declarator_of IsDeclarator state.old state.new cursor.new result (definition.bracket_part (K.asks self.now.kinds.now self.now.room) (N.inner self.now.nested.now) naming (meaning state.old) cursor.old) }
    {
        if !is_required(naming) && self.is_abstract_list(state, cursor)? {
            return self.suffixes_at(state, cursor, with_name(cursor.alloc(), None));
        }
        self.grouped_part(state, cursor, naming)
    }

    // A pointer (8.3.1).
    #[tactic(auto, using(cxx_cursor::proofs::Kept::trees_kept, cxx_cursor::proofs::Kept::trees_later, cxx_cursor::proofs::Kept::trees_append, cxx_cursor::proofs::Kept::trees_below_append, cxx_cursor::proofs::Kept::layers_kept, cxx_cursor::proofs::Kept::layers_later, cxx_cursor::proofs::Kept::layers_append, cxx_cursor::proofs::Kept::layers_below_append, cxx_cursor::proofs::Kept::later_trans, cxx_cursor::proofs::Kept::later_refl), unfolding(cxx_reading::specs::Syntax::star_part))]
    fn star_part(
        &self,
        state: &mut State,
        cursor: &mut Cursor<'_>,
        naming: Naming,
    ) -> Result<Declarator, Stop>
        requires open { N.is_open self.now.nested.now }
        ensures { IsRead declarator_of IsDeclarator state.old state.new cursor.new result (definition.star_part (N.inner self.now.nested.now) naming (meaning state.old) cursor.old) }
    {
        cursor.advance();
        self.nested.pointed(state, cursor, naming)
    }

    // A reference (8.3.2).
    #[tactic(auto, using(cxx_cursor::proofs::Kept::trees_kept, cxx_cursor::proofs::Kept::trees_later, cxx_cursor::proofs::Kept::trees_append, cxx_cursor::proofs::Kept::trees_below_append, cxx_cursor::proofs::Kept::layers_kept, cxx_cursor::proofs::Kept::layers_later, cxx_cursor::proofs::Kept::layers_append, cxx_cursor::proofs::Kept::layers_below_append, cxx_cursor::proofs::Kept::later_trans, cxx_cursor::proofs::Kept::later_refl), unfolding(cxx_reading::specs::Syntax::ampersand_part))]
    fn ampersand_part(
        &self,
        state: &mut State,
        cursor: &mut Cursor<'_>,
        naming: Naming,
    ) -> Result<Declarator, Stop>
        requires open { N.is_open self.now.nested.now }
        ensures { IsRead declarator_of IsDeclarator state.old state.new cursor.new result (definition.ampersand_part (N.inner self.now.nested.now) naming (meaning state.old) cursor.old) }
    {
        cursor.advance();
        self.nested.referred(state, cursor, naming)
    }

    /// A declarator (8).
    #[tactic(auto, using(cxx_cursor::proofs::Kept::trees_kept, cxx_cursor::proofs::Kept::trees_later, cxx_cursor::proofs::Kept::trees_append, cxx_cursor::proofs::Kept::trees_below_append, cxx_cursor::proofs::Kept::layers_kept, cxx_cursor::proofs::Kept::layers_later, cxx_cursor::proofs::Kept::layers_append, cxx_cursor::proofs::Kept::layers_below_append, cxx_cursor::proofs::Kept::later_trans, cxx_cursor::proofs::Kept::later_refl), unfolding(cxx_reading::specs::Syntax::declarator_at))]
    pub fn declarator_at(
        &self,
        state: &mut State,
        cursor: &mut Cursor<'_>,
        naming: Naming,
    ) -> Result<Declarator, Stop>
        requires ready { K.is_ready self.now.kinds.now }
        requires open { N.is_open self.now.nested.now }
        ensures { IsRead declarator_of IsDeclarator state.old state.new cursor.new result (definition.declarator_at (K.asks self.now.kinds.now self.now.room) (N.inner self.now.nested.now) naming (meaning state.old) cursor.old) }
    {
        if is_punct(punct::STAR, cursor.kind()) {
            return self.star_part(state, cursor, naming);
        }
        if is_punct(punct::AMPERSAND, cursor.kind()) {
            return self.ampersand_part(state, cursor, naming);
        }
        if is_punct(punct::LEFT_PARENTHESIS, cursor.kind()) {
            return self.bracket_part(state, cursor, naming);
        }
        self.named_part(state, cursor, naming)
    }

    /// What stands behind `*` (8.3.1).
    #[tactic(auto, using(cxx_cursor::proofs::Kept::trees_kept, cxx_cursor::proofs::Kept::trees_later, cxx_cursor::proofs::Kept::trees_append, cxx_cursor::proofs::Kept::trees_below_append, cxx_cursor::proofs::Kept::layers_kept, cxx_cursor::proofs::Kept::layers_later, cxx_cursor::proofs::Kept::layers_append, cxx_cursor::proofs::Kept::layers_below_append, cxx_cursor::proofs::Kept::later_trans, cxx_cursor::proofs::Kept::later_refl), unfolding(cxx_reading::specs::Syntax::pointed_at))]
    pub fn pointed_at(
        &self,
        state: &mut State,
        cursor: &mut Cursor<'_>,
        naming: Naming,
    ) -> Result<Declarator, Stop>
        requires ready { K.is_ready self.now.kinds.now }
        requires open { N.is_open self.now.nested.now }
        ensures { IsRead declarator_of IsDeclarator state.old state.new cursor.new result (definition.pointed_at (K.asks self.now.kinds.now self.now.room) (N.inner self.now.nested.now) naming (meaning state.old) cursor.old) }
    {
        let cv = cv_at(cursor)?;
        let inside = self.declarator_at(state, cursor, naming)?;
        outward(Layer::Pointer(cv), Listed::new(cursor.alloc()), inside)
    }

    /// What stands behind `&` (8.3.2).
    #[tactic(auto, using(cxx_cursor::proofs::Kept::trees_kept, cxx_cursor::proofs::Kept::trees_later, cxx_cursor::proofs::Kept::trees_append, cxx_cursor::proofs::Kept::trees_below_append, cxx_cursor::proofs::Kept::layers_kept, cxx_cursor::proofs::Kept::layers_later, cxx_cursor::proofs::Kept::layers_append, cxx_cursor::proofs::Kept::layers_below_append, cxx_cursor::proofs::Kept::later_trans, cxx_cursor::proofs::Kept::later_refl), unfolding(cxx_reading::specs::Syntax::referred_at))]
    pub fn referred_at(
        &self,
        state: &mut State,
        cursor: &mut Cursor<'_>,
        naming: Naming,
    ) -> Result<Declarator, Stop>
        requires ready { K.is_ready self.now.kinds.now }
        requires open { N.is_open self.now.nested.now }
        ensures { IsRead declarator_of IsDeclarator state.old state.new cursor.new result (definition.referred_at (K.asks self.now.kinds.now self.now.room) (N.inner self.now.nested.now) naming (meaning state.old) cursor.old) }
    {
        let inside = self.declarator_at(state, cursor, naming)?;
        outward(Layer::Reference, Listed::new(cursor.alloc()), inside)
    }

    /// A declarator in brackets behind its `(`, with the end (8).
    #[tactic(auto, using(cxx_cursor::proofs::Kept::trees_kept, cxx_cursor::proofs::Kept::trees_later, cxx_cursor::proofs::Kept::trees_append, cxx_cursor::proofs::Kept::trees_below_append, cxx_cursor::proofs::Kept::layers_kept, cxx_cursor::proofs::Kept::layers_later, cxx_cursor::proofs::Kept::layers_append, cxx_cursor::proofs::Kept::layers_below_append, cxx_cursor::proofs::Kept::later_trans, cxx_cursor::proofs::Kept::later_refl), unfolding(cxx_reading::specs::Syntax::grouped_at))]
    pub fn grouped_at(
        &self,
        state: &mut State,
        cursor: &mut Cursor<'_>,
        naming: Naming,
    ) -> Result<Declarator, Stop>
        requires ready { K.is_ready self.now.kinds.now }
        requires open { N.is_open self.now.nested.now }
        ensures { IsRead declarator_of IsDeclarator state.old state.new cursor.new result (definition.grouped_at (K.asks self.now.kinds.now self.now.room) (N.inner self.now.nested.now) naming (meaning state.old) cursor.old) }
    {
        let inside = self.declarator_at(state, cursor, naming)?;
        cursor.punct(punct::RIGHT_PARENTHESIS)?;
        Ok(inside)
    }
}
