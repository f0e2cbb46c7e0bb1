//! How parameters are read (8.3.5).

ghost use Rattle.std.specs.Prelude.{◌≡◌, ◌++◌, ◌<◌, ◌∷◌, [], length, IfOk, IfErr, false};
ghost use Rattle.cxx_model.specs.declared.stop.Stop.TheVariants as stop;
ghost use Rattle.cxx_reading.specs.Syntax as definition;
ghost use Rattle.cxx_cursor.specs.Asking.{IsTypeKnown};
ghost use Rattle.cxx_cursor.specs.Making.{GrowsTree};
ghost use Rattle.cxx_syntax.specs.Parameters.{IsParametersTurn, ellipsis_alone as ellipsis_alone_at, parameter_added as parameter_added_by, parameter_behind as parameter_behind_by, parameter_declared as parameter_declared_by, parameter_typed as parameter_typed_by, parameters_turn};
ghost use Rattle.cxx_cursor.specs.Reading.{IsRead};
ghost use Rattle.cxx_cursor.specs.Views.{AreParameters, AreSpecifiers, AreTreesHeld, IsDeclarator, declarator_of, parameters_of, specifiers_of, trees_held};
ghost use Rattle.cxx_tree.specs.Held.{meaning, type_of};
ghost use Rattle.cxx_tree.specs.Later.{MakesType};

use crate::defaults::Defaults;
use crate::kinds::Kinds;
use crate::layers::{declared_parameter, is_declared_void, refused};
use crate::nested::Nested;
use crate::reader::Reader;
use crate::trees::production;
use cxx_cursor::{
    Cursor, Declarator, ParameterTypes, Specifiers, Turn, base_of_words, fault_at, is_keyword,
    is_punct, joined, node_from, path_to_option, place_of, push,
};
use cxx_model::limits::MOST_ARGUMENTS;
use cxx_model::{
    Base, FaultText, LimitKind, Listed, OutOfMemory, ScopeId, Stop, TreeId, TreeIdList, TypeId,
    keyword, punct,
};
use cxx_reading::{Naming, SpecifierPlace};
use cxx_tree::State;
use std::alloc::Global;

/// The type of specifiers, and `void` where they name none (7.1.5).
#[tactic(auto, using(cxx_cursor::proofs::Kept::later_trans))]
pub fn specified(state: &mut State, specifiers: &Specifiers) -> Result<TypeId, OutOfMemory>
    requires { AreSpecifiers state.old specifiers.now }
    ensures { MakesType state.old state.new result (definition.specified_type (specifiers_of state.old specifiers.now)) }
{
    match specifiers.named {
        Some(of) => state.with_cv(of, specifiers.cv),
        None => match base_of_words(specifiers.words) {
            Some(base) => {
                let of = state.plain(base)?;
                state.with_cv(of, specifiers.cv)
            }
            None => state.plain(Base::Void),
        },
    }
}

// Whether no such parameter is declared: of a type that there is not, or `void`.
fn is_refused_parameter(state: &State, declarator: &Declarator, of: TypeId) -> bool
    requires { of.0 < length (state.now).types }
    ensures { result ≡ definition.is_refused_parameter (declarator_of state.now declarator.now).layers (type_of state.now of) }
{
    refused(state, declarator.layers.as_slice(), of).is_some()
        || is_declared_void(state, declarator.layers.as_slice(), of)
}

// The type of a parameter.
#[tactic(auto, using(cxx_cursor::proofs::Kept::layers_kept, cxx_cursor::proofs::Kept::layers_later, cxx_cursor::proofs::Kept::later_trans, cxx_cursor::proofs::Kept::later_refl), unfolding(crate::specs::Parameters::parameter_typed, cxx_reading::specs::Syntax::parameter_fits))]
fn parameter_typed(
    state: &mut State,
    cursor: &Cursor<'_>,
    specifiers: &Specifiers,
    declarator: &Declarator,
) -> Result<TypeId, Stop>
    requires specifiers { AreSpecifiers state.old specifiers.now }
    requires declarator { IsDeclarator state.old declarator.now }
    ensures { IsRead type_of IsTypeKnown state.old state.new cursor.now result (parameter_typed_by (specifiers_of state.old specifiers.now) (declarator_of state.old declarator.now) (meaning state.old) cursor.now) }
{
    match specified(state, specifiers) {
        Err(_) => Err(Stop::OutOfMemory),
        Ok(of) => {
            if is_refused_parameter(state, declarator, of) {
                let place = place_of(cursor.last(), &declarator.name);
                let text = FaultText::OperandsDoNotFit;
                return Err(Stop::Fault(fault_at(cursor.alloc(), place, text)?));
            }
            match declared_parameter(state, declarator.layers.as_slice(), of) {
                Ok(of) => Ok(of),
                Err(_) => Err(Stop::OutOfMemory),
            }
        }
    }
}

// The tree of a parameter, with its default argument. `to` stands behind its declarator, and `end` behind all of it.
#[tactic(auto, using(cxx_cursor::proofs::Kept::trees_append, cxx_cursor::proofs::Kept::trees_below_append))]
fn parameter_tree(
    state: &mut State,
    specifiers: Specifiers,
    declarator: Declarator,
    of: TypeId,
    default: TreeIdList,
    from: &Cursor<'_>,
    to: &Cursor<'_>,
    end: &Cursor<'_>,
) -> Result<TreeId, Stop>
    requires known { of.0 < length (state.old).types }
    requires specifiers { AreSpecifiers state.old specifiers }
    requires declarator { IsDeclarator state.old declarator }
    requires default { AreTreesHeld state.old default }
    ensures { GrowsTree state.old state.new result (definition.parameter_tree (specifiers_of state.old specifiers) (declarator_of state.old declarator) (type_of state.old of) (trees_held state.old default) from.now to.now end.now) }
{
    let path = path_to_option(from.alloc(), &declarator.name)?;
    let place = place_of(to.last(), &declarator.name);
    let parts = joined(joined(specifiers.parts, declarator.parts)?, default)?;
    let mut node = node_from(
        production::PARAMETER,
        Listed::new(from.alloc()),
        from,
        end,
        parts,
    );
    node.place = place;
    node.path = path;
    node.of = Some(of);
    push(state, node)
}

// The list with one parameter more.
fn with_parameter(of: TypeId, tree: TreeId, so_far: ParameterTypes) -> Result<ParameterTypes, Stop>
    ensures is { IfOk result (λ list. list ≡ record so_far { types = so_far.types ++ of ∷ []; parts = so_far.parts ++ tree ∷ [] }) }
    ensures memory { IfErr result (λ why. why ≡ stop.OutOfMemory) }
{
    let mut so_far = so_far;
    so_far.types.push(of)?;
    so_far.parts.push(tree)?;
    Ok(so_far)
}

// The list with a parameter that is declared.
#[tactic(auto, using(cxx_cursor::proofs::Kept::trees_kept, cxx_cursor::proofs::Kept::trees_later, cxx_cursor::proofs::Kept::trees_append, cxx_cursor::proofs::Kept::trees_below_append, cxx_cursor::proofs::Kept::types_kept, cxx_cursor::proofs::Kept::types_later, cxx_cursor::proofs::Kept::types_append, cxx_cursor::proofs::Kept::types_below_append, cxx_cursor::proofs::Kept::type_kept, cxx_cursor::proofs::Kept::type_later, cxx_cursor::proofs::Kept::later_trans, cxx_cursor::proofs::Kept::later_refl))]
fn parameter_added(
    state: &mut State,
    end: &Cursor<'_>,
    to: &Cursor<'_>,
    from: &Cursor<'_>,
    specifiers: Specifiers,
    declarator: Declarator,
    of: TypeId,
    default: TreeIdList,
    so_far: ParameterTypes,
) -> Result<ParameterTypes, Stop>
    requires known { of.0 < length (state.old).types }
    requires specifiers { AreSpecifiers state.old specifiers }
    requires declarator { IsDeclarator state.old declarator }
    requires default { AreTreesHeld state.old default }
    requires list { AreParameters state.old so_far }
    ensures { IsRead parameters_of AreParameters state.old state.new end.now result (parameter_added_by from.now to.now (specifiers_of state.old specifiers) (declarator_of state.old declarator) (type_of state.old of) (trees_held state.old default) (parameters_of state.old so_far) (meaning state.old) end.now) }
{
    let tree = parameter_tree(state, specifiers, declarator, of, default, from, to, end)?;
    with_parameter(of, tree, so_far)
}

fn no_parameters_yet(alloc: Global, scope: ScopeId) -> ParameterTypes
    ensures { result ≡ record { types = []; ellipsis = false; scope = scope; parts = [] } }
{
    ParameterTypes {
        types: Listed::new(alloc),
        ellipsis: false,
        scope,
        parts: Listed::new(alloc),
    }
}

// Behind `...`.
#[tactic(auto, using(cxx_cursor::proofs::Kept::later_refl), unfolding(cxx_reading::specs::Syntax::list_ended))]
fn list_ended(
    state: &State,
    cursor: &mut Cursor<'_>,
    so_far: ParameterTypes,
) -> Result<Turn<ParameterTypes, ParameterTypes>, Stop>
    requires { AreParameters state.now so_far }
    ensures { IsRead parameters_turn IsParametersTurn state.now state.now cursor.new result (definition.list_ended (parameters_of state.now so_far) (meaning state.now) cursor.old) }
{
    let _ = state;
    cursor.advance();
    cursor.punct(punct::RIGHT_PARENTHESIS)?;
    let mut so_far = so_far;
    so_far.ellipsis = true;
    Ok(Turn::Done(so_far))
}

// Behind a comma.
#[tactic(auto, using(cxx_cursor::proofs::Kept::later_refl), unfolding(cxx_reading::specs::Syntax::comma_passed))]
fn comma_passed(
    state: &State,
    cursor: &mut Cursor<'_>,
    so_far: ParameterTypes,
) -> Result<Turn<ParameterTypes, ParameterTypes>, Stop>
    requires { AreParameters state.now so_far }
    ensures { IsRead parameters_turn IsParametersTurn state.now state.now cursor.new result (definition.comma_passed (parameters_of state.now so_far) (meaning state.now) cursor.old) }
{
    if is_punct(punct::ELLIPSIS, cursor.kind()) {
        return list_ended(state, cursor, so_far);
    }
    Ok(Turn::More(so_far))
}

// Behind a parameter.
#[tactic(auto, using(cxx_cursor::proofs::Kept::later_refl), unfolding(cxx_reading::specs::Syntax::parameter_ended))]
fn parameter_ended(
    state: &State,
    cursor: &mut Cursor<'_>,
    so_far: ParameterTypes,
) -> Result<Turn<ParameterTypes, ParameterTypes>, Stop>
    requires { AreParameters state.now so_far }
    ensures { IsRead parameters_turn IsParametersTurn state.now state.now cursor.new result (definition.parameter_ended (parameters_of state.now so_far) (meaning state.now) cursor.old) }
{
    if is_punct(punct::COMMA, cursor.kind()) {
        cursor.advance();
        return comma_passed(state, cursor, so_far);
    }
    if is_punct(punct::RIGHT_PARENTHESIS, cursor.kind()) {
        cursor.advance();
        return Ok(Turn::Done(so_far));
    }
    if is_punct(punct::ELLIPSIS, cursor.kind()) {
        return list_ended(state, cursor, so_far);
    }
    Err(Stop::Fault(cursor.refused()?))
}

// `void` alone means no parameter (8.3.5).
fn is_void_list(cursor: &Cursor<'_>) -> bool
    ensures { result ≡ definition.is_void_list cursor.now }
{
    is_keyword(keyword::VOID, cursor.kind())
        && is_punct(punct::RIGHT_PARENTHESIS, cursor.kind_behind())
}

// An ellipsis alone.
#[tactic(auto, using(cxx_cursor::proofs::Kept::later_refl), unfolding(cxx_reading::specs::Syntax::list_ended))]
fn ellipsis_alone(
    state: &State,
    cursor: &mut Cursor<'_>,
    so_far: ParameterTypes,
) -> Result<ParameterTypes, Stop>
    requires { AreParameters state.now so_far }
    ensures { IsRead parameters_of AreParameters state.now state.now cursor.new result (ellipsis_alone_at (parameters_of state.now so_far) (meaning state.now) cursor.old) }
{
    match list_ended(state, cursor, so_far)? {
        Turn::More(list) => Ok(list),
        Turn::Done(list) => Ok(list),
    }
}

// The default argument, where one stands behind a parameter (8.3.6).
#[tactic(auto, using(cxx_cursor::proofs::Kept::later_trans, cxx_cursor::proofs::Kept::later_refl), unfolding(cxx_reading::specs::Syntax::default_at))]
fn default_at<D: Defaults>(
    defaults: &D,
    state: &mut State,
    cursor: &mut Cursor<'_>,
    index: usize,
    of: TypeId,
) -> Result<TreeIdList, Stop>
    requires open { D.is_open defaults.now }
    requires known { of.0 < length (state.old).types }
    ensures { IsRead trees_held AreTreesHeld state.old state.new cursor.new result (definition.default_at (D.fallback_by defaults.now) index (type_of state.old of) (meaning state.old) cursor.old) }
{
    if is_punct(punct::EQUALS, cursor.kind()) {
        return defaults.fallback(state, cursor, index, of);
    }
    Ok(Listed::new(cursor.alloc()))
}

// The index of the parameter that joins a list.
#[tactic(auto, using(crate::proofs::Longer::types_counted))]
fn next_index(state: &State, so_far: &ParameterTypes) -> usize
    ensures { result ≡ length (parameters_of state.now so_far.now).types }
{
    let _ = state;
    so_far.types.len()
}

// A parameter that is declared, with what is read behind it.
#[tactic(auto, using(cxx_cursor::proofs::Kept::trees_kept, cxx_cursor::proofs::Kept::trees_later, cxx_cursor::proofs::Kept::types_kept, cxx_cursor::proofs::Kept::types_later, cxx_cursor::proofs::Kept::type_kept, cxx_cursor::proofs::Kept::type_later, cxx_cursor::proofs::Kept::named_kept, cxx_cursor::proofs::Kept::named_later, cxx_cursor::proofs::Kept::layers_kept, cxx_cursor::proofs::Kept::layers_later, cxx_cursor::proofs::Kept::later_trans, cxx_cursor::proofs::Kept::later_refl), unfolding(crate::specs::Parameters::parameter_behind))]
fn parameter_behind<D: Defaults>(
    defaults: &D,
    state: &mut State,
    cursor: &mut Cursor<'_>,
    from: &Cursor<'_>,
    specifiers: Specifiers,
    declarator: Declarator,
    of: TypeId,
    so_far: ParameterTypes,
) -> Result<ParameterTypes, Stop>
    requires open { D.is_open defaults.now }
    requires specifiers { AreSpecifiers state.old specifiers }
    requires declarator { IsDeclarator state.old declarator }
    requires known { of.0 < length (state.old).types }
    requires list { AreParameters state.old so_far }
    ensures { IsRead parameters_of AreParameters state.old state.new cursor.new result (parameter_behind_by (D.fallback_by defaults.now) from.now cursor.old (specifiers_of state.old specifiers) (declarator_of state.old declarator) (type_of state.old of) (parameters_of state.old so_far) (meaning state.old) cursor.old) }
{
    let to = cursor.mark();
    let index = next_index(state, &so_far);
    let default = default_at(defaults, state, cursor, index, of)?;
    parameter_added(
        state, cursor, &to, from, specifiers, declarator, of, default, so_far,
    )
}

impl<K: Kinds, N: Nested> Reader<'_, K, N> {
    // A parameter whose specifiers and declarator were read is declared before what follows is looked at (3.3.1).
    #[tactic(auto, using(cxx_cursor::proofs::Kept::trees_kept, cxx_cursor::proofs::Kept::trees_later, cxx_cursor::proofs::Kept::types_kept, cxx_cursor::proofs::Kept::types_later, cxx_cursor::proofs::Kept::type_kept, cxx_cursor::proofs::Kept::type_later, cxx_cursor::proofs::Kept::named_kept, cxx_cursor::proofs::Kept::named_later, cxx_cursor::proofs::Kept::layers_kept, cxx_cursor::proofs::Kept::layers_later, cxx_cursor::proofs::Kept::later_trans, cxx_cursor::proofs::Kept::later_refl), unfolding(crate::specs::Parameters::parameter_declared))]
    fn parameter_declared<D: Defaults>(
        &self,
        state: &mut State,
        cursor: &mut Cursor<'_>,
        defaults: &D,
        from: &Cursor<'_>,
        specifiers: Specifiers,
        declarator: Declarator,
        so_far: ParameterTypes,
    ) -> Result<ParameterTypes, Stop>
        requires specifiers { AreSpecifiers state.old specifiers }
        requires declarator { IsDeclarator state.old declarator }
        requires known { AreParameters state.old so_far }
        requires ready { K.is_ready self.now.kinds.now }
        requires default { D.is_open defaults.now }
        ensures { IsRead parameters_of AreParameters state.old state.new cursor.new result (parameter_declared_by (K.asks self.now.kinds.now self.now.room) (D.fallback_by defaults.now) from.now (specifiers_of state.old specifiers) (declarator_of state.old declarator) (parameters_of state.old so_far) (meaning state.old) cursor.old) }
    {
        let of = parameter_typed(state, cursor, &specifiers, &declarator)?;
        let place = place_of(cursor.last(), &declarator.name);
        self.kinds
            .parameter(state, &declarator.name, place, of, self.room)?;
        parameter_behind(
            defaults, state, cursor, from, specifiers, declarator, of, so_far,
        )
    }

    // A parameter (8.3.5).
    #[tactic(auto, using(cxx_cursor::proofs::Kept::trees_kept, cxx_cursor::proofs::Kept::trees_later, cxx_cursor::proofs::Kept::types_kept, cxx_cursor::proofs::Kept::types_later, cxx_cursor::proofs::Kept::named_kept, cxx_cursor::proofs::Kept::named_later, cxx_cursor::proofs::Kept::later_trans, cxx_cursor::proofs::Kept::later_refl), unfolding(cxx_reading::specs::Syntax::parameter_at, crate::specs::Parameters::parameter_declared, crate::specs::Parameters::parameter_behind, crate::specs::Parameters::parameter_typed))]
    fn parameter_at<D: Defaults>(
        &self,
        state: &mut State,
        cursor: &mut Cursor<'_>,
        defaults: &D,
        so_far: ParameterTypes,
    ) -> Result<ParameterTypes, Stop>
        requires known { AreParameters state.old so_far }
        requires ready { K.is_ready self.now.kinds.now }
        requires default { D.is_open defaults.now }
        requires open { N.is_open self.now.nested.now }
        ensures { IsRead parameters_of AreParameters state.old state.new cursor.new result (definition.parameter_at (K.asks self.now.kinds.now self.now.room) (D.fallback_by defaults.now) (N.inner self.now.nested.now) (parameters_of state.old so_far) (meaning state.old) cursor.old) }
    {
        let from = cursor.mark();
        let specifiers = self.specifiers_at(state, cursor, SpecifierPlace::Parameter)?;
        let declarator = self.declarator_at(state, cursor, Naming::Either)?;
        self.parameter_declared(
            state, cursor, defaults, &from, specifiers, declarator, so_far,
        )
    }

    // A parameter, and what separates it from the next.
    #[tactic(auto, using(cxx_cursor::proofs::Kept::later_trans, cxx_cursor::proofs::Kept::later_refl), unfolding(cxx_reading::specs::Syntax::parameter_step))]
    fn parameter_step<D: Defaults>(
        &self,
        state: &mut State,
        cursor: &mut Cursor<'_>,
        defaults: &D,
        so_far: ParameterTypes,
    ) -> Result<Turn<ParameterTypes, ParameterTypes>, Stop>
        requires known { AreParameters state.old so_far }
        requires ready { K.is_ready self.now.kinds.now }
        requires default { D.is_open defaults.now }
        requires open { N.is_open self.now.nested.now }
        ensures { IsRead parameters_turn IsParametersTurn state.old state.new cursor.new result (definition.parameter_step (K.asks self.now.kinds.now self.now.room) (D.fallback_by defaults.now) (N.inner self.now.nested.now) (parameters_of state.old so_far) (meaning state.old) cursor.old) }
    {
        let list = self.parameter_at(state, cursor, defaults, so_far)?;
        parameter_ended(state, cursor, list)
    }

    // A parameter more than there may be: `auto` and `register` begin one too (7.1.1).
    #[tactic(auto, using(cxx_cursor::proofs::Kept::later_trans, cxx_cursor::proofs::Kept::later_refl), unfolding(cxx_reading::specs::Syntax::parameters_over))]
    fn parameters_over(
        &self,
        state: &mut State,
        cursor: &Cursor<'_>,
        so_far: ParameterTypes,
    ) -> Result<ParameterTypes, Stop>
        requires ready { K.is_ready self.now.kinds.now }
        ensures { IsRead parameters_of AreParameters state.old state.new cursor.now result (definition.parameters_over (K.asks self.now.kinds.now self.now.room) (parameters_of state.old so_far) (meaning state.old) cursor.now) }
    {
        let kind = cursor.kind();
        if is_keyword(keyword::AUTO, kind) || is_keyword(keyword::REGISTER, kind) {
            return Err(Stop::Limit(LimitKind::Arguments));
        }
        if self.begins_type(state, cursor)? {
            return Err(Stop::Limit(LimitKind::Arguments));
        }
        Err(Stop::Fault(cursor.refused()?))
    }

    // One parameter after another.
    #[tactic(auto, using(cxx_cursor::proofs::Loops::turn, cxx_cursor::proofs::Loops::no_turn, cxx_cursor::proofs::Kept::later_trans, cxx_cursor::proofs::Kept::later_refl), unfolding(cxx_reading::specs::Syntax::some_parameters))]
    fn some_parameters<D: Defaults>(
        &self,
        state: &mut State,
        cursor: &mut Cursor<'_>,
        defaults: &D,
        scope: ScopeId,
    ) -> Result<ParameterTypes, Stop>
        requires ready { K.is_ready self.now.kinds.now }
        requires default { D.is_open defaults.now }
        requires open { N.is_open self.now.nested.now }
        ensures { IsRead parameters_of AreParameters state.old state.new cursor.new result (definition.some_parameters (K.asks self.now.kinds.now self.now.room) (D.fallback_by defaults.now) (N.inner self.now.nested.now) scope.0 (meaning state.old) cursor.old) }
    {
        let mut so_far = no_parameters_yet(cursor.alloc(), scope);
        for _turn in 0..MOST_ARGUMENTS {
            match self.parameter_step(state, cursor, defaults, so_far)? {
                Turn::More(next) => so_far = next,
                Turn::Done(all) => return Ok(all),
            }
        }
        self.parameters_over(state, cursor, so_far)
    }

    // The parameters of a list, with its end.
    #[tactic(auto, using(cxx_cursor::proofs::Kept::later_trans, cxx_cursor::proofs::Kept::later_refl), unfolding(cxx_reading::specs::Syntax::list_at))]
    fn list_at<D: Defaults>(
        &self,
        state: &mut State,
        cursor: &mut Cursor<'_>,
        defaults: &D,
        scope: ScopeId,
    ) -> Result<ParameterTypes, Stop>
        requires ready { K.is_ready self.now.kinds.now }
        requires default { D.is_open defaults.now }
        requires open { N.is_open self.now.nested.now }
        ensures { IsRead parameters_of AreParameters state.old state.new cursor.new result (definition.list_at (K.asks self.now.kinds.now self.now.room) (D.fallback_by defaults.now) (N.inner self.now.nested.now) scope.0 (meaning state.old) cursor.old) }
    {
        if is_punct(punct::RIGHT_PARENTHESIS, cursor.kind()) {
            cursor.advance();
            return Ok(no_parameters_yet(cursor.alloc(), scope));
        }
        if is_void_list(cursor) {
            cursor.advance();
            cursor.advance();
            return Ok(no_parameters_yet(cursor.alloc(), scope));
        }
        if is_punct(punct::ELLIPSIS, cursor.kind()) {
            let list = no_parameters_yet(cursor.alloc(), scope);
            return ellipsis_alone(state, cursor, list);
        }
        self.some_parameters(state, cursor, defaults, scope)
    }

    /// A list of parameters behind its `(`, with the end (8.3.5). A limit is that of parameters.
    #[tactic(auto, using(cxx_cursor::proofs::Kept::trees_kept, cxx_cursor::proofs::Kept::trees_later, cxx_cursor::proofs::Kept::types_kept, cxx_cursor::proofs::Kept::types_later, cxx_cursor::proofs::Kept::later_trans, cxx_cursor::proofs::Kept::later_refl), unfolding(cxx_reading::specs::Syntax::parameters_at))]
    pub fn parameters_at<D: Defaults>(
        &self,
        state: &mut State,
        cursor: &mut Cursor<'_>,
        defaults: &D,
    ) -> Result<ParameterTypes, Stop>
        requires ready { K.is_ready self.now.kinds.now }
        requires default { D.is_open defaults.now }
        requires open { N.is_open self.now.nested.now }
        ensures { IsRead parameters_of AreParameters state.old state.new cursor.new result (definition.parameters_at (K.asks self.now.kinds.now self.now.room) (D.fallback_by defaults.now) (N.inner self.now.nested.now) (meaning state.old) cursor.old) }
    {
        let scope = self.kinds.enter_parameters(state, self.room)?;
        let list = self.list_at(state, cursor, defaults, scope)?;
        self.kinds.leave_parameters(state, self.room)?;
        Ok(list)
    }
}
