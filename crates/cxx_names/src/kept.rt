ghost use Rattle.std.specs.Prelude.{◌≡◌, ◌++◌, List, [], OnOk, OnErr};
ghost use Rattle.std.specs.List.{slice_get};
ghost use Rattle.std.specs.Option.{option_to_list};
ghost use Rattle.cxx_names.specs.Clashes.{are_parameters_in, class_in, is_block_in, is_class_in, is_one_scope_in, holder_of_block as holder_of_a_block};
ghost use Rattle.cxx_names.specs.Filed.{row};
ghost use Rattle.cxx_names.specs.Index.{AreSameKept, HasKept, Keeps, same_class};
ghost use Rattle.cxx_names.specs.Looked.{is_open_in, is_space_in, outer_in};
ghost use Rattle.cxx_names.specs.declared.kept.Kept.{Kept as KeptBefore};

use crate::entry::{Entry, Noted, is_outermost};
use crate::filed::Filed;
use crate::spaces::Spaces;
use cxx_hash::Key;
use cxx_model::{ClassId, EnumId, FactId, OutOfMemory, ScopeId, ScopeKind};
use std::alloc::Global;

/// The scopes and the enumerations of a unit.
#[derive(Drop)]
pub(crate) struct Kept {
    pub(crate) scopes: Vec<Noted>,
    // The outermost blocks of functions that each scope holds.
    pub(crate) blocks: Filed<ScopeId, ScopeId>,
    // The scope of each enumeration, in order of their numbers.
    pub(crate) enumerations: Vec<ScopeId>,
    // The values of the enumerators of each enumeration.
    pub(crate) values: Filed<EnumId, i128>,
    // The scopes in which each class is declared.
    pub(crate) classes: Filed<ClassId, ScopeId>,
    // The scopes of each class (9.2).
    pub(crate) holders: Filed<ClassId, ScopeId>,
    // What each class befriends, by its declarations (11.4).
    pub(crate) friends: Filed<ClassId, FactId>,
    pub(crate) spaces: Spaces,
}

fn push_some<V: Copy>(values: &mut Vec<V>, one: Option<V>) -> Result<(), OutOfMemory>
    ensures more { OnOk result (values.new.items ≡ values.old.items ++ option_to_list one) }
    ensures same { OnErr result (values.new.items ≡ values.old.items) }
{
    if let Some(one) = one {
        values.push(one)?;
    }
    Ok(())
}

fn pop_some<V: Copy>(values: &mut Vec<V>, one: Option<V>)
    ensures { (before : List V) → values.old.items ≡ before ++ option_to_list one → values.new.items ≡ before }
{
    if one.is_some() {
        let _ = values.pop();
    }
}

impl Kept {
    pub(crate) fn new(alloc: Global, key: Key) -> Kept
        ensures { Keeps result [] }
    {
        Kept {
            scopes: Vec::new(alloc),
            blocks: Filed::new(alloc, key),
            enumerations: Vec::new(alloc),
            values: Filed::new(alloc, key),
            classes: Filed::new(alloc, key),
            holders: Filed::new(alloc, key),
            friends: Filed::new(alloc, key),
            spaces: Spaces::new(alloc, key),
        }
    }

    /// What is kept of a scope.
    pub(crate) fn noted(&self, scope: ScopeId) -> Option<Noted>
        ensures { result ≡ slice_get self.now.scopes.items scope.0 }
    {
        match self.scopes.get(scope.0 as usize) {
            Some(noted) => Some(*noted),
            None => None,
        }
    }

    /// The scope of an enumeration.
    pub(crate) fn scope_of(&self, number: EnumId) -> Option<ScopeId>
        ensures { result ≡ slice_get self.now.enumerations.items number.0 }
    {
        match self.enumerations.get(number.0 as usize) {
            Some(scope) => Some(*scope),
            None => None,
        }
    }

    /// The scope in which a class is declared first (9.1).
    pub(crate) fn scope_of_class(&self, class: ClassId) -> Option<ScopeId>
        ensures { result ≡ slice_get (row same_class self.now.classes.rows.entries class) 0 }
    {
        match self.classes.row(&class).get(0) {
            Some(scope) => Some(*scope),
            None => None,
        }
    }

    /// The scopes of a class, in order (9.2).
    pub(crate) fn scopes_of_class(&self, class: ClassId) -> &[ScopeId]
        ensures { result.now ≡ row same_class self.now.holders.rows.entries class }
    {
        self.holders.row(&class)
    }

    /// The declarations of what a class befriends, in order (11.4).
    pub(crate) fn friends_of_class(&self, class: ClassId) -> &[FactId]
        ensures { result.now ≡ row same_class self.now.friends.rows.entries class }
    {
        self.friends.row(&class)
    }

    /// Whether a scope is that of the parameters of a function (3.3.2).
    pub(crate) fn is_parameters(&self, scope: ScopeId) -> bool
        ensures { result ≡ are_parameters_in (slice_get self.now.scopes.items scope.0) }
    {
        match self.noted(scope) {
            Some(noted) => match noted.kind {
                ScopeKind::Parameters => true,
                _ => false,
            },
            None => false,
        }
    }

    /// Whether a scope is that of a namespace.
    pub(crate) fn is_space(&self, scope: ScopeId) -> bool
        ensures { result ≡ is_space_in (slice_get self.now.scopes.items scope.0) }
    {
        match self.noted(scope) {
            Some(noted) => match noted.kind {
                ScopeKind::Space => true,
                _ => false,
            },
            None => false,
        }
    }

    /// Whether a scope is that of no class and of no parameters (3.3.1).
    pub(crate) fn is_open(&self, scope: ScopeId) -> bool
        ensures { result ≡ is_open_in (slice_get self.now.scopes.items scope.0) }
    {
        match self.noted(scope) {
            Some(noted) => match noted.kind {
                ScopeKind::Class(_) => false,
                ScopeKind::Parameters => false,
                _ => true,
            },
            None => true,
        }
    }

    /// Whether a scope is that of a class.
    pub(crate) fn is_class(&self, scope: ScopeId) -> bool
        ensures { result ≡ is_class_in (slice_get self.now.scopes.items scope.0) }
    {
        match self.noted(scope) {
            Some(noted) => match noted.kind {
                ScopeKind::Class(_) => true,
                _ => false,
            },
            None => false,
        }
    }

    /// The class of which a scope is.
    pub(crate) fn class_of(&self, scope: ScopeId) -> Option<ClassId>
        ensures { result ≡ class_in (slice_get self.now.scopes.items scope.0) }
    {
        match self.noted(scope) {
            Some(noted) => match noted.kind {
                ScopeKind::Class(class) => Some(class),
                _ => None,
            },
            None => None,
        }
    }

    /// The scope that holds a scope, or that of the unit.
    pub(crate) fn outer(&self, scope: ScopeId) -> ScopeId
        ensures { result.0 ≡ outer_in (slice_get self.now.scopes.items scope.0) }
    {
        match self.noted(scope) {
            Some(noted) => noted.parent,
            None => ScopeId(0),
        }
    }

    // Whether a scope is the outermost block of a function whose parameters another scope has (3.3.2).
    fn is_block_of(&self, scope: ScopeId, other: ScopeId) -> bool
        ensures { result ≡ is_block_in self.now.scopes.items scope.0 other.0 }
    {
        match self.noted(scope) {
            Some(noted) => is_outermost(noted.kind)
                && (noted.parent.0 == other.0 && self.is_parameters(other)),
            None => false,
        }
    }

    /// Whether two scopes are one for the names that they declare (3.3.2).
    pub(crate) fn is_one_scope(&self, one: ScopeId, two: ScopeId) -> bool
        ensures { result ≡ is_one_scope_in self.now.scopes.items one.0 two.0 }
    {
        one.0 == two.0 || (self.is_block_of(one, two) || self.is_block_of(two, one))
    }

    /// The scope that holds a scope, where that is the outermost block of a function.
    pub(crate) fn holder_of_block(&self, scope: ScopeId) -> Option<ScopeId>
        ensures { option_to_list result ≡ holder_of_a_block (slice_get self.now.scopes.items scope.0) }
    {
        match self.noted(scope) {
            Some(noted) if is_outermost(noted.kind) => Some(noted.parent),
            _ => None,
        }
    }

    /// Keeps what is to be kept of one more fact. An `Err` changes nothing of what is kept.
    pub(crate) fn note(&mut self, one: Entry) -> Result<(), OutOfMemory>
        ensures noted { OnOk result (HasKept self.old self.new one) }
        ensures same { OnErr result (AreSameKept self.old self.new) }
    {
        push_some(&mut self.scopes, one.noted)?;
        if let Err(fault) = self.blocks.add(one.block) {
            pop_some(&mut self.scopes, one.noted);
            return Err(fault);
        }
        if let Err(fault) = self.values.add(one.value) {
            self.blocks.take_back(one.block);
            pop_some(&mut self.scopes, one.noted);
            return Err(fault);
        }
        if let Err(fault) = self.classes.add(one.class) {
            self.values.take_back(one.value);
            self.blocks.take_back(one.block);
            pop_some(&mut self.scopes, one.noted);
            return Err(fault);
        }
        if let Err(fault) = self.holders.add(one.holder) {
            self.classes.take_back(one.class);
            self.values.take_back(one.value);
            self.blocks.take_back(one.block);
            pop_some(&mut self.scopes, one.noted);
            return Err(fault);
        }
        if let Err(fault) = self.friends.add(one.friend) {
            self.holders.take_back(one.holder);
            self.classes.take_back(one.class);
            self.values.take_back(one.value);
            self.blocks.take_back(one.block);
            pop_some(&mut self.scopes, one.noted);
            return Err(fault);
        }
        if let Err(fault) = self.spaces.note(one.space) {
            self.friends.take_back(one.friend);
            self.holders.take_back(one.holder);
            self.classes.take_back(one.class);
            self.values.take_back(one.value);
            self.blocks.take_back(one.block);
            pop_some(&mut self.scopes, one.noted);
            return Err(fault);
        }
        if let Err(fault) = push_some(&mut self.enumerations, one.enumeration) {
            self.spaces.take_back(one.space);
            self.friends.take_back(one.friend);
            self.holders.take_back(one.holder);
            self.classes.take_back(one.class);
            self.values.take_back(one.value);
            self.blocks.take_back(one.block);
            pop_some(&mut self.scopes, one.noted);
            return Err(fault);
        }
        Ok(())
    }

    /// Takes back what was kept of the last fact.
    pub(crate) fn take_back(&mut self, one: Entry)
        ensures { (before : KeptBefore) → HasKept before self.old one → AreSameKept before self.new }
    {
        pop_some(&mut self.scopes, one.noted);
        self.blocks.take_back(one.block);
        self.values.take_back(one.value);
        self.classes.take_back(one.class);
        self.holders.take_back(one.holder);
        self.friends.take_back(one.friend);
        self.spaces.take_back(one.space);
        pop_some(&mut self.enumerations, one.enumeration);
    }
}
