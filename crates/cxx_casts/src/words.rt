//! The cv words that a cast keeps (5.2.11).
ghost use Rattle.std.specs.Prelude.{◌≡◌, ◌<◌, ◌∷◌, length};
ghost use Rattle.cxx_model.specs.Types.Numbers.{type_at};
ghost use Rattle.cxx_meaning.specs.Conversions.Casts as casts;
ghost use Rattle.cxx_meaning.specs.Conversions.Kinds.{cv_of as cv_of_type, signature};

use cxx_model::TypeId;
use cxx_standard::{cv_of, is_cv_within, pointee, same_cv};
use cxx_types::TypeTable;

fn keeps_words(types: &TypeTable, const_above: bool, one: TypeId, two: TypeId) -> bool
    requires one_known { one.0 < length types.now }
    requires two_known { two.0 < length types.now }
    ensures { result ≡ casts.keeps_words const_above (cv_of_type (type_at types.now one.0) ∷ signature (type_at types.now one.0)) (cv_of_type (type_at types.now two.0) ∷ signature (type_at types.now two.0)) }
{
    let from = cv_of(types, one);
    let to = cv_of(types, two);
    is_cv_within(from, to)
        && ((same_cv(from, to) || const_above)
            && match pointee(types, one) {
                Some(inner) => match pointee(types, two) {
                    Some(other) => keeps_words(types, const_above && to.is_const, inner, other),
                    None => true,
                },
                None => true,
            })
}

/// Whether a pointer to one type keeps its words as a pointer to the other.
pub(crate) fn keeps_cv(types: &TypeTable, one: TypeId, two: TypeId) -> bool
    requires one_known { one.0 < length types.now }
    requires two_known { two.0 < length types.now }
    ensures { result ≡ casts.keeps_cv (type_at types.now one.0) (type_at types.now two.0) }
{
    keeps_words(types, true, one, two)
}
