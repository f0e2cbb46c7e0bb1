ghost use Rattle.std.specs.Prelude.{◌≡◌, List, ℤ};
ghost use Rattle.cxx_model.specs.declared.base.Base.TheVariants as base;
ghost use Rattle.cxx_model.specs.Types.Integral.{holds, one_holds, promoted_of_values};
ghost use Rattle.cxx_graph.specs.Kept.{all_hold, holders_of, with_value};

use cxx_model::Base;

/// Which of the types to which an enumeration may be promoted hold its values (4.5).
#[derive(Clone, Copy)]
pub(crate) struct Holders {
    pub(crate) int: bool,
    pub(crate) unsigned: bool,
    pub(crate) long: bool,
    pub(crate) unsigned_long: bool,
}

fn int_holds(value: i128) -> bool
    ensures { result ≡ holds base.Int value }
{
    value >= -0x8000_0000 && value < 0x8000_0000
}

fn unsigned_holds(value: i128) -> bool
    ensures { result ≡ holds base.Unsigned value }
{
    value >= 0 && value < 0x1_0000_0000
}

fn long_holds(value: i128) -> bool
    ensures { result ≡ holds base.Long value }
{
    value >= -0x8000_0000_0000_0000 && value < 0x8000_0000_0000_0000
}

fn unsigned_long_holds(value: i128) -> bool
    ensures { result ≡ holds base.UnsignedLong value }
{
    value >= 0 && value < 0x1_0000_0000_0000_0000
}

impl Holders {
    /// Of no values.
    pub(crate) fn all() -> Holders
        ensures { result ≡ all_hold }
    {
        Holders {
            int: true,
            unsigned: true,
            long: true,
            unsigned_long: true,
        }
    }

    /// Of one more value.
    pub(crate) fn with(self, value: i128) -> Holders
        ensures { result ≡ with_value self value }
    {
        Holders {
            int: self.int && int_holds(value),
            unsigned: self.unsigned && unsigned_holds(value),
            long: self.long && long_holds(value),
            unsigned_long: self.unsigned_long && unsigned_long_holds(value),
        }
    }

    /// Whether one of the types holds the values.
    pub(crate) fn any(self) -> bool
        ensures { (values : List ℤ) → self ≡ holders_of values → result ≡ one_holds values }
    {
        self.int || (self.unsigned || (self.long || self.unsigned_long))
    }

    /// The first of the types.
    pub(crate) fn promoted(self) -> Option<Base>
        ensures { (values : List ℤ) → self ≡ holders_of values → result ≡ promoted_of_values values }
    {
        if self.int {
            Some(Base::Int)
        } else if self.unsigned {
            Some(Base::Unsigned)
        } else if self.long {
            Some(Base::Long)
        } else if self.unsigned_long {
            Some(Base::UnsignedLong)
        } else {
            None
        }
    }
}
