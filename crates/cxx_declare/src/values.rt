//! The values of an enumeration (7.2).

ghost use Rattle.std.specs.Prelude.{◌≡◌, IfSome};
ghost use Rattle.std.specs.List.{slice_get};
ghost use Rattle.std.specs.Option.{option_copied};
ghost use Rattle.cxx_reading.specs.Declaring.{implicit_value, next_integer};

fn one_more(value: &i128) -> Option<i128>
    ensures { IfSome result (λ next. next ≡ next_integer value.now) }
{
    value.checked_add(1)
}

fn value_at(values: &[i128], index: usize) -> Option<&i128>
    ensures { option_copied result ≡ slice_get values.now index }
{
    values.get(index)
}

/// The value of an enumerator that has none of its own, where it is in range: no enumeration has greater values.
pub(crate) fn next_value(values: &[i128]) -> Option<i128>
    ensures { IfSome result (λ value. value ≡ implicit_value values.now) }
{
    let last = values.len().saturating_sub(1);
    match value_at(values, last) {
        None => Some(0),
        Some(last) => one_more(last),
    }
}
