//! Ascending lists of numbers, each once.

ghost use Rattle.std.specs.Prelude.{◌≡◌, nat_eq, OnOk};
ghost use Rattle.std.specs.List.{list_any};
ghost use Rattle.cxx_meaning.specs.Lookups.Associated.{with_number, with_option};
ghost use Rattle.cxx_adl.specs.Places.{place_in};

use std::alloc::AllocError;

/// Whether a number stands in a list.
pub(crate) fn is_among(numbers: &[u32], number: u32) -> bool
    ensures { result ≡ list_any (nat_eq number) numbers.now }
{
    for other in numbers {
        if number == *other {
            return true;
        }
    }
    false
}

// The place of the first number that is not before this one.
fn place_of(numbers: &[u32], number: u32) -> usize
    ensures { result ≡ place_in number numbers.now }
{
    let mut place = 0;
    for other in numbers {
        if *other >= number {
            return place;
        }
        place += 1;
    }
    place
}

// Adds a number in its place, where it is not there yet.
fn add_number(numbers: &mut Vec<u32>, number: u32) -> Result<(), AllocError>
    ensures { OnOk result (numbers.new.items ≡ with_number number numbers.old.items) }
{
    let place = place_of(numbers, number);
    if place == numbers.len() {
        numbers.push(number)?;
    } else if numbers[place] != number {
        numbers.insert(place, number)?;
    }
    Ok(())
}

/// Adds a number in its place, where there is one that is not there yet.
pub fn add_option(numbers: &mut Vec<u32>, number: Option<u32>) -> Result<(), AllocError>
    ensures { OnOk result (numbers.new.items ≡ with_option number numbers.old.items) }
{
    match number {
        Some(number) => add_number(numbers, number),
        None => Ok(()),
    }
}
