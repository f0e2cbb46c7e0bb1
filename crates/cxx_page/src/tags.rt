ghost use Rattle.std.specs.Prelude.{◌≡◌};
ghost use Rattle.cxx_page.specs.Views.{text_or_none};
ghost use Rattle.std.specs.List.{slice_get};

use cxx_model::{Listed, Text};

/// The printed names of classes and enumerations, by their numbers.
#[derive(Drop)]
pub struct Tags {
    pub classes: Listed<Text>,
    pub enumerations: Listed<Text>,
}

/// The text with a number, and where there is none, nothing.
pub(crate) fn text_at(texts: &[Text], number: u32) -> &[u8]
    ensures { result.now ≡ text_or_none (slice_get texts.now number) }
{
    match texts.get(number as usize) {
        Some(text) => text.as_slice(),
        None => &[],
    }
}
