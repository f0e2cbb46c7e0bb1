//! What the spelling of strings side by side keeps.

ghost use Rattle.std.specs.Prelude.{◌≡◌, ℕ, List, Some, false};
ghost use Rattle.cxx_model.specs.declared.token.TokenKind.TheVariants as kind;
ghost use Rattle.cxx_model.specs.Text.Spelling.{Good, spelling_of};
ghost use Rattle.cxx_model.specs.Text.Tokens.{string_length};
ghost use Rattle.cxx_strings.specs.SideBySide.{side_by_side};

/// A text that is one string stays as it is.
pub fn one_string_stays()
    ensures { (text : List ℕ) → spelling_of false text ≡ Some (Good kind.Text) → side_by_side text ≡ text }
{}

/// No character of a string is lost or won.
pub fn each_string_is_counted()
    ensures { (text : List ℕ) → string_length (side_by_side text) ≡ string_length text }
{}

/// What has one space between two strings stays as it is.
pub fn spaced_once()
    ensures { (text : List ℕ) → side_by_side (side_by_side text) ≡ side_by_side text }
{}
