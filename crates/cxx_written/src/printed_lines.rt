//! Words, lines of words, and their tokens.

ghost use Rattle.std.specs.Prelude.{◌≡◌, ℕ, List, Ok, map, true};
ghost use Rattle.std.specs.List.{AllByRecursion};
ghost use Rattle.cxx_model.specs.Text.Lexemes.{lexemes};
ghost use Rattle.cxx_model.specs.Text.Tokens.{tokens_of};
ghost use Rattle.cxx_model.specs.Printing.Written.{written};
ghost use Rattle.cxx_model.specs.declared.token.Token.{Token};
ghost use Rattle.cxx_reading.specs.Plain.{plain_text};
ghost use Rattle.cxx_reading.specs.Units.{CxxReading};
ghost use Rattle.cxx_reading.specs.Words.{Word};
ghost use Rattle.cxx_written.specs.Ends.{word_ends_before, are_apart};
ghost use Rattle.cxx_written.specs.Line.{MayStandBefore, IsSpelled, IsLine};
ghost use Rattle.cxx_written.specs.Printable.{IsPrintable, plain_lines};
ghost use Rattle.cxx_written.specs.ReadsAs.{ReadsAs, text_of, IsReadWord};

/// A word stands before each byte that the test by its kind lets through.
pub fn word_ends_before_a_byte()
    ensures { (word : Word) (b : ℕ) → IsSpelled word → word_ends_before word b ≡ true → MayStandBefore word b }
{}

/// Words may be printed in one line where each two neighbours have a gap between them, or the first ends before the
/// second.
pub fn apart_words_are_a_line()
    ensures { (words : List Word) → AllByRecursion IsSpelled words → are_apart words ≡ true → IsLine words }
{}

/// The tokens of the text of lines are the words of the lines.
pub fn words_are_tokens()
    ensures { (all : List (List Word)) → AllByRecursion IsLine all → ReadsAs (tokens_of (text_of all)) (text_of all) all }
{}

/// Each token that is read is spelled as what it is, but for strings, which may have been joined, and the end.
pub fn read_words_are_spelled()
    ensures { (bytes : List ℕ) (tokens : List Token) → tokens_of bytes ≡ Ok tokens → AllByRecursion IsReadWord (map written (lexemes bytes tokens)) }
{}

/// The tokens of the plain form of a reading are the words of its lines, wherever its names are names, its types and
/// values can be written and its literals are numbers or characters: no two words run together, and none falls apart.
pub fn plain_form_is_tokens()
    ensures { (reading : CxxReading) → IsPrintable reading → ReadsAs (tokens_of (plain_text reading)) (plain_text reading) (plain_lines reading) }
{}
