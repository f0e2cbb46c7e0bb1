//! Printed names.

ghost use Rattle.std.specs.Prelude.{◌≡◌, ◌≢◌, ◌<◌, ◌^◌, ℕ, List, [], ◌∷◌, length};
ghost use Rattle.cxx_model.specs.Printing.Names.{stem, printed_name};
ghost use Rattle.cxx_written.specs.Line.{IsName};

/// The stem of a printed name is the stem of the name: digits are not added twice.
pub fn printed_name_keeps_its_stem()
    ensures { (n : ℕ) (word : List ℕ) → n < 2 ^ 64 → stem (printed_name n word) ≡ stem word }
{}

/// A name that is printed again gets its new number in place of the old one.
pub fn printed_name_is_printed_over()
    ensures { (m n : ℕ) (word : List ℕ) → m < 2 ^ 64 → printed_name n (printed_name m word) ≡ printed_name n word }
{}

/// A name that is printed is a name: no keyword, and no word that is an operator.
pub fn printed_name_is_a_name()
    ensures { (n : ℕ) (word : List ℕ) → n < 2 ^ 64 → IsName word → IsName (printed_name n word) }
{}

/// Equal printed names have equal numbers.
pub fn printed_name_gives_its_number()
    ensures { (m n : ℕ) (one two : List ℕ) → m < 2 ^ 64 → n < 2 ^ 64 → printed_name m one ≡ printed_name n two → m ≡ n }
{}

/// Equal printed names have equal stems.
pub fn printed_name_gives_its_stem()
    ensures { (m n : ℕ) (one two : List ℕ) → m < 2 ^ 64 → n < 2 ^ 64 → printed_name m one ≡ printed_name n two → stem one ≡ stem two }
{}

/// A printed name is longer than one byte, so that it is not `L`, with which a wide literal begins.
pub fn printed_name_is_no_letter()
    ensures longer { (n : ℕ) (word : List ℕ) → n < 2 ^ 64 → 1 < length (printed_name n word) }
    ensures no_letter { (n b : ℕ) (word : List ℕ) → n < 2 ^ 64 → printed_name n word ≢ b ∷ [] }
{}
