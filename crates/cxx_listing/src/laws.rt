//! What a reader expects of a listing, as contracts of functions that do nothing.
ghost use Rattle.cxx_language_laws.specs.Best.{EachCallIsBest};
ghost use Rattle.cxx_listing.specs.Listing.{AreListed};
ghost use Rattle.cxx_reading.specs.Units.{CxxReading};

/// Where each call of a reading is the best, as it is in every reading, the lines of each listed call speak of each of its
/// candidates once: the first of the chosen one, and every other line of another one with its outcome.
pub fn calls_are_listed()
    ensures { (reading : CxxReading) → EachCallIsBest reading → AreListed reading.state }
{}
