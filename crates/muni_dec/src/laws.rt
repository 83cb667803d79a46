//! Laws of the readings of decimals and of whole numbers, in the words of their formats.

ghost use Rattle.muni_dec.specs.FaultPlaces.{TellsDecimalFaults, TellsSignedFaults, ReadsDigits, TellsDigitFaults};
ghost use Rattle.muni_dec.specs.Grammar.{ReadsDecimals, ReadsSigned};
ghost use Rattle.muni_dec.specs.Numbers.{ReadsNumbers};
ghost use Rattle.muni_dec.specs.RoundTrip.{DecimalsAreReadAgain, SignedAreReadAgain, DigitsAreReadAgain};

/// Exactly the texts of each format are read, each as the number that it writes. The definitions are
/// those that the contracts of the readers cite.
pub fn reads_the_format()
    // promise 4: the definition of a decimal is its format, in words of its own
    ensures unsigned { ReadsDecimals }
    // promise 4: so with a sign
    ensures signed { ReadsSigned }
    // promise 4: so of digits
    ensures digits { ReadsDigits }
    // promise 4: so of whole numbers
    ensures numbers { ReadsNumbers }
{}

/// Each fault names the first place whose byte continues no text of the format.
pub fn faults_are_where_the_format_is_left()
    // promise 4: a fault is at the first byte that continues no text of the format
    ensures unsigned { TellsDecimalFaults }
    // promise 4: so with a sign
    ensures signed { TellsSignedFaults }
    // promise 4: so of digits
    ensures digits { TellsDigitFaults }
{}

/// What is written with all its places is read again as the same number.
pub fn what_is_written_is_read_again()
    // promise 1: what is written of a decimal is read again as itself
    ensures unsigned { DecimalsAreReadAgain }
    // promise 2: so with a sign
    ensures signed { SignedAreReadAgain }
    // promise 1: so of digits
    ensures digits { DigitsAreReadAgain }
{}
