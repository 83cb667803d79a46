//! Laws: what the words of a command line say.

ghost use Rattle.muni_desk.specs.FieldLaws.{CallFieldsAreRead, FeeFieldsAreRead};
ghost use Rattle.muni_desk.specs.WordLaws.{NamesAreApart, ReadsCommandLines, RefusesOtherWords};

/// A law: words are read as a command line exactly if they say it in the words of its rule.
pub fn words_are_read_by_the_rule()
    // promise 4: which words are a command
    ensures line { ReadsCommandLines }
    // promise 4: other words are none
    ensures refused { RefusesOtherWords }
    // promise 4: the names of commands and options are apart
    ensures apart { NamesAreApart }
{}

/// A law: which texts a row may have in its columns of calls and of the commission, and what they say.
pub fn fields_are_read_by_the_rule()
    // promise 4: the column of calls is read exactly by its format: 40 at most, one blank between two
    ensures calls { CallFieldsAreRead }
    // promise 4: so is that of the commission; empty is no call, or a commission of 0
    ensures fee { FeeFieldsAreRead }
{}
