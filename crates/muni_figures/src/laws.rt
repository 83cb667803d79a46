//! Laws of figures, over every input.

ghost use Rattle.muni_figures.specs.Laws.{InputsHaveOneText, LinesGoOn, SensitivitiesOnlyFollow};

/// A law of the definitions: without sensitivities an input over given tables has one text. So what is written does not depend
/// on how many workers there are, nor on how the input is cut into blocks.
pub fn inputs_have_one_text()
    // promise 3: without --risk an input over given tables has one text, however many workers there are
    ensures { InputsHaveOneText }
{}

/// A law of the definitions: an input that is cut at a line end has the lines of its first part and then
/// those of its second, if the places of the second go on after those of the first. The totals add up.
pub fn lines_go_on()
    // promise 3: an input that is cut at a line end has the lines of both parts, and the total of both
    ensures { LinesGoOn }
{}

/// A law of the definitions: if sensitivities are asked for, their columns follow those that a row has without
/// them, and a refused row has no more columns.
pub fn sensitivities_only_follow()
    // promise 1: the columns of --risk follow what a row has without it
    ensures { SensitivitiesOnlyFollow }
{}
