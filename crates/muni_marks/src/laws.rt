//! A law of marks, over every portfolio.

ghost use Rattle.muni_marks.specs.Laws.{PortfoliosHaveOneText};

/// A law of the definitions: a portfolio over given tables has one text. So what is written does not
/// depend on how many processors price its rows, nor on how the rows are dealt out to them.
pub fn portfolios_have_one_text()
    // promise 3: a portfolio over given tables has one text
    ensures { PortfoliosHaveOneText }
{}
