//! Laws: what days are, and which texts name them.

ghost use Rattle.muni_days.specs.Laws.{DaysAreReal, DaysAreDates, DaysAreInOrder, ReadsDays, RefusesOtherForms, RefusesOtherDates};

/// A law: every day is one of the calendar, days of one year, month and day are one day, and days
/// are ordered by date.
pub fn days_are_their_dates()
    ensures real { DaysAreReal }
    // promise 10: days of one date are one value
    ensures same { DaysAreDates }
    // promise 10: days are in the order of their dates
    ensures order { DaysAreInOrder }
{}

/// A law: a text is read as a day exactly if it is the ten bytes of that day.
///
/// Any other text is refused. If it is not four digits, a dash, two digits, a dash and two digits,
/// the fault is that of the form, and otherwise that it is no day.
pub fn days_are_read_as_they_are_written()
    // promise 4: the definition of a date is its format: what is written is read
    ensures days { ReadsDays }
    // promise 4: a text of another form is refused at the first byte that leaves it
    ensures form { RefusesOtherForms }
    // promise 4: a date that is none in the calendar is refused
    ensures calendar { RefusesOtherDates }
{}
