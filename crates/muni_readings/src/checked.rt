//! What is said of stated figures.

ghost use Rattle.std.specs.Prelude.{◌≡◌, ◌↔◌, None, Ok};
ghost use Rattle.muni_answer.specs.Answers.{IsRightAnswer};
ghost use Rattle.muni_readings.specs.Checked.{IsFirstReading, NamesReading, field_of};
ghost use Rattle.muni_readings.specs.Stated as spec;

use crate::stated::first_difference;
use crate::{Answered, Field, Reading, Stated, figures_by};
use muni_edge::Gate;
use muni_msg::Figures;
use muni_multi::Encloser;
use muni_sched::{Calculator, Schedule};
use std::thread::Threads;

/// What is said of stated figures.
#[derive(Clone, Copy, Debug, PartialEq, Eq)]
pub enum Checked {
    /// Each of them is that of the rule.
    Right,
    /// This is the first field in which they differ from those of the rule, and the first reading that gives the
    /// stated figure, if one does.
    Differs {
        field: Field,
        reading: Option<Reading>,
    },
}

/// Says whether stated figures are those of the rule.
pub fn check_figures<R: Threads + Sync, E: Encloser + Sync, G: Gate + Sync>(
    calculator: &Calculator<'_, R, E, G>,
    answered: &Answered<'_>,
    stated: &Stated,
    schedule: &mut Schedule,
) -> Checked
    // promise 6: figures are right exactly if each that is stated is the rule's
    ensures right { (result ≡ Checked.Right)
        ↔ (spec.first_difference answered.now.figures.now stated.now ≡ None) }
    // promise 6: else the first in order is named that is not
    ensures field { field_of result
        ≡ spec.first_difference answered.now.figures.now stated.now }
    // promise 6: with the first formula that gives just the stated figure
    ensures reading { IsRightAnswer (E.ends calculator.now.encloser.now) answered.now.issue.now
        answered.now.asked.now (Ok answered.now.figures.now)
        → NamesReading (E.ends calculator.now.encloser.now) answered.now.issue.now
        answered.now.asked.now answered.now.figures.now stated.now result }
{
    match first_difference(answered.figures, stated) {
        Some(field) => Checked::Differs {
            field,
            reading: reading_of(calculator, answered, field, stated, schedule),
        },
        None => Checked::Right,
    }
}

/// The first reading by which a field has the stated figure. None if no reading gives it, or if the field is not
/// stated.
pub fn reading_of<R: Threads + Sync, E: Encloser + Sync, G: Gate + Sync>(
    calculator: &Calculator<'_, R, E, G>,
    answered: &Answered<'_>,
    field: Field,
    stated: &Stated,
    schedule: &mut Schedule,
) -> Option<Reading>
    // promise 6: the first formula that gives a stated figure
    ensures { IsRightAnswer (E.ends calculator.now.encloser.now) answered.now.issue.now
        answered.now.asked.now (Ok answered.now.figures.now)
        → IsFirstReading (E.ends calculator.now.encloser.now) answered.now.issue.now
        answered.now.asked.now answered.now.figures.now field stated.now result }
{
    for reading in Reading::ALL {
        let theirs = figures_by(calculator, answered, reading, schedule);
        if is_given(theirs, field, stated) {
            return Some(reading);
        }
    }
    None
}

fn is_given(theirs: Option<Figures>, field: Field, stated: &Stated) -> bool
    ensures { result ≡ spec.is_given theirs field stated.now }
{
    match theirs {
        Some(figures) => is_same(field.is_as_stated(&figures, stated)),
        None => false,
    }
}

fn is_same(same: Option<bool>) -> bool
    ensures { result ≡ spec.is_same same }
{
    match same {
        Some(same) => same,
        None => false,
    }
}
