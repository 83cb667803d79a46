//! What is said of a row.

ghost use Rattle.std.specs.Prelude.{◌≡◌};
ghost use Rattle.muni_check_rows.specs.Line.{HasName};
ghost use Rattle.muni_check_rows.specs.Said as spec;

use crate::other::OtherTerm;
use muni_import::RowFault;
use muni_msg::{Figures, Reference, Refusal};
use muni_readings::{Checked, Field, Reading, Stated};
use muni_terms::Boundary;

/// What is said of a row.
#[derive(Drop)]
pub enum CheckSaid {
    /// Each stated figure is that of the rule.
    Right,
    /// This is the first stated figure that is not, with the right figures and the reading that gives it, if one does.
    Differs {
        field: Field,
        figures: Figures,
        stated: Stated,
        reading: Option<Reading>,
    },
    /// This is the first stated term of a trade or of its issue that is not the kept one.
    OtherTerm(OtherTerm),
    /// The rule leaves this figure undecided.
    Undecided {
        field: Field,
    },
    /// No figures can be had, by the refusal with this number.
    Refused {
        number: u32,
    },
    /// Nothing is kept under this reference, or the trade is canceled.
    Missing {
        reference: Reference,
    },
    /// The reference stands in an earlier row, whose place this is.
    Again {
        first: u64,
    },
    /// It states no figure, and a row of a trade nothing of the trade either.
    Nothing,
    /// It does not read.
    Bad(RowFault),
}

/// What is said if no figures can be had.
pub fn refused_said(refusal: &Refusal) -> CheckSaid
    ensures said { result ≡ spec.refused_said refusal.now }
    ensures name { HasName result }
{
    match refusal {
        Refusal::Undecided { boundary, .. } => CheckSaid::Undecided {
            field: undecided_field(*boundary),
        },
        other => CheckSaid::Refused {
            number: other.number(),
        },
    }
}

fn undecided_field(boundary: Boundary) -> Field
    ensures { result ≡ spec.undecided_field boundary }
{
    match boundary {
        Boundary::Price(_) => Field::Price,
        Boundary::Yield(_) => Field::Yield,
    }
}

/// What is said of stated figures beside the right ones.
pub fn compared_said(figures: &Figures, stated: &Stated, checked: Checked) -> CheckSaid
    ensures said { result ≡ spec.compared_said figures.now stated.now checked }
    ensures name { HasName result }
{
    match checked {
        Checked::Right => CheckSaid::Right,
        Checked::Differs { field, reading } => CheckSaid::Differs {
            field,
            figures: *figures,
            stated: *stated,
            reading,
        },
    }
}
