//! Issues: their checked terms, their quasi-coupon dates, and the payments after a settlement.
#![tactic(auto)]

mod accrued;
mod checks;
mod cusip;
mod disclosure;
mod flows;
mod issue;
mod quasi_dates;
mod row;

pub use accrued::{days_to, half_year_interest, interest};
pub use cusip::is_cusip;
pub use disclosure::Boundary;
pub use flows::{Flows, flows_are_in_range};
pub use issue::{Issue, check};
pub use muni_rule::{CallTerm, Label};
pub use quasi_dates::half_years_on;
pub use row::{Call, IssueRow, Kind, TermsFault};
