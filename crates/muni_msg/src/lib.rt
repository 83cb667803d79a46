//! What the desk is asked, what it answers, and why it refuses, as plain values.
#![tactic(auto)]

mod asked;
mod calls;
mod codes;
mod column;
mod command;
mod desk_limit;
mod each;
mod fields;
mod figures;
mod issue_fields;
mod names;
mod refusal;
mod shown;
mod version;

pub use asked::{Asked, Given, Side, Terms};
pub use calls::read_calls;
pub use codes::{basis_code, basis_of_code, kind_code, label_code, label_of_code};
pub use column::Column;
pub use command::{Command, Key, Line, Reply};
pub use desk_limit::DeskLimit;
pub use each::{EachFigure, EachRedemption};
pub use fields::{
    read_basis, read_basis_field, read_call, read_call_price, read_fee_field, read_given,
    read_kind, read_side, read_version_number,
};
pub use figures::Figures;
pub use issue_fields::{read_coupon, read_cusip, read_issue_name};
pub use names::{DeskName, NameFault, Reference};
pub use refusal::{Range, Refusal, refusal_name};
pub use shown::Shown;
pub use version::{Act, Kept, Version};
