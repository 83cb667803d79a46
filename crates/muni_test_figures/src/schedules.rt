mod lowest;
mod outcomes;
mod range;
mod redemption_cases;
mod redemptions;
