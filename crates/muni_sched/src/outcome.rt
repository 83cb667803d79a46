//! What is known of a candidate's figure, and the order in which outcomes decide.

ghost use Rattle.std.specs.Prelude.{◌≡◌, unwrap_or};
ghost use Rattle.muni_sched.specs.FigureKind.{FigureKind, Price, Yield};
ghost use Rattle.muni_sched.specs.Figures.{least_unsure, IsOf};
ghost use Rattle.muni_sched.specs.PriceOutcome.{price_outcome};
ghost use Rattle.muni_sched.specs.Ranks as spec;
ghost use Rattle.muni_sched.specs.declared.outcome.CandidateOutcome.TheVariants.{Above};

use muni_dec::Yield3;
use muni_multi::PriceAnswer;

/// What is known of a candidate's yield. The definitions of the rule take a price as such an
/// outcome too.
#[derive(Clone, Copy, Debug, PartialEq, Eq, Default)]
pub enum CandidateOutcome {
    /// This yield is printed.
    Print(Yield3),
    /// This yield is reached, and it is open if the next one is. Both are in thousandths of a
    /// percent. At -5.001 percent it is open if the candidate is below all its figures.
    Unsure(i32),
    /// The candidate is below all its figures.
    Below,
    /// The candidate is above all its figures.
    #[default]
    Above,
    /// No time is left for a yield.
    NoTime,
}

// The ranks of outcomes without a figure.
const NO_TIME: i32 = i32::MIN;

const BELOW: i32 = i32::MIN + 1;

const ABOVE: i32 = i32::MAX;

/// An outcome of a candidate, as the rule of the lowest figure compares it.
pub trait Ranked {
    ghost use Rattle.muni_sched.specs.declared.outcome.CandidateOutcome.{CandidateOutcome};

    ghost kind: { FigureKind };

    ghost outcome: { Self → CandidateOutcome };

    /// The place in the order in which outcomes decide: a candidate without time is the first, one
    /// below all its figures the next, and then the figures count, in thousandths.
    fn rank(&self) -> i32
        requires { IsOf kind (outcome self.now) }
        ensures { result ≡ spec.rank (least_unsure kind) (outcome self.now) };
}

impl Ranked for PriceAnswer {
    ghost kind = { Price };

    ghost outcome = { price_outcome };

    fn rank(&self) -> i32 {
        match self {
            PriceAnswer::Price(price) => price.units() as i32,
            PriceAnswer::BelowZero => BELOW,
            PriceAnswer::Undecided { boundary } if boundary.units() == 0 => BELOW,
            PriceAnswer::Undecided { boundary } => boundary.units() as i32 - 1,
        }
    }
}

impl Ranked for CandidateOutcome {
    ghost kind = { Yield };

    ghost outcome = { λ outcome. outcome };

    fn rank(&self) -> i32 {
        match self {
            CandidateOutcome::Print(yld) => yld.units() as i32,
            CandidateOutcome::Unsure(lower) if *lower == -5_001 => BELOW,
            CandidateOutcome::Unsure(lower) => *lower,
            CandidateOutcome::Below => BELOW,
            CandidateOutcome::Above => ABOVE,
            CandidateOutcome::NoTime => NO_TIME,
        }
    }
}

impl Ranked for Option<CandidateOutcome> {
    ghost kind = { Yield };

    ghost outcome = { λ known. unwrap_or known Above };

    // Once nothing is left to ask, one that is not known cannot be the lowest.
    fn rank(&self) -> i32 {
        match self {
            Some(outcome) => outcome.rank(),
            None => ABOVE,
        }
    }
}
