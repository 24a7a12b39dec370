ghost use Rattle.std.specs.Prelude.{◌≡◌, ◌<◌, ◌≤◌, ◌*◌, ◌^◌, ◌&&◌, Some, None, if◌then◌else◌};
ghost use Rattle.decl_base.specs.Threshold.{is_met};
ghost use Rattle.scoring.specs.Candidates.{reaches_all};
ghost use Rattle.scoring.specs.Conditions.{AreThresholds};
ghost use Rattle.scoring.specs.Scores.{scored_from};
ghost use Rattle.scoring.specs.Scorable.{IsScorable, IsPart};

use crate::Scored;
use decl_base::{Frac, Threshold, Thresholds};
use template_core::Constraint;
use template_set::Numbers;

/// A score before it is put into lowest terms.
#[derive(Clone, Copy)]
struct Part {
    num: u64,
    den: u64,
}

impl Part {
    fn reaches(self, threshold: Threshold) -> bool
        requires few { threshold.millionths ≤ 1000000 }
        ensures { result ≡ is_met threshold.millionths self.num self.den }
    {
        threshold.met(u128::from(self.num), u128::from(self.den))
    }

    /// A part of it.
    fn times(self, num: u64, den: u64) -> Part
        requires part { IsPart self.num self.den }
        requires more { IsPart num den }
        requires fits { self.den * den < 2 ^ 64 }
        ensures num { result.num ≡ self.num * num }
        ensures den { result.den ≡ self.den * den }
        ensures part { IsPart result.num result.den }
    {
        Part {
            num: self.num * num,
            den: self.den * den,
        }
    }
}

/// The constraint with its scores, if each of these reaches its threshold.
pub(crate) fn reaching(
    constraint: Constraint,
    numbers: &Numbers,
    traces: u64,
    thresholds: &Thresholds,
) -> Option<Scored>
    requires numbers { IsScorable numbers.now traces }
    requires thresholds { AreThresholds thresholds.now }
    ensures { let scored = scored_from constraint numbers.now traces in result ≡ (if reaches_all thresholds.now scored then Some scored else None) }
{
    let support = Part {
        num: numbers.fulfilled,
        den: numbers.activated,
    };
    let confidence = support.times(numbers.traces, traces);
    let interest = confidence.times(numbers.target, traces);
    if !reach(support, confidence, interest, thresholds) {
        return None;
    }
    Some(Scored {
        constraint,
        support: Frac::new(support.num, support.den),
        confidence: Frac::new(confidence.num, confidence.den),
        interest: Frac::new(interest.num, interest.den),
    })
}

/// Whether the three each reach their threshold.
fn reach(support: Part, confidence: Part, interest: Part, thresholds: &Thresholds) -> bool
    requires { AreThresholds thresholds.now }
    ensures { result ≡ (is_met thresholds.now.support.millionths support.num support.den
        && (is_met thresholds.now.confidence.millionths confidence.num confidence.den
        && is_met thresholds.now.interest.millionths interest.num interest.den)) }
{
    support.reaches(thresholds.support)
        && confidence.reaches(thresholds.confidence)
        && interest.reaches(thresholds.interest)
}
