ghost use Rattle.std.specs.Prelude.{◌≡◌};
ghost use Rattle.fares.specs.FareStates.{covers_state, KeepsCovering};

use crate::fare_state::FareState;
use crate::measure::{LawfulMeasure, Measure};
use crate::tariff::{LawfulTariff, Tariff};

// Whether `a` is never worse than `b`, whatever is ridden from here on. (Tariff and measure are two parameters, as of an
// update, since a struct of both is no plainer. Weights are compared first: that takes less time.)
pub fn covers<F: Tariff, M: Measure>(
    tariff: &F,
    measure: &M,
    a: FareState<F::Ticket, M::Weight>,
    b: FareState<F::Ticket, M::Weight>,
) -> bool
    ensures { result ≡ covers_state (F.Tariff.model tariff.now) (M.Measure.model measure.now) a b }
{
    measure.at_most(a.weight, b.weight) && tariff.covers(a.ticket, b.ticket)
}

// Under the laws, the same update of both of two states keeps the one covering the other. There is nothing to run: the
// contract is the theorem.
pub fn update_keeps_covering<F: LawfulTariff, M: LawfulMeasure>(tariff: &F, measure: &M)
    ensures { KeepsCovering (F.Tariff.model tariff.now) (M.Measure.model measure.now) }
{}
