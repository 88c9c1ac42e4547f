//! Variances of pairs.
ghost use Rattle.std.specs.Prelude.{◌≡◌};
ghost use Rattle.nts_model.specs.Derivations.Related.{times as times_of};
ghost use Rattle.nts_variance_model.specs.Variances.Judging.{opposite as opposite_of};

use nts_model::Variance;

/// The variance of an argument of that variance in a pair of the other.
pub fn times(pair: Variance, argument: Variance) -> Variance
    ensures { result ≡ times_of pair argument }
{
    match (pair, argument) {
        (Variance::Invariant, _) => Variance::Invariant,
        (Variance::Covariant, _) => argument,
        (Variance::Contravariant, Variance::Covariant) => Variance::Contravariant,
        (Variance::Contravariant, Variance::Invariant) => Variance::Invariant,
        (Variance::Contravariant, Variance::Contravariant) => Variance::Covariant,
    }
}

/// The variance of the turned pair.
pub fn opposite(variance: Variance) -> Variance
    ensures { result ≡ opposite_of variance }
{
    match variance {
        Variance::Invariant => Variance::Invariant,
        Variance::Covariant => Variance::Contravariant,
        Variance::Contravariant => Variance::Covariant,
    }
}
