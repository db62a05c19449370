//! Laws of the canonical text, each the contract of a function that does nothing.
ghost use Rattle.cap_digest.specs.inner.Lowest.{LowestTerms};

/// A time's form in lowest terms is that time, its numerator is below its denominator, and no number but 1 divides
/// both.
pub fn lowest_terms()
    ensures { LowestTerms }
{}
