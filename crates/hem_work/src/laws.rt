//! A law of works, the contract of a function that does nothing.

ghost use Rattle.hem_work.specs.Lawful.{FaultlessIsLawful};

/// A work whose text breaks no rule is lawful, and within the limits: 1 to 16 lines, at most 1,000 self firings of each
/// object and line, at most 100,000 requests in all, and at most 200,000 starts.
pub fn faultless_works_are_lawful()
    ensures { FaultlessIsLawful }
{}
