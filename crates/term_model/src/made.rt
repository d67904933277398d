//! What making a term returns.

/// A value that was made, or that it would not fit: that it would weigh more than 16,777,216 or be
/// deeper than 1,000.
#[derive(Clone, Debug, Drop, PartialEq, Eq)]
pub enum Made<R> {
    /// The value, which fits.
    Fits(R),
    /// The value would not fit, and was not made.
    Oversize,
}
