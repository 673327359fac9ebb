//! The axes of an array.

/// The most axes that an array may have.
pub(crate) const MAX_AXES: usize = 9;

/// The lengths of the axes of an array, axis 1 first (FITS 4.0, section 4.4.1.1). The entries from
/// `n` on are 0 in what a call answers, and are not looked at in what it is given.
#[derive(Clone, Copy, Debug, PartialEq, Eq)]
pub struct Axes {
    pub n: u32,
    pub len: [u32; MAX_AXES],
}
