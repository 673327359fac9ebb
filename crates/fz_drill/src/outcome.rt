//! What came of the codecs.

/// What came of one codec: how long the packed file is, and whether unpacking it gave the file, and cutting from it the
/// part.
#[derive(Drop)]
pub(crate) struct Outcome {
    pub(crate) packed: u64,
    pub(crate) unpacked: bool,
    pub(crate) cut: bool,
}

/// What came of all of them, and how long the file is.
#[derive(Drop)]
pub(crate) struct Outcomes {
    pub(crate) plain: u64,
    pub(crate) rice: Outcome,
    pub(crate) plio: Outcome,
    pub(crate) none: Outcome,
}
