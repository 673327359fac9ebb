//! Where an HDU begins.
ghost use Rattle.std.specs.Prelude.{◌≡◌, IsTrue};
ghost use Rattle.fz_flat.specs.Fronts.{IsPlace, is_numbered, is_place as is_place_of};

/// Where an HDU begins, in a file of so many bytes.
#[repr(C)]
#[derive(Clone, Copy)]
pub struct FzAt {
    /// The byte of the file at which it begins.
    pub start: u64,
    /// The length of the file.
    pub length: u64,
    /// The number of the HDU, from 0.
    pub hdu: u32,
    /// 1 if it is HDU 1 after a primary with NAXIS 0, otherwise 0.
    pub after_empty: u32,
}

/// The last place of a file at which data may end.
const MAX_PLACE: u64 = 1 << 62;

/// An HDU may begin there, and the file has so many bytes from there on.
#[tactic(auto, using(std::proofs::lemmas::Bool::Decides::nat_tests), unfolding(crate::specs::Fronts::is_place))]
pub(crate) fn is_place(at: &FzAt, there: u64) -> bool
    ensures exact { result ≡ is_place_of at.now there }
    ensures place { IsTrue result → IsPlace at.now there }
{
    at.length <= MAX_PLACE
        && at.start <= at.length
        && there <= at.length - at.start
        && is_numbered(at)
        && (at.start < at.length || at.start == 0)
}

// HDU 0 is at the first byte, and no other; and only HDU 1 can come after a primary with NAXIS 0.
#[tactic(auto, using(std::proofs::lemmas::Bool::Decides::nat_tests))]
fn is_numbered(at: &FzAt) -> bool
    ensures { result ≡ is_numbered at.now }
{
    let begins = if at.hdu == 0 {
        at.start == 0
    } else {
        0 < at.start
    };
    begins && (at.after_empty == 0 || (at.after_empty == 1 && at.hdu == 1))
}
