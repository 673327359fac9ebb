//! The fronts of HDUs: how much of them is wanted, what they are, and the plans of packed images.
ghost use Rattle.std.specs.Prelude.{◌≡◌, ◌≢◌, pos};
ghost use Rattle.fz_flat.specs.Lawful.{IsLawful};
ghost use Rattle.fz_c.specs.Faults.{answer_of};
ghost use Rattle.fz_c.specs.Fronts.{SaysHdu, SaysPlan, WantsMore, fault_for, told_fault};

use crate::fault::Fault;
use fz_flat::{
    FzAt, FzFault, FzHdu, FzPlan, Unread, fault_of, hdu_at_front, image_at_front, more_wanted,
    plan_of,
};

/// Writes to `more` how many bytes are wanted after `front`, so that the next block of the header of an HDU
/// is there, and answers 0; `more` is 0 if the header is whole.
///
/// `front` has the bytes of the HDU from its first one on, as many as the caller has. After another answer
/// `more` is as it was: `Rejected` the header is refused, or `NoHdu`.
#[unsafe(no_mangle)]
pub extern "C" fn fz_front_len(front: &[u8], at: &FzAt, more: &mut u64) -> i32
    ensures answer { WantsMore front.now at.now more.new result }
    ensures kept { result ≢ pos 0 → more.new ≡ more.old }
{
    match more_wanted(front, at) {
        Ok(wanted) => {
            *more = wanted;
            0
        }
        Err(why) => unread(why).answer(),
    }
}

/// Writes what the header of an HDU says to `hdu`, and answers 0.
///
/// After another answer `hdu` is as it was: `Rejected` the header is refused, and `fault` says where;
/// `FewBytes` it goes on after `front`; or `NoHdu`.
#[unsafe(no_mangle)]
pub extern "C" fn fz_hdu(front: &[u8], at: &FzAt, hdu: &mut FzHdu, fault: &mut FzFault) -> i32
    ensures answer { SaysHdu front.now at.now hdu.new fault.old fault.new result }
    ensures kept { result ≢ pos 0 → hdu.new ≡ hdu.old }
{
    match hdu_at_front(front, at) {
        Ok(found) => {
            *hdu = found;
            0
        }
        Err(why) => told(why, fault),
    }
}

/// Writes the plan of the packed image of an HDU to `plan`, and answers 0.
///
/// After another answer `plan` is as it was: `Rejected` the HDU is refused, as `cut` refuses it for whatever
/// box, and `fault` says where; `FewBytes` its header goes on after `front`; or `NoHdu`.
#[unsafe(no_mangle)]
pub extern "C" fn fz_plan(front: &[u8], at: &FzAt, plan: &mut FzPlan, fault: &mut FzFault) -> i32
    ensures answer { SaysPlan front.now at.now plan.new fault.old fault.new result }
    ensures lawful { result ≡ pos 0 → IsLawful plan.new }
    ensures kept { result ≢ pos 0 → plan.new ≡ plan.old }
{
    match image_at_front(front, at) {
        Ok(image) => {
            *plan = plan_of(&image);
            0
        }
        Err(why) => told(why, fault),
    }
}

/// Why a front gives nothing.
fn unread(why: Unread) -> Fault
    ensures { result ≡ fault_for why }
{
    match why {
        Unread::NoPlace => Fault::NoHdu,
        Unread::GoesOn => Fault::FewBytes,
        Unread::Refused(fault) => Fault::Rejected(fault.kind),
    }
}

/// The number of this answer, which is not 0; if the HDU is refused, `fault` gets where.
#[tactic(auto, using(crate::proofs::KindLemmas::not_zero))]
fn told(why: Unread, fault: &mut FzFault) -> i32
    ensures answer { result ≡ answer_of (fault_for why) }
    ensures fault { fault.new ≡ told_fault why fault.old }
    ensures not_zero { result ≢ pos 0 }
{
    if let Unread::Refused(refused) = why {
        *fault = fault_of(&refused);
    }
    unread(why).answer()
}
