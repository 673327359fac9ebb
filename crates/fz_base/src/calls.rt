//! The counts of an object, and the numbered calls of one in memory that are set to fail.
ghost use Rattle.std.specs.Prelude.{◌≡◌, ◌+◌, ◌-◌, ◌^◌, ◌≤◌, ◌↔◌, IfOk, Ok, None, IsOk, IsErr, IsErrOf, IsTrue, Contains, min};
ghost use Rattle.fz_base.specs.Counts.{HasCause, CountsFault, counted, store_tally, tally_of};
ghost use Rattle.fz_base.specs.Store.{HasAmended};
ghost use Rattle.fz_base.specs.declared.failure.Failed.TheVariants.{Fault, NoMemory};

use crate::Failed;
use std::io;

/// How often the calls of an object failed, how often they found no memory, and how often a write in
/// place failed.
#[derive(Drop)]
pub(crate) struct Counts {
    pub(crate) faults: u64,
    pub(crate) wants: u64,
    pub(crate) write_faults: u64,
}

impl Counts {
    pub(crate) fn new() -> Counts
        ensures faults { result.faults ≡ 0 }
        ensures wants { result.wants ≡ 0 }
        ensures write_faults { result.write_faults ≡ 0 }
    {
        Counts {
            faults: 0,
            wants: 0,
            write_faults: 0,
        }
    }

    /// Counts a fault and answers it.
    pub(crate) fn fault<T>(&mut self) -> Result<T, Failed>
        ensures answer { IsErrOf result Fault }
        ensures faults { self.new.faults ≡ counted self.old.faults }
        ensures wants { self.new.wants ≡ self.old.wants }
        ensures write_faults { self.new.write_faults ≡ self.old.write_faults }
        ensures cause { HasCause (tally_of self.old) (tally_of self.new) result }
    {
        self.faults = self.faults.saturating_add(1);
        Err(Failed::Fault)
    }

    /// Counts a want and answers it.
    pub(crate) fn want<T>(&mut self) -> Result<T, Failed>
        ensures answer { IsErrOf result NoMemory }
        ensures faults { self.new.faults ≡ self.old.faults }
        ensures write_faults { self.new.write_faults ≡ self.old.write_faults }
        ensures cause { HasCause (tally_of self.old) (tally_of self.new) result }
    {
        self.wants = self.wants.saturating_add(1);
        Err(Failed::NoMemory)
    }

    /// Counts what the system answered to one call: want of memory as a want, everything else as a fault.
    pub(crate) fn noted<T>(&mut self, answer: io::Result<T>) -> Result<T, Failed>
        ensures ok { IsOk answer → IsOk result }
        ensures value { IfOk result (λ v. answer ≡ Ok v) }
        ensures write_faults { self.new.write_faults ≡ self.old.write_faults }
        ensures cause { HasCause (tally_of self.old) (tally_of self.new) result }
    {
        match answer {
            Ok(value) => Ok(value),
            Err(error) if error.kind() == io::ErrorKind::OutOfMemory => self.want(),
            Err(_) => self.fault(),
        }
    }

    /// Counts a fault of a write in place and answers it.
    pub(crate) fn write_fault(&mut self) -> Result<(), Failed>
        ensures answer { IsErrOf result Fault }
        ensures faults { self.new.faults ≡ self.old.faults }
        ensures wants { self.new.wants ≡ self.old.wants }
        ensures write_faults { self.new.write_faults ≡ counted self.old.write_faults }
        ensures kept { self.old.write_faults ≤ self.new.write_faults }
    {
        self.write_faults = self.write_faults.saturating_add(1);
        Err(Failed::Fault)
    }

    /// Counts what the system answered to a write in place: want of memory as a want, everything else as a
    /// fault of a write.
    pub(crate) fn noted_write(&mut self, answer: io::Result<()>) -> Result<(), Failed>
        ensures cause { HasAmended (store_tally None 0 self.old) (store_tally None 0 self.old) (store_tally None 0 self.new) result }
    {
        match answer {
            Ok(()) => Ok(()),
            Err(error) if error.kind() == io::ErrorKind::OutOfMemory => self.want(),
            Err(_) => self.write_fault(),
        }
    }
}

/// The calls of an object in memory, counted from 0, and the numbers of those that fail.
#[derive(Drop)]
pub(crate) struct Calls {
    pub(crate) failing: Vec<u32>,
    pub(crate) next: u64,
    pub(crate) counts: Counts,
}

impl Calls {
    pub(crate) fn new(failing: Vec<u32>) -> Calls
        ensures failing { result.failing.items ≡ failing.items }
        ensures next { result.next ≡ 0 }
        ensures faults { result.counts.faults ≡ 0 }
        ensures wants { result.counts.wants ≡ 0 }
        ensures write_faults { result.counts.write_faults ≡ 0 }
    {
        Calls {
            failing,
            next: 0,
            counts: Counts::new(),
        }
    }

    /// Counts one call, and answers whether its number is among those that fail.
    pub(crate) fn next_fails(&mut self) -> bool
        ensures exact { IsTrue result ↔ Contains self.old.failing.items self.old.next }
        ensures failing { self.new.failing.items ≡ self.old.failing.items }
        ensures next { self.new.next ≡ counted self.old.next }
        ensures counts { self.new.counts ≡ self.old.counts }
    {
        let number = self.next;
        self.next = self.next.saturating_add(1);
        is_among(&self.failing, number)
    }

    /// Counts one call, and fails if its number is among those that fail.
    pub(crate) fn begin(&mut self) -> Result<(), Failed>
        ensures exact { IsErr result ↔ Contains self.old.failing.items self.old.next }
        ensures fault { IsErr result → IsErrOf result Fault }
        ensures failing { self.new.failing.items ≡ self.old.failing.items }
        ensures next { self.new.next ≡ counted self.old.next }
        ensures counted { CountsFault self.old.failing.items self.old.next self.old.counts.faults self.new.counts.faults }
        ensures wants { self.new.counts.wants ≡ self.old.counts.wants }
        ensures write_faults { self.new.counts.write_faults ≡ self.old.counts.write_faults }
        ensures cause { HasCause (tally_of self.old.counts) (tally_of self.new.counts) result }
    {
        if self.next_fails() {
            return self.counts.fault();
        }
        Ok(())
    }
}

fn is_among(failing: &[u32], number: u64) -> bool
    ensures { IsTrue result ↔ Contains failing.now number }
{
    match u32::try_from(number) {
        Ok(number) => failing.contains(&number),
        Err(_) => false,
    }
}
