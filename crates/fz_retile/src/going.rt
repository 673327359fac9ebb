//! From one HDU to the next.
ghost use Rattle.std.specs.Prelude.{◌≡◌, ◌⊎◌, ◌+◌, ◌<◌, ◌≤◌, Some, IfOk, IfSome};
ghost use Rattle.fz_look.specs.Here.{IsPlaced};

use crate::reading::{Begin, read_begun};
use crate::view::{PlainView, keep_stop};
use fz_base::{Failed, Source, ranges_law};
use fz_block::next_start;
use fz_job::changed;
use fz_look::{Here, forget_marks, places_law};

impl<'a, S: Source> PlainView<'a, S> {
    ghost use Rattle.fz_retile.specs.Stays.{HasViewCause, ViewStays};

    /// Goes to the HDU whose plain bytes have this one, and answers it.
    pub(crate) fn go_to(&mut self, at: u64) -> Result<Here, Failed>
        requires within { at < self.old.plain_len }
        ensures has { IfOk result (λ h. (h.at ≤ at) × (at < h.end)) }
        ensures here { IfOk result (λ h. self.new.here ≡ Some h) }
        ensures view { ViewStays self.old self.new }
        ensures cause { HasViewCause self.old self.new result }
    {
        let mut here = match self.here {
            Some(here) if here.at <= at => here,
            _ => self.go_first()?,
        };
        while here.end <= at {
            here = self.go_on(&here)?;
        }
        Ok(here)
    }

    // Goes to the first HDU that stands for something.
    fn go_first(&mut self) -> Result<Here, Failed>
        ensures first { IfOk result (λ h. h.at ≡ 0) }
        ensures here { IfOk result (λ h. self.new.here ≡ Some h) }
        ensures view { ViewStays self.old self.new }
        ensures cause { HasViewCause self.old self.new result }
    {
        places_law();
        let begin = Begin {
            hdu: self.first.hdu,
            start: self.first.start,
            after_empty: self.first.after_empty,
            at: 0,
        };
        self.read_hdu(&begin)
    }

    // Goes to the HDU after this one.
    fn go_on(&mut self, here: &Here) -> Result<Here, Failed>
        requires here { self.old.here ≡ Some here.now }
        requires more { here.now.end < self.old.plain_len }
        ensures next { IfOk result (λ h. (h.at ≡ here.now.end) × (h.at < h.end)) }
        ensures here { IfOk result (λ h. self.new.here ≡ Some h) }
        ensures view { ViewStays self.old self.new }
        ensures cause { HasViewCause self.old self.new result }
    {
        places_law();
        let begin = Begin {
            hdu: here.read.header.hdu + 1,
            start: next_start(&here.read.header),
            after_empty: here.read.is_empty_primary(),
            at: here.end,
        };
        if !begin.is_there(self.survey.hdus, self.length) {
            let stop = changed(begin.hdu);
            return Err(keep_stop(stop, &mut self.failed, &mut self.later, &mut self.more));
        }
        self.read_hdu(&begin)
    }

    // Reads the header of the HDU that begins there.
    fn read_hdu(&mut self, begin: &Begin) -> Result<Here, Failed>
        requires number { begin.now.hdu ≤ 65536 }
        requires within { (begin.now.start < self.old.length) ⊎ ((begin.now.hdu ≡ 0) × (begin.now.start ≡ 0)) }
        requires place { begin.now.at ≤ self.old.plain_len }
        requires told { IfSome (S.held self.old.inner.now) (λ g. IsPlaced g begin.now.hdu begin.now.start begin.now.after_empty begin.now.at) }
        ensures place { IfOk result (λ h. (h.at ≡ begin.now.at) × (h.at < h.end)) }
        ensures here { IfOk result (λ h. self.new.here ≡ Some h) }
        ensures view { ViewStays self.old self.new }
        ensures cause { HasViewCause self.old self.new result }
    {
        ranges_law();
        self.here = None;
        self.boxed = None;
        let answer = read_begun(
            self.inner,
            self.length,
            self.plain_len,
            &self.survey,
            begin,
            &mut self.space,
        );
        match answer {
            Ok(here) => {
                forget_marks(&mut self.space);
                self.here = Some(here);
                Ok(here)
            }
            Err(stop) => Err(keep_stop(stop, &mut self.failed, &mut self.later, &mut self.more)),
        }
    }
}
