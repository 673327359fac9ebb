//! The bytes of an HDU.
ghost use Rattle.std.specs.Prelude.{ℕ, ◌≡◌, ◌+◌, ◌-◌, ◌*◌, ◌/◌, ◌<◌, ◌≤◌, length as len, drop, slice_index, Some, None, IfOk, IfSome, OnOk};
ghost use Rattle.fz_base.specs.Source.{Reads};
ghost use Rattle.fz_grid.specs.Arrays.{place_of, product};
ghost use Rattle.fz_grid.specs.Region.{IsPlaceOf, IsShape, axes_of, region_lengths};
ghost use Rattle.fz_look.specs.Boxes.{HasBox, HasPixel, LiesInImage, inside_of, sieve_in};
ghost use Rattle.fz_files.specs.Packed.{pixel_bits};
ghost use Rattle.fz_job.specs.Images.{IsReadable};
ghost use Rattle.fz_retile.specs.Views.{ReadsFront, restored_from};

use crate::view::{PlainView, keep_stop};
use fz_base::{Failed, Source, Stop, log_law, ranges_law};
use fz_checks::PackedImage;
use fz_grid::{Region, coordinates, index, shape_law, tiles_law};
use fz_look::{
    Here, box_at, fill_band, has_pixel, image_law, line_law, pieces_law, put_front, put_zeros,
    read_front, readable_law, touched_law,
};
use fz_tile::plain_len;

impl<'a, S: Source> PlainView<'a, S> {
    ghost use Rattle.fz_retile.specs.Stays.{HasViewCause, ViewStays};

    /// Reads plain bytes, one piece after another.
    pub(crate) fn read_plain(&mut self, at: u64, into: &mut [u8]) -> Result<(), Failed>
        requires within { at + len into.old ≤ self.old.plain_len }
        requires some { 0 < len into.old }
        ensures bytes { OnOk result (Reads (restored_from (S.held self.old.inner.now)) at into.new) }
        ensures stays { ViewStays self.old self.new × (len into.new ≡ len into.old) }
        ensures cause { HasViewCause self.old self.new result }
    {
        let mut done = 0;
        while done < into.len() {
            done += self.read_piece(at + done as u64, &mut into[done..])?;
        }
        Ok(())
    }

    // Reads the first of these plain bytes, as many as are of one kind and at hand together, and answers how many they are.
    fn read_piece(&mut self, at: u64, into: &mut [u8]) -> Result<usize, Failed>
        requires within { at + len into.old ≤ self.old.plain_len }
        requires some { 0 < len into.old }
        ensures bytes { IfOk result (λ n. ReadsFront (restored_from (S.held self.old.inner.now)) at n into.new) }
        ensures count { IfOk result (λ n. (0 < n) × (n ≤ len into.old)) }
        ensures rest { IfOk result (λ n. drop n into.new ≡ drop n into.old) }
        ensures stays { ViewStays self.old self.new × (len into.new ≡ len into.old) }
        ensures cause { HasViewCause self.old self.new result }
    {
        pieces_law();
        let here = self.go_to(at)?;
        let Some(image) = &here.read.image else {
            return self.read_copied(&here, at, into);
        };
        if at < here.data_at {
            let made = self.space.translated.as_slice();
            let from = (at - here.at) as usize;
            let end = (here.data_at - here.at) as usize;
            return Ok(put_front(&made[from..end], into));
        }
        if at < here.data_end {
            let pixels = at - here.data_at;
            return self.read_pixels(&here, image, pixels, into);
        }
        let count = into.len().min((here.end - at) as usize);
        put_zeros(count, into);
        Ok(count)
    }

    // Reads bytes of an HDU that is copied.
    fn read_copied(&mut self, here: &Here, at: u64, into: &mut [u8]) -> Result<usize, Failed>
        requires here { self.old.here ≡ Some here.now }
        requires copied { here.now.read.image ≡ None }
        requires has { (here.now.at ≤ at) × (at < here.now.end) }
        requires some { 0 < len into.old }
        ensures bytes { IfOk result (λ n. ReadsFront (restored_from (S.held self.old.inner.now)) at n into.new) }
        ensures count { IfOk result (λ n. (0 < n) × (n ≤ len into.old)) }
        ensures rest { IfOk result (λ n. drop n into.new ≡ drop n into.old) }
        ensures stays { ViewStays self.old self.new × (len into.new ≡ len into.old) }
        ensures cause { HasViewCause self.old self.new result }
    {
        log_law();
        pieces_law();
        ranges_law();
        touched_law();
        let count = (here.end - at).min(into.len() as u64) as usize;
        let from = here.read.header.start + (at - here.at);
        match read_front(self.inner, from, count, into) {
            Ok(()) => Ok(count),
            Err(failed) => Err(keep_stop(
                Stop::reading(failed),
                &mut self.failed,
                &mut self.later,
                &mut self.more,
            )),
        }
    }

    // Reads bytes of the pixels of an image, from this one on, as many as are in one line of the box.
    fn read_pixels(
        &mut self,
        here: &Here,
        image: &PackedImage,
        from: u64,
        into: &mut [u8],
    ) -> Result<usize, Failed>
        requires here { self.old.here ≡ Some here.now }
        requires image { here.now.read.image ≡ Some image.now }
        requires has { here.now.data_at + from < here.now.data_end }
        requires some { 0 < len into.old }
        ensures bytes { IfOk result (λ n. ReadsFront (restored_from (S.held self.old.inner.now)) (here.now.data_at + from) n into.new) }
        ensures count { IfOk result (λ n. (0 < n) × (n ≤ len into.old)) }
        ensures rest { IfOk result (λ n. drop n into.new ≡ drop n into.old) }
        ensures stays { ViewStays self.old self.new × (len into.new ≡ len into.old) }
        ensures cause { HasViewCause self.old self.new result }
    {
        image_law();
        line_law();
        pieces_law();
        readable_law();
        shape_law();
        tiles_law();
        let size = pixel_len(image);
        let at = coordinates(&image.plan.shape, from / size);
        let region = self.box_with(here, image, &at)?;
        let (place, end) = line_in(&region, &at, size);
        let first = place + from % size;
        let band = self.space.band.as_slice();
        Ok(put_front(&band[first as usize..end as usize], into))
    }

    // The box whose pixels are in the band, which has the pixel at these coordinates: that of before, or another one.
    fn box_with(
        &mut self,
        here: &Here,
        image: &PackedImage,
        at: &[u32; 9],
    ) -> Result<Region, Failed>
        requires here { self.old.here ≡ Some here.now }
        requires image { here.now.read.image ≡ Some image.now }
        requires at { IsPlaceOf image.now.plan.shape at.now }
        ensures has { IfOk result (λ r. HasPixel r at.now) }
        ensures lies { IfOk result (λ r. LiesInImage image.now.plan r (len self.new.space.band)) }
        ensures boxed { IfOk result (λ r. IfSome (S.held self.old.inner.now) (λ g. HasBox g here.now.read.header (sieve_in r) self.new.space.band)) }
        ensures stays { ViewStays self.old self.new × (self.new.here ≡ self.old.here) }
        ensures cause { HasViewCause self.old self.new result }
    {
        readable_law();
        if let Some(region) = self.boxed {
            if has_pixel(&region, at) {
                return Ok(region);
            }
        }
        let most = self.space.band.len() / pixel_len(image);
        let region = box_at(&image.plan, &self.asked, at, most);
        self.fill(here, image, &region)?;
        Ok(region)
    }

    // Puts the pixels of a box into the band.
    fn fill(&mut self, here: &Here, image: &PackedImage, region: &Region) -> Result<(), Failed>
        requires here { self.old.here ≡ Some here.now }
        requires image { here.now.read.image ≡ Some image.now }
        requires region { LiesInImage image.now.plan region.now (len self.old.space.band) }
        ensures filled { OnOk result (IfSome (S.held self.old.inner.now) (λ g. HasBox g here.now.read.header (sieve_in region.now) self.new.space.band)) }
        ensures stays { ViewStays self.old self.new × (len self.new.space.band ≡ len self.old.space.band)
            × (self.new.here ≡ self.old.here) }
        ensures cause { HasViewCause self.old self.new result }
    {
        image_law();
        ranges_law();
        readable_law();
        self.boxed = None;
        let header = &here.read.header;
        match fill_band(self.inner, header, image, region, &mut self.space) {
            Ok(()) => {
                self.boxed = Some(*region);
                Ok(())
            }
            Err(stop) => Err(keep_stop(stop, &mut self.failed, &mut self.later, &mut self.more)),
        }
    }
}

// The bytes of a pixel.
fn pixel_len(image: &PackedImage) -> u64
    requires image { IsReadable image.now }
    ensures len { result ≡ pixel_bits image.now.plan / 8 }
    ensures some { 1 ≤ result }
    ensures few { result ≤ 8 }
{
    plain_len(image.plan.bitpix, 1)
}

// Where the pixel at these coordinates begins in the bytes of a box, whose pixels have so many bytes, and where its line ends.
fn line_in(region: &Region, at: &[u32; 9], size: u64) -> (u64, u64)
    requires region { IsShape (axes_of region.now) }
    requires has { HasPixel region.now at.now }
    requires size { (1 ≤ size) × (size ≤ 8) }
    ensures first { result.0 ≡ size * place_of (region_lengths region.now) (inside_of region.now at.now) }
    ensures end { result.1 ≡ result.0 + size * (slice_index region.now.lo 0 + slice_index region.now.len 0 - slice_index at.now 0) }
    ensures some { result.0 + size ≤ result.1 }
    ensures room { result.1 ≤ size * product (region_lengths region.now) }
{
    line_law();
    let place = size * place_in(region, at);
    let left = region.len[0] - (at[0] - region.lo[0]);
    (place, place + size * u64::from(left))
}

// The number of the pixel at these coordinates among those of a region.
fn place_in(region: &Region, at: &[u32; 9]) -> u64
    requires region { IsShape (axes_of region.now) }
    requires has { HasPixel region.now at.now }
    ensures place { result ≡ place_of (region_lengths region.now) (inside_of region.now at.now) }
    ensures within { result < product (region_lengths region.now) }
{
    let mut inside = [0u32; 9];
    for i in 0..region.n as usize {
        inside[i] = at[i] - region.lo[i];
    }
    index(&region.axes(), &inside)
}
