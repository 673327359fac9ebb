//! The HDUs of a file, listed one after another.
ghost use Rattle.std.specs.Prelude.{ℕ, ◌≡◌, ◌≤◌, ◌<◌, List, Option, Some, length as len, IfSome, OnErr, OnOk};
ghost use Rattle.fz_base.specs.Sink.{MayAppend, appended};
ghost use Rattle.fz_base.specs.Stop.{IfRefused, Writes};
ghost use Rattle.fz_base.specs.Told.{StaysTold};
ghost use Rattle.fz_job.specs.Clauses.{IsChanged};
ghost use Rattle.fz_job.specs.Keeps.{Rewrites};
ghost use Rattle.fz_job.specs.Again.{IsAgain};
ghost use Rattle.fz_base.specs.Keeps.{SourceStays};
ghost use Rattle.fz_verify.specs.Lines.{listed_text};
ghost use Rattle.fz_verify.specs.Printed.{ListsSeen};
ghost use Rattle.fz_verify.specs.Reported.{Grew};
ghost use Rattle.fz_verify.specs.Reads.{ReadsHeaders};

use crate::lines::{list_line, print};
use fz_base::{Source, Stop, Text, ranges_law};
use fz_block::next_start;
use fz_job::{Begun, ReadHdu, Survey, changed, read_again};

/// Prints the line of each HDU. `buf` has room for the longest header.
pub(crate) fn list_hdus<S: Source, T: Text>(
    source: &mut S,
    length: u64,
    text: &mut T,
    survey: &Survey,
    buf: &mut [u8],
) -> Result<(), Stop>
    requires attached { S.attached source.old ≡ Some length }
    requires some { 0 < survey.now.hdus }
    requires few { survey.now.hdus ≤ 65536 }
    requires long { 2880 ≤ survey.now.header_len }
    requires buf { len buf.old ≡ survey.now.header_len }
    ensures listed { IfSome (S.held source.old) (λ g. ListsSeen g survey.now (T.contents text.old) (T.contents text.new) result) }
    ensures grown { Grew (T.contents text.old) (T.contents text.new) }
    ensures changed { IfRefused result IsChanged }
    ensures read { IfSome (S.held source.old) (λ g. ReadsHeaders g survey.now (S.ranges source.old) (S.ranges source.new)) }
    ensures stays { SourceStays S.held S.attached S.ranges source.old source.new
        × StaysTold (T.contents text.old) (T.contents text.new) × (len buf.new ≡ len buf.old) }
    ensures cause { Rewrites (S.tally source.old) (S.tally source.new) (T.tally text.old) (T.tally text.new) result }
{
    ranges_law();
    let mut start = 0;
    let mut after_empty = false;
    for hdu in 0..survey.hdus {
        let begun = Begun {
            hdu,
            start,
            after_empty,
        };
        let again = read_again(source, length, begun, survey.tile, buf)?;
        print_listed(text, &again)?;
        start = next_start(&again.header);
        // An HDU ends the file exactly if it is the last.
        if (start == length) != (hdu + 1 == survey.hdus) {
            return Err(changed(hdu));
        }
        after_empty = again.is_empty_primary();
    }
    Ok(())
}

// Prints the line of an HDU.
fn print_listed<T: Text>(text: &mut T, again: &ReadHdu) -> Result<(), Stop>
    requires again { (held : Option (List ℕ)) × ((n : ℕ) × ((buf : List ℕ) × IsAgain held n buf again.now)) }
    ensures all { OnOk result (T.contents text.new ≡ appended (listed_text again.now.header again.now.image) (T.contents text.old)) }
    ensures front { OnErr result (MayAppend (listed_text again.now.header again.now.image) (T.contents text.old) (T.contents text.new)) }
    ensures told { StaysTold (T.contents text.old) (T.contents text.new) }
    ensures cause { Writes (T.tally text.old) (T.tally text.new) result }
{
    print(text, &list_line(&again.header, &again.image))
}
