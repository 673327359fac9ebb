//! What the words of `patch` ask for.
ghost use Rattle.std.specs.Prelude.{◌≡◌, true, false, IfOk, None, codes};
ghost use Rattle.std.specs.Str.{bytes_eq};
ghost use Rattle.fz_words.specs.Jobs.{job_of};
ghost use Rattle.fz_words.specs.Lawful.{IsLawfulPatch};
ghost use Rattle.fz_words.specs.Parts.{texts_of};
ghost use Rattle.fz_words.specs.PatchJobs.{begins_patch, patch_job_of, patch_of};
ghost use Rattle.fz_words.specs.Seen.{patch_asked_in, seen_line};

use crate::line::Line;
use crate::request::{Usage, names_of};
use crate::settings::{at_of, hdu_of, memory_of};
use crate::table::Command;
use fz_block::Axes;

/// What the words of `patch` ask for.
#[derive(Clone, Copy, Debug, PartialEq, Eq)]
pub struct PatchRequest<'a> {
    /// The number of the HDU with the packed image, or none for the first that is packed.
    pub hdu: Option<u32>,
    /// Where the first pixel goes: a place along each axis, counted from 1.
    pub at: Axes,
    /// The bytes that the buffers may take together, from 1 to 2^40.
    pub memory: u64,
    /// The name PATCH of the file with the image that is put in.
    pub patch: &'a str,
    /// The name FILE of the file that is changed.
    pub file: &'a str,
}

/// Whether the first of the words is `patch`: these ask for a patch or for nothing, and all others for a job or for nothing.
pub fn begins_patch(words: &[String]) -> bool
    ensures value { result ≡ begins_patch (texts_of words.now) }
    ensures no_job { result ≡ true → job_of (texts_of words.now) ≡ None }
    ensures no_patch { result ≡ false → patch_job_of (texts_of words.now) ≡ None }
{
    has_patch_first(words)
}

// Whether the first of the words is `patch`: `begins_patch` without what that means for a job and for a patch.
fn has_patch_first(words: &[String]) -> bool
    ensures { result ≡ begins_patch (texts_of words.now) }
{
    match words {
        [first, ..] => is_patch(first.as_str()),
        [] => false,
    }
}

// Whether the word is `patch`.
fn is_patch(word: &str) -> bool
    ensures { result ≡ bytes_eq word.now (codes "patch") }
{
    word == "patch"
}

/// What the words ask for, which are those after the program's name; Usage if and only if they are outside the grammar
/// of `patch`.
#[tactic(auto, unfolding(crate::specs::PatchJobs::patch_job_of))]
pub fn read_patch_words(words: &[String]) -> Result<PatchRequest<'_>, Usage>
    ensures job { patch_asked_in result ≡ patch_job_of (texts_of words.now) }
    ensures lawful { IfOk result IsLawfulPatch }
{
    let [first, others @ ..] = words else {
        return Err(Usage);
    };
    if !is_patch(first.as_str()) {
        return Err(Usage);
    }
    let line = Line::of(Command::Patch, others);
    if !line.is_inside() {
        return Err(Usage);
    }
    patch_of(&line)
}

fn patch_of<'a>(line: &Line<'a>) -> Result<PatchRequest<'a>, Usage>
    ensures value { patch_asked_in result ≡ patch_of (seen_line line.now) }
    ensures lawful { IfOk result IsLawfulPatch }
{
    let hdu = hdu_of(line)?;
    let at = at_of(line)?;
    let memory = memory_of(line)?;
    let (patch, file) = names_of(line)?;
    Ok(PatchRequest {
        hdu,
        at,
        memory,
        patch,
        file,
    })
}
