//! What the words of the command line ask for.
ghost use Rattle.std.specs.Prelude.{◌≡◌, ◌≤◌, IfOk};
ghost use Rattle.std.specs.Option.{option_map};
ghost use Rattle.std.specs.Result.{result_ok};
ghost use Rattle.fz_head.specs.Planned.{AreOptions};
ghost use Rattle.fz_words.specs.Jobs.{cut_of, drill_of, job_of, list_of, names_in, one_operand, pack_of, pack_options_of};
ghost use Rattle.fz_words.specs.Jobs.{retile_of, unpack_of, verify_of, written_by};
ghost use Rattle.fz_words.specs.Lawful.{IsLawful, IsLawfulJob};
ghost use Rattle.fz_words.specs.Parts.{texts_of};
ghost use Rattle.fz_words.specs.Seen.{asked_in, seen_line, seen_names, seen_text};

use crate::line::Line;
use crate::number::short_in;
use crate::settings::{
    MEMORY, block_of, box_of, codec_of, hdu_of, memory_of, strict_of, sums_of, tile_of, workers_of,
};
use crate::table::Command;
use fz_files::Job;
use fz_head::PackOptions;

/// What the words ask for.
#[derive(Clone, Copy, Debug, PartialEq, Eq)]
pub struct Request<'a> {
    pub job: Job,
    /// The number of workers, from 1 to 64; 1 for a command that has no such option.
    pub workers: u32,
    /// Whether `verify` also says if the file is the packed file of the file that it stands for.
    pub strict: bool,
    /// The bytes that the job's buffers may take together, from 1 to 2^40.
    pub memory: u64,
    /// The name IN of the file that is read; empty for a drill.
    pub input: &'a str,
    /// The name OUT of the file that is written; empty for a command that writes none.
    pub output: &'a str,
}

/// The words are no command of this program.
#[derive(Clone, Copy, Debug, PartialEq, Eq)]
pub struct Usage;

/// What the words ask for, which are those after the program's name; Usage if and only if they are outside the grammar of
/// the commands but `patch`.
#[tactic(auto, unfolding(crate::specs::Jobs::job_of))]
pub fn read_words(words: &[String]) -> Result<Request<'_>, Usage>
    ensures job { asked_in result ≡ job_of (texts_of words.now) }
    ensures lawful { IfOk result IsLawful }
{
    let [first, others @ ..] = words else {
        return Err(Usage);
    };
    let Some(command) = Command::named(first.as_str()) else {
        return Err(Usage);
    };
    let line = Line::of(command, others);
    if !line.is_inside() {
        return Err(Usage);
    }
    match command {
        Command::Pack => pack_of(&line),
        Command::Unpack => unpack_of(&line),
        Command::Cut => cut_of(&line),
        Command::Verify => verify_of(&line),
        Command::List => list_of(&line),
        Command::Drill => drill_of(&line),
        Command::Retile => retile_of(&line),
        Command::Patch => Err(Usage),
    }
}

fn pack_of<'a>(line: &Line<'a>) -> Result<Request<'a>, Usage>
    ensures value { asked_in result ≡ pack_of (seen_line line.now) }
    ensures lawful { IfOk result IsLawful }
{
    let options = pack_options_of(line)?;
    request_of(line, Job::Pack(options), options.workers)
}

fn retile_of<'a>(line: &Line<'a>) -> Result<Request<'a>, Usage>
    ensures value { asked_in result ≡ retile_of (seen_line line.now) }
    ensures lawful { IfOk result IsLawful }
{
    let options = pack_options_of(line)?;
    request_of(line, Job::Retile(options), options.workers)
}

fn pack_options_of(line: &Line<'_>) -> Result<PackOptions, Usage>
    ensures value { result_ok result ≡ pack_options_of (seen_line line.now) }
    ensures lawful { IfOk result (λ o. AreOptions o × (1 ≤ o.workers) × (o.workers ≤ 64)) }
{
    let codec = codec_of(line)?;
    Ok(PackOptions {
        codec,
        tile: tile_of(line)?,
        block: block_of(codec, line)?,
        sums: sums_of(line)?,
        workers: workers_of(line)?,
    })
}

fn unpack_of<'a>(line: &Line<'a>) -> Result<Request<'a>, Usage>
    ensures value { asked_in result ≡ unpack_of (seen_line line.now) }
    ensures lawful { IfOk result IsLawful }
{
    let workers = workers_of(line)?;
    request_of(line, Job::Unpack, workers)
}

fn cut_of<'a>(line: &Line<'a>) -> Result<Request<'a>, Usage>
    ensures value { asked_in result ≡ cut_of (seen_line line.now) }
    ensures lawful { IfOk result IsLawful }
{
    let hdu = hdu_of(line)?;
    let sieve = box_of(line)?;
    let workers = workers_of(line)?;
    request_of(line, Job::Cut { hdu, sieve }, workers)
}

// What a command asks for that reads IN and writes OUT: this job by so many workers.
fn request_of<'a>(line: &Line<'a>, job: Job, workers: u32) -> Result<Request<'a>, Usage>
    requires lawful { IsLawfulJob job workers }
    requires workers { (1 ≤ workers) × (workers ≤ 64) }
    ensures value { asked_in result ≡ written_by job workers (seen_line line.now) }
    ensures lawful { IfOk result IsLawful }
{
    let memory = memory_of(line)?;
    let (input, output) = names_of(line)?;
    Ok(Request {
        job,
        workers,
        strict: false,
        memory,
        input,
        output,
    })
}

fn verify_of<'a>(line: &Line<'a>) -> Result<Request<'a>, Usage>
    ensures value { asked_in result ≡ verify_of (seen_line line.now) }
    ensures lawful { IfOk result IsLawful }
{
    let strict = strict_of(line)?;
    let memory = memory_of(line)?;
    let input = one_operand(line)?;
    Ok(Request {
        job: Job::Verify,
        workers: 1,
        strict,
        memory,
        input,
        output: "",
    })
}

fn list_of<'a>(line: &Line<'a>) -> Result<Request<'a>, Usage>
    ensures value { asked_in result ≡ list_of (seen_line line.now) }
    ensures lawful { IfOk result IsLawful }
{
    let input = one_operand(line)?;
    Ok(Request {
        job: Job::List,
        workers: 1,
        strict: false,
        memory: MEMORY,
        input,
        output: "",
    })
}

fn drill_of<'a>(line: &Line<'a>) -> Result<Request<'a>, Usage>
    ensures value { asked_in result ≡ drill_of (seen_line line.now) }
    ensures lawful { IfOk result IsLawful }
{
    let operand = one_operand(line)?;
    let rows = short_in(operand, 1, 16384).ok_or(Usage)?;
    Ok(Request {
        job: Job::Drill { rows },
        workers: 1,
        strict: false,
        memory: MEMORY,
        input: "",
        output: "",
    })
}

// The one operand.
fn one_operand<'a>(line: &Line<'a>) -> Result<&'a str, Usage>
    ensures { seen_text result ≡ one_operand (seen_line line.now).operands }
{
    match (line.operand(0), line.operand(1)) {
        (Some(word), None) if !word.is_empty() => Ok(word),
        _ => Err(Usage),
    }
}

/// The two names: IN and OUT, or PATCH and FILE.
pub(crate) fn names_of<'a>(line: &Line<'a>) -> Result<(&'a str, &'a str), Usage>
    ensures { seen_names result ≡ names_in (seen_line line.now).operands }
{
    match (line.operand(0), line.operand(1), line.operand(2)) {
        (Some(input), Some(output), None) if !input.is_empty() && !output.is_empty() => {
            Ok((input, output))
        }
        _ => Err(Usage),
    }
}
