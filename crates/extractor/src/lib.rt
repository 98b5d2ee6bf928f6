// The extractor: from two accepted openings of one commitment, two unequal strings hashed to one digest, or every leaf's state in
// each run whose hidden leaves differ.
#![tactic(auto)]

mod axis;
mod best;
mod checks;
mod commitments;
mod digests;
pub mod findings;
mod judge;
mod lowest;
mod opened;
mod output;
mod outputs;
mod pairs;
mod recall;
mod rows;
mod run;

ghost use Rattle.std.specs.Prelude.{◌≡◌};
ghost use Rattle.shake256.specs.Fips.{SHAKE256};
ghost use Rattle.exchange.specs.Values.{key_of};
ghost use Rattle.calls.specs.Extractor as spec;
ghost use Rattle.extractor.specs.Given.{given};
ghost use Rattle.extractor.specs.Messages.{messages};

use crate::findings::Extraction;
use answers::Refusal;
use best::{better, nothing_yet};
use checks::early_checks;
use layout::{MOST_STATEMENT, statement_length};
use lowest::extracted;
pub use opened::Opened;
use openings::statement::put_statement;
use outputs::write_outputs;
use pairs::pair_at;
use parameters::Parameters;
use run::check_run;

// Twice what an opening gives: one half for each of two openings.
pub const MOST_OPENINGS: usize = 19520;

// Messages 1 to 5 of an exchange; message 4 is its runs' hidden leaves.
#[derive(Clone, Copy)]
pub struct Transcript<'a> {
    pub message1: &'a [u8],
    pub message2: &'a [u8],
    pub message3: &'a [u8],
    pub leaves: &'a [u8],
    pub message5: &'a [u8],
}

// Compares two openings of one commitment in the runs whose hidden leaves differ: names the first unequal pair of strings hashed
// to one digest, or fills the part of each such run in out with every leaf's state and aux.
pub fn extract(
    p: Parameters,
    runs: usize,
    first: Transcript,
    second: Transcript,
    matrix: &[u8],
    y: &[u8],
    work: &mut [u8],
    out: &mut [u8],
) -> Result<Extraction, Refusal>
    ensures { given result out.new work.new ≡ spec.extraction SHAKE256 p runs (messages first.entry) (messages second.entry)
        (key_of matrix.now y.now) work.old out.old }
{
    early_checks(p, runs, first, second, matrix, y, work, out)?;
    let size = statement_length(p);
    let mut statement = [0u8; MOST_STATEMENT];
    let mut openings = [0u8; MOST_OPENINGS];
    let mut best = nothing_yet();
    for run in 0..runs {
        put_statement(
            p,
            run as u8,
            first.message1,
            first.message2,
            first.message3,
            &mut statement[..size],
        );
        let pair = pair_at(p, first.leaves, second.leaves, run);
        let found = check_run(
            pair,
            &statement[..size],
            first.message5,
            second.message5,
            matrix,
            y,
            work,
            &mut openings,
        )?;
        best = better(best, run as u8, found);
    }
    best.second?;
    if let Some((run, difference)) = best.unequal {
        return Ok(Extraction::Unequal {
            run,
            layer: difference.layer(),
            number: difference.number(),
        });
    }
    write_outputs(p, first, second, &mut openings, out);
    extracted(first.leaves, second.leaves).ok_or(Refusal::SameLeaf)
}
