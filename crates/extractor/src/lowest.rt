// The lowest run whose hidden leaves differ, and its axis.
ghost use Rattle.std.specs.Prelude.{◌≡◌, length};
ghost use Rattle.extractor.specs.Head.{first_below};
ghost use Rattle.extractor.specs.Lowest as spec;

use crate::axis::first_axis;
use crate::findings::Extraction;

// The lowest run whose hidden leaves differ.
fn lowest_run(first4: &[u8], second4: &[u8]) -> Option<u8>
    requires { spec.LowestAsked first4.now second4.now }
    ensures { result ≡ first_below (spec.leaves_differ first4.now second4.now) (length first4.now) }
{
    for (run, leaf) in first4.iter().enumerate() {
        if *leaf != second4[run] {
            return Some(run as u8);
        }
    }
    None
}

// The answer where the output is filled; none where the hidden leaves of no run differ.
pub fn extracted(first4: &[u8], second4: &[u8]) -> Option<Extraction>
    requires { spec.LowestAsked first4.now second4.now }
    ensures { result ≡ spec.extracted_in first4.now second4.now }
{
    let run = lowest_run(first4, second4)?;
    let at = usize::from(run);
    Some(Extraction::Extracted {
        run,
        axis: first_axis(first4[at], second4[at]),
    })
}
