// The extractor's call.
ghost use Rattle.std.specs.Prelude.{◌≡◌};
ghost use Rattle.exchange.specs.Values.{key_of};
ghost use Rattle.runs.specs.Opening.{transcript};
ghost use Rattle.extractor.specs.Answer.{extraction_answer};
ghost use Rattle.capi.specs.Extract.{extract_number, given, extract_set};

use answers::Refusal;
use extractor::Transcript;
use extractor::findings::Extraction;
use parameters::set::parameters_of;

// The number of the extractor's answer.
fn number(answer: Result<Extraction, Refusal>) -> u32
    ensures { result ≡ extract_number (extraction_answer answer) }
{
    match answer {
        Err(r) => u32::from(u8::from(r)),
        Ok(Extraction::Unequal { run, layer, number }) => {
            65536 * u32::from(layer) + 256 * u32::from(run) + u32::from(number)
        }
        Ok(Extraction::Extracted { run, axis }) => 256 * (u32::from(run) + 1) + u32::from(axis),
    }
}

// From two accepted openings of one exchange of so many runs: the first unequal pair of strings, or in out every leaf's state of each run
// whose hidden leaves differ.
// A set of another length gives 2 before everything else.
#[unsafe(no_mangle)]
pub extern "C" fn unlock_extract(
    set: &[usize],
    runs: usize,
    first1: &[u8],
    first2: &[u8],
    first3: &[u8],
    first4: &[u8],
    first5: &[u8],
    second1: &[u8],
    second2: &[u8],
    second3: &[u8],
    second4: &[u8],
    second5: &[u8],
    matrix: &[u8],
    y: &[u8],
    work: &mut [u8],
    out: &mut [u8],
) -> u32
    ensures { given result out.new work.new
        ≡ extract_set set.now runs
        (transcript first1.now first2.now first3.now first4.now first5.now)
        (transcript second1.now second2.now second3.now second4.now second5.now)
        (key_of matrix.now y.now) work.old out.old }
{
    if set.len() != parameters::set::LENGTH {
        return 2;
    }
    let p = parameters_of(set);
    let first = Transcript {
        message1: first1,
        message2: first2,
        message3: first3,
        leaves: first4,
        message5: first5,
    };
    let second = Transcript {
        message1: second1,
        message2: second2,
        message3: second3,
        leaves: second4,
        message5: second5,
    };
    let e = extractor::extract(p, runs, first, second, matrix, y, work, out);
    number(e)
}
