// Lengths that a caller asks for before it lends slices.
ghost use Rattle.std.specs.Prelude.{◌≡◌};
ghost use Rattle.stored.specs.Prover.{prover_size};
ghost use Rattle.stored.specs.Verifier.{verifier_size};
ghost use Rattle.capi.specs.Sizes.{set_within, work_size, opening_size, extract_size};

use parameters::set::parameters_of;

// The bytes of a prover's session.
#[unsafe(no_mangle)]
pub extern "C" fn unlock_prover_size() -> usize
    ensures { result ≡ prover_size }
{
    stored::PROVER_SIZE
}

// The bytes of a verifier's session.
#[unsafe(no_mangle)]
pub extern "C" fn unlock_verifier_size() -> usize
    ensures { result ≡ verifier_size }
{
    stored::VERIFIER_SIZE
}

// Has the set its length, and is every parameter within its limits?
fn set_within(set: &[usize]) -> bool
    ensures { result ≡ set_within set.now }
{
    if set.len() != parameters::set::LENGTH {
        return false;
    }
    parameters::within_limits(parameters_of(set))
}

// The length of the work area that calls ask; 0 where the set has another length or a parameter is outside its limits.
#[unsafe(no_mangle)]
pub extern "C" fn unlock_work_size(set: &[usize]) -> usize
    ensures { result ≡ work_size set.now }
{
    if !set_within(set) {
        return 0;
    }
    layout::work_length(parameters_of(set))
}

// The length of message 5 of as many runs as there are hidden leaves; 0 where the set has another length, or a parameter or the run
// count is outside its limits.
#[unsafe(no_mangle)]
pub extern "C" fn unlock_opening_size(set: &[usize], leaves: &[u8]) -> usize
    ensures { result ≡ opening_size set.now leaves.now }
{
    if !layout::runs::runs_within(leaves.len()) {
        return 0;
    }
    if !set_within(set) {
        return 0;
    }
    layout::runs::messages5_length(parameters_of(set), leaves)
}

// The length of the extractor's output for so many runs; 0 where the set has another length, or a parameter or the run count is
// outside its limits.
#[unsafe(no_mangle)]
pub extern "C" fn unlock_extract_size(set: &[usize], runs: usize) -> usize
    ensures { result ≡ extract_size set.now runs }
{
    if !layout::runs::runs_within(runs) {
        return 0;
    }
    if !set_within(set) {
        return 0;
    }
    layout::runs::outputs_length(parameters_of(set), runs)
}
