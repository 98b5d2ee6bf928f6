// Message 5 read by a reader: D sibling seeds, the hidden leaf's commitment, its α and β, then aux unless leaf n−1 is hidden.
ghost use Rattle.std.specs.Prelude.{◌≡◌, length};
ghost use Rattle.lists.specs.Part.{put_at};
ghost use Rattle.parameters.specs.Limits.{Within};
ghost use Rattle.reader.specs.Message5.{aux_place, siblings_in, commitment_in, values_in, aux_in};
ghost use Rattle.reader.specs.Opening.{Asked, Parts};

use crate::Reader;
use layout::{siblings_length, values_length};
use parameters::Parameters;

// Where aux starts.
pub fn aux_place(p: Parameters) -> usize
    requires { Within p }
    ensures { result ≡ aux_place p }
{
    siblings_length(p) + 32 + values_length(p)
}

// Takes the parts of a message one after another, each as far as it reaches; the answer is how much is left behind them.
fn read_parts(
    message: &[u8],
    siblings: &mut [u8],
    commitment: &mut [u8],
    values: &mut [u8],
) -> usize
    ensures { Parts message.now siblings.old commitment.old values.old result siblings.new
        commitment.new values.new }
{
    let mut reader = Reader::start(message);
    reader.take(siblings);
    reader.take(commitment);
    reader.take(values);
    reader.left()
}

// Reads message 5 into the fronts of siblings and values and into commitment; the answer is how long aux is, which is the rest
// and stays where it stands.
pub fn read_opening(
    p: Parameters,
    message5: &[u8],
    siblings: &mut [u8],
    commitment: &mut [u8],
    values: &mut [u8],
) -> usize
    requires { Asked p message5.now siblings.old commitment.old values.old }
    ensures value { result ≡ length (aux_in p message5.now) }
    ensures siblings_after { siblings.new ≡ put_at siblings.old 0 (siblings_in p message5.now) }
    ensures commitment_after { commitment.new ≡ commitment_in p message5.now }
    ensures values_after { values.new ≡ put_at values.old 0 (values_in p message5.now) }
{
    let seeds = siblings_length(p);
    let points = values_length(p);
    read_parts(
        message5,
        &mut siblings[..seeds],
        commitment,
        &mut values[..points],
    )
}
