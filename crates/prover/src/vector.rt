// The key's vector made and weighed.
ghost use Rattle.std.specs.Prelude.{◌≡◌, ◌+◌, ◌*◌, ◌≤◌, leb, length, replicate};
ghost use Rattle.lists.specs.Part.{put_at};
ghost use Rattle.relation.specs.Key.{vector_of, weight_of};
ghost use Rattle.prover.specs.Arguments.{Weighing};

use bytefield::FieldTables;
use parameters::Parameters;

// x becomes the key's vector; has it at most w nonzero entries?
fn light_vector(w: usize, x_a: &[u8], matrix: &[u8], y: &[u8], x: &mut [u8]) -> bool
    requires { (length x.old ≡ length x_a.now + length y.now) × (length y.now * length x_a.now ≤ length matrix.now) }
    ensures { (x.new ≡ vector_of matrix.now y.now x_a.now)
        × (result ≡ leb (weight_of (vector_of matrix.now y.now x_a.now)) w) }
{
    let tables = FieldTables::new();
    key::vector(x_a, matrix, y, x, &tables);
    key::within_weight(w, x)
}

// The key's vector is made at the front of x, which came as 255 zeros; has it at most w nonzero entries?
pub fn weigh(p: Parameters, x_a: &[u8], matrix: &[u8], y: &[u8], x: &mut [u8]) -> bool
    requires { Weighing p x_a.now matrix.now y.now x.old }
    ensures { (x.new ≡ put_at (replicate 255 0) 0 (vector_of matrix.now y.now x_a.now))
        × (result ≡ leb (weight_of (vector_of matrix.now y.now x_a.now)) p.w) }
{
    let m = p.m;
    light_vector(p.w, x_a, matrix, y, &mut x[..m])
}
