// The parameters as the numbers of the set line, in its order: the one place that knows the order.
ghost use Rattle.std.specs.Prelude.{◌≡◌, length};
ghost use Rattle.parameters.specs.Set.{set_length, numbers_of, parameters_of};

use crate::Parameters;

// How many numbers a set has.
pub const LENGTH: usize = 5;

// The parameters that the numbers of a set name.
pub fn parameters_of(numbers: &[usize]) -> Parameters
    requires { length numbers.now ≡ set_length }
    ensures { result ≡ parameters_of numbers.now }
{
    Parameters {
        m: numbers[0],
        k: numbers[1],
        w: numbers[2],
        axes: numbers[3],
        t: numbers[4],
    }
}

// The numbers of the parameters.
pub fn numbers_of(p: Parameters) -> [usize; LENGTH]
    ensures { result ≡ numbers_of p }
{
    [p.m, p.k, p.w, p.axes, p.t]
}
