// What the bytes of both sessions share: the parameters, and parts one behind the other.
ghost use Rattle.std.specs.Prelude.{◌≡◌, ◌+◌, ◌≤◌, [], ◌∷◌, ◌++◌, length};
ghost use Rattle.stored.specs.Parameters.{Small, parameter_bytes, parameters_from};

use parameters::Parameters;
use parameters::set::{numbers_of, parameters_of};

// The parameters, which stand behind the phase.
pub fn read_parameters(b: &[u8]) -> Parameters
    requires { 6 ≤ length b.now }
    ensures { result ≡ parameters_from b.now }
{
    let numbers = [
        usize::from(b[1]),
        usize::from(b[2]),
        usize::from(b[3]),
        usize::from(b[4]),
        usize::from(b[5]),
    ];
    parameters_of(&numbers)
}

// Phase, parameters and run count, with which a session's bytes start.
pub fn head(phase: u8, p: Parameters, runs: usize) -> [u8; 7]
    requires { Small p runs }
    ensures { result ≡ phase ∷ (parameter_bytes p ++ (runs ∷ [])) }
{
    let n = numbers_of(p);
    [
        phase, n[0] as u8, n[1] as u8, n[2] as u8, n[3] as u8, n[4] as u8, runs as u8,
    ]
}

// The five parts are written to out, one behind the other; they fill it.
pub fn write_parts(a: &[u8], b: &[u8], c: &[u8], d: &[u8], e: &[u8], out: &mut [u8])
    requires { length out.old ≡ length a.now + length b.now + length c.now + length d.now + length e.now }
    ensures { out.new ≡ a.now ++ (b.now ++ (c.now ++ (d.now ++ e.now))) }
{
    lists::put_at(out, 0, a);
    let at_b = a.len();
    lists::put_at(out, at_b, b);
    let at_c = at_b + b.len();
    lists::put_at(out, at_c, c);
    let at_d = at_c + c.len();
    lists::put_at(out, at_d, d);
    let at_e = at_d + d.len();
    lists::put_at(out, at_e, e);
}
