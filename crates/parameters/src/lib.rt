// The parameters of an exchange and their limits (document 01, 'Parameters').
#![tactic(auto)]

pub mod set;

ghost use Rattle.std.specs.Prelude.{◌≡◌};
ghost use Rattle.parameters.specs.Limits.{within_limits};

// The parameters: length m, dimension k, weight w, axes D, positions t. Each can hold a value past its limit, which is refused.
#[derive(Clone, Copy)]
pub struct Parameters {
    pub m: usize,
    pub k: usize,
    pub w: usize,
    pub axes: usize,
    pub t: usize,
}

// Are all parameters within their limits?
pub fn within_limits(p: Parameters) -> bool
    ensures { result ≡ within_limits p }
{
    (2..=255).contains(&p.m)
        && (1..p.m).contains(&p.k)
        && (1..=p.m).contains(&p.w)
        && (1..=8).contains(&p.axes)
        && (1..=8).contains(&p.t)
}
