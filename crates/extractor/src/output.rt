// The output: every leaf's state, then aux, each from the opening that discloses it.
ghost use Rattle.std.specs.Prelude.{◌≡◌};
ghost use Rattle.layout.specs.Layout.{leaves};
ghost use Rattle.extractor.specs.Comparison.{output_of};
ghost use Rattle.extractor.specs.Output.{placed};
ghost use Rattle.extractor.specs.Shapes.{Placed, Output};

use crate::opened::Opened;
use layout::{is_last, states_length};
use lists::put_at;
use parameters::Parameters;

// Writes the states of all leaves to out: the first opening's, over them that of the leaf which it hides.
fn put_states(p: Parameters, first: Opened, second: Opened, out: &mut [u8])
    requires { Placed p first.hidden first.made.now second.made.now out.old }
    ensures { out.new ≡ placed (leaves p) first.entry.hidden first.entry.made.now second.entry.made.now out.old }
{
    let all = states_length(p);
    put_at(out, 0, &first.made[..all]);
    let at = 32 * first.hidden;
    let end = at + 32;
    put_at(out, at, &second.made[at..end]);
}

// Fills out with the states of all leaves and aux, which two openings with different hidden leaves disclose.
pub fn write_output(p: Parameters, first: Opened, second: Opened, out: &mut [u8])
    requires { Output p first second out.old }
    ensures { out.new ≡ output_of p first.entry.hidden first.entry.made.now first.entry.aux.now
        second.entry.made.now second.entry.aux.now }
{
    put_states(p, first, second, out);
    let all = states_length(p);
    if is_last(p, first.hidden) {
        put_at(out, all, second.aux);
        return;
    }
    put_at(out, all, first.aux);
}
