// What an opening gives; the leaves opened in both openings compared (layer 4).
ghost use Rattle.std.specs.Prelude.{◌≡◌, ◌&&◌, ◌<◌};
ghost use Rattle.lists.specs.Equal.{eq_list};
ghost use Rattle.layout.specs.Layout.{leaves};
ghost use Rattle.exchange.specs.Extractor.{opened_in_both};
ghost use Rattle.extractor.specs.Comparison.{leaf_at, both_apart};
ghost use Rattle.extractor.specs.Head.{first_below};
ghost use Rattle.extractor.specs.Opened.{seen, view_in, Gives};
ghost use Rattle.extractor.specs.Shapes.{Both};

use crate::pairs::Place;
use layout::{is_last, leaf_count, opened_length};
use lists::equal;
use parameters::Parameters;
use reader::opening::aux_place;

// What an opening gives: the leaf that it hides, aux, and what its check made: states, rows, the hidden leaf's commitment.
#[derive(Clone, Copy)]
pub struct Opened<'a> {
    pub hidden: usize,
    pub aux: &'a [u8],
    pub made: &'a [u8],
}

// What the opening of a run gives: aux ends its part of message 5, and the front of `half` is what its check made.
pub fn opened_at<'a>(p: Parameters, place: Place, message5: &'a [u8], half: &'a [u8]) -> Opened<'a>
    requires { Gives p place message5.now half.now }
    ensures { seen p result ≡ view_in p place message5.now half.now }
{
    let aux = place.start + aux_place(p);
    let all = opened_length(p);
    Opened {
        hidden: place.leaf,
        aux: &message5[aux..place.end],
        made: &half[..all],
    }
}

// Is what is hashed of a leaf the same in both openings?
fn same_leaf(p: Parameters, first: Opened, second: Opened, leaf: usize) -> bool
    requires { Both p first.made.now second.made.now × (leaf < leaves p) }
    ensures { result ≡ eq_list (leaf_at p first.entry.made.now first.entry.aux.now leaf)
        (leaf_at p second.entry.made.now second.entry.aux.now leaf) }
{
    let at = 32 * leaf;
    let end = at + 32;
    if !equal(&first.made[at..end], &second.made[at..end]) {
        return false;
    }
    if is_last(p, leaf) {
        return equal(first.aux, second.aux);
    }
    true
}

// Is the leaf opened in both openings?
fn in_both(first: Opened, second: Opened, leaf: usize) -> bool
    ensures { result ≡ opened_in_both first.entry.hidden second.entry.hidden leaf }
{
    leaf != first.hidden && leaf != second.hidden
}

// Is the leaf opened in both openings, and what is hashed of it the same in both?
pub fn leaf_agrees(p: Parameters, first: Opened, second: Opened, leaf: usize) -> bool
    requires { Both p first.made.now second.made.now × (leaf < leaves p) }
    ensures { result ≡ (opened_in_both first.entry.hidden second.entry.hidden leaf &&
        eq_list (leaf_at p first.entry.made.now first.entry.aux.now leaf)
        (leaf_at p second.entry.made.now second.entry.aux.now leaf)) }
{
    in_both(first, second, leaf) && same_leaf(p, first, second, leaf)
}

// Is the leaf opened in both openings, and not the same in both?
fn leaf_differs(p: Parameters, first: Opened, second: Opened, leaf: usize) -> bool
    requires { Both p first.made.now second.made.now × (leaf < leaves p) }
    ensures { result ≡ both_apart first.entry.hidden second.entry.hidden
        (leaf_at p first.entry.made.now first.entry.aux.now)
        (leaf_at p second.entry.made.now second.entry.aux.now) leaf }
{
    in_both(first, second, leaf) && !same_leaf(p, first, second, leaf)
}

// The first leaf opened in both openings that differs.
pub fn first_leaf(p: Parameters, first: Opened, second: Opened) -> Option<u8>
    requires { Both p first.made.now second.made.now }
    ensures { result ≡ first_below (both_apart first.entry.hidden second.entry.hidden
        (leaf_at p first.entry.made.now first.entry.aux.now)
        (leaf_at p second.entry.made.now second.entry.aux.now)) (leaves p) }
{
    for leaf in 0..leaf_count(p) {
        if leaf_differs(p, first, second, leaf) {
            return Some(leaf as u8);
        }
    }
    None
}
