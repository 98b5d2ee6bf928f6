// Prints the listing of the key that standard input holds (document 01, Key listing). Standard input is read in pieces, so that it may have any
// length; what is printed for it is `listing_of` of all its bytes (`finish-listing`).
#![tactic(auto)]

use keytext::KeyScan;
use keytext::listing::LONGEST_LISTING;
use layout::{LONGEST_Y, MOST_MATRIX};
use std::io;

fn main(rt: HostRuntime) -> io::Result<()> {
    let mut matrix = [0; MOST_MATRIX];
    let mut y = [0; LONGEST_Y];
    let mut x_a = [0; LONGEST_Y];
    let mut out = [0; LONGEST_LISTING];
    let mut input = rt.stdin();
    let scan = keyinput::feed_rest(&mut input, KeyScan::new(), &mut matrix, &mut y, &mut x_a)?;
    let n = keytext::listing::finish(scan, &matrix, &y, &x_a, &mut out);
    rt.write_all(&out[..n])
}
