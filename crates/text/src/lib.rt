// Text read byte by byte and written into lent slices: words, decimals, hex. A scanner is a state by value: what it has come to is a function of
// the bytes of its field so far, in whatever pieces they arrive. Its `sound` is a field of its own, since the others keep their meaning without it.
#![tactic(auto)]

pub mod decimal;
pub mod hex;
pub mod print;
pub mod word;
