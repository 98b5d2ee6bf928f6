// Work on lent slices of bytes, each function equal to its definition on lists.
#![tactic(auto)]

ghost use Rattle.std.specs.Prelude.{◌≡◌, ◌+◌, ◌≤◌, length};
ghost use Rattle.lists.specs.Part.{put_at};
ghost use Rattle.lists.specs.Sum.{xor_list, xor_at};
ghost use Rattle.lists.specs.Zeroed.{zeroed};
ghost use Rattle.lists.specs.Equal.{eq_list};

// The first n bytes of w become zero.
pub fn zero_front(w: &mut [u8], n: usize)
    requires { n ≤ length w.old }
    ensures { w.new ≡ zeroed n w.old }
{
    for x in w[..n].iter_mut() {
        *x = 0;
    }
}

// s is written to out from index at on.
pub fn put_at(out: &mut [u8], at: usize, s: &[u8])
    requires { at + length s.now ≤ length out.old }
    ensures { out.new ≡ put_at out.old at s.now }
{
    for (i, x) in s.iter().enumerate() {
        out[at + i] = *x;
    }
}

// out becomes a copy of s, which is as long.
pub fn copy(out: &mut [u8], s: &[u8])
    requires { length s.now ≡ length out.old }
    ensures { out.new ≡ s.now }
{
    put_at(out, 0, s);
}

// t is added to s by xor; what s has past the end of t stays.
pub fn xor_into(s: &mut [u8], t: &[u8])
    requires { length t.now ≤ length s.old }
    ensures { s.new ≡ xor_list s.old t.now }
{
    for (i, x) in t.iter().enumerate() {
        s[i] ^= *x;
    }
}

// s is added by xor to the part of d from index at on.
pub fn xor_at(d: &mut [u8], at: usize, s: &[u8])
    requires { at + length s.now ≤ length d.old }
    ensures { d.new ≡ xor_at d.old at s.now }
{
    let end = at + s.len();
    xor_into(&mut d[at..end], s);
}

// Are the two slices the same?
pub fn equal(a: &[u8], b: &[u8]) -> bool
    ensures { result ≡ eq_list a.now b.now }
{
    if a.len() != b.len() {
        return false;
    }
    for (i, x) in a.iter().enumerate() {
        if *x != b[i] {
            return false;
        }
    }
    true
}
