// What several shares announce at one position.
ghost use Rattle.std.specs.Prelude.{◌≡◌, Bool, List, ℕ, ◌+◌, ◌*◌, ◌<◌, ◌≤◌, length};
ghost use Rattle.tower.specs.Field.{bytes_of};
ghost use Rattle.exchange.specs.Reading.{value, ◌⊠◌};
ghost use Rattle.exchange.specs.Values.{Key, F, point_of, multiplier_of};
ghost use Rattle.points.specs.Multiples.{multiples_of};
ghost use Rattle.values.specs.Asked.{SharesAsked, EachAsked};
ghost use Rattle.values.specs.Position.{Valued, RowsOf, Each, factors_of, gamma_of, EachAnnounced};
ghost use Rattle.values.specs.Products.{products_at};

use crate::term::{put_factors, put_gamma};
use crate::valued::evaluate;
use bytefield::FieldTables;
use coefficients::Group;
use layout::{MOST_EVALUATIONS, points_length, row_length, share_length};
use parameters::Parameters;
use points::encoding::point_at;
use points::{multiples_of, product_by};

// A position l: ε and F(r) there, the word of the leading term of Q, and how many products were made up to it.
#[derive(Clone, Copy)]
struct Position {
    l: usize,
    multiplier: [u8; 4],
    vanishing: [u8; 4],
    leading: u64,
    made: usize,
}

// α and β at position l of each of n shares, which stand one after another, are written to its part of out. words is as `evaluate` leaves it,
// and the table has the multiples of ε. Answers how many products were made.
fn announce_factors(
    p: Parameters,
    n: usize,
    shares: &[u8],
    l: usize,
    words: &[u64],
    leading: u64,
    table: &[u64],
    out: &mut [u8],
) -> usize
    requires { SharesAsked p n shares.now l words.now out.old × (128 ≤ length table.now) }
    ensures { ((key : Key) (message2 : List ℕ) (first : Bool)
        → Valued p key first shares.now n (point_of p message2 l) words.now leading
        → table.now ≡ multiples_of (multiplier_of p message2 l)
        → Each p (factors_of p key message2 first shares.now l) out.old out.new n) × (result ≡ n) }
{
    let size = share_length(p);
    let room = row_length(p);
    let mut made = 0;
    for i in 0..n {
        let share = i * size;
        let row = i * room;
        let q = words[i] ^ leading;
        let r = words[n + i];
        made += put_factors(
            p,
            &shares[share..share + size],
            l,
            q,
            r,
            table,
            &mut out[row..row + room],
        );
    }
    made
}

// γ at position l of each of n shares, which stand one after another, is written to its part of out. words is as `evaluate` leaves it,
// and the table has the multiples of ε·F(r). Answers how many products were made.
fn announce_gammas(
    p: Parameters,
    n: usize,
    shares: &[u8],
    l: usize,
    words: &[u64],
    table: &[u64],
    out: &mut [u8],
) -> usize
    requires { SharesAsked p n shares.now l words.now out.old × (128 ≤ length table.now) }
    ensures { ((key : Key) (message2 : List ℕ) (first : Bool) (leading : ℕ)
        → Valued p key first shares.now n (point_of p message2 l) words.now leading
        → table.now ≡ multiples_of (multiplier_of p message2 l ⊠ value (F p) (point_of p message2 l))
        → Each p (gamma_of p message2 shares.now l) out.old out.new n) × (result ≡ n) }
{
    let size = share_length(p);
    let room = row_length(p);
    let behind = 2 * n + 1;
    let mut made = 0;
    for i in 0..n {
        let share = i * size;
        let row = i * room;
        let v = words[behind + i];
        made += put_gamma(
            p,
            &shares[share..share + size],
            l,
            v,
            table,
            &mut out[row..row + room],
        );
    }
    made
}

// α, β and γ at a position of each of n shares are written to its part of out; words is as `evaluate` leaves it. The table becomes first the
// multiples of ε, then those of ε·F(r). Answers how many products were made.
fn announce_valued(
    p: Parameters,
    n: usize,
    shares: &[u8],
    at: Position,
    words: &[u64],
    table: &mut [u64],
    out: &mut [u8],
    tables: &FieldTables,
) -> usize
    requires { SharesAsked p n shares.now at.l words.now out.old × (at.made ≤ 13005) × (length table.old ≡ 128) }
    ensures { ((key : Key) (message2 : List ℕ) (first : Bool)
        → Valued p key first shares.now n (point_of p message2 at.l) words.now at.leading
        → at.multiplier ≡ bytes_of (multiplier_of p message2 at.l) → at.vanishing ≡ bytes_of (value (F p) (point_of p message2 at.l))
        → EachAnnounced p key message2 first shares.now at.l out.old out.new n) × (result ≡ at.made + 1 + 2 * n) }
{
    multiples_of(table, at.multiplier, tables);
    let factors = announce_factors(p, n, shares, at.l, words, at.leading, table, out);
    let product = product_by(at.vanishing, table, at.made + factors);
    multiples_of(table, product.point, tables);
    let gammas = announce_gammas(p, n, shares, at.l, words, table, out);
    product.made + gammas
}

// α, β and γ at position l of each share of a group are written to its part of out; rows is as `evaluate` has it. Answers how many products were made.
pub fn announce_at(
    p: Parameters,
    group: Group,
    shares: &[u8],
    rows: &[u8],
    message2: &[u8],
    l: usize,
    out: &mut [u8],
    tables: &FieldTables,
) -> usize
    requires { EachAsked p group.n shares.now rows.now message2.now out.old × (l < p.t) }
    ensures { ((key : Key) → RowsOf p key group.first shares.now rows.now group.n
        → EachAnnounced p key message2.now group.first shares.now l out.old out.new group.n)
        × (result ≡ products_at p group.n) }
{
    let mut words = [0u64; MOST_EVALUATIONS];
    let mut table = [0u64; 128];
    let n = group.n;
    let e = 3 * n + 1;
    let multiplier = point_at(message2, points_length(p) + 4 * l);
    let r = point_at(message2, 4 * l);
    multiples_of(&mut table, r, tables);
    let values = evaluate(p, group, shares, rows, &table, &mut words[..e]);
    let vanishing = values.vanishing;
    let at = Position {
        l,
        multiplier,
        vanishing,
        leading: values.leading,
        made: values.made,
    };
    announce_valued(p, n, shares, at, &words[..e], &mut table, out, tables)
}
