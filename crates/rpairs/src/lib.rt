// The random sums of `fabitn` for two Blocks of each record, the MAC and the key of a party, by the tables of crate rbits: the digits of a
// string's word are taken once for both, and a Block takes a third less time. r is public, so it may be an index. The Blocks are secret,
// and decide no branch and no index.
#![tactic(auto)]

ghost use Rattle.std.specs.Prelude.{◌≡◌, ◌+◌, ◌*◌, ◌^◌, ◌<◌, ◌≤◌, length};
ghost use Rattle.rbits.specs.Chosen.{words_of};
ghost use Rattle.rbits.specs.Tables.{record_block, tables, lookup};
ghost use Rattle.rpairs.specs.Added.{added_from};

use block::Block;
use rbits::WINDOW;

// The sums of the 64 records that w chooses, in two tables: four digits of w at a time, by shift and mask.
fn choose_two(t: &[u64; 512], u: &[u64; 512], w: u64) -> (Block, Block)
    ensures { (result.0 ≡ lookup t.now w) × (result.1 ≡ lookup u.now w) }
{
    let mut a = 0;
    let mut b = 0;
    let mut c = 0;
    let mut d = 0;
    for k in 0..16 {
        let low = (k * 16 + (w >> (k * 4) & 15) as usize) * 2;
        let high = low + 1;
        a ^= t[low];
        b ^= t[high];
        c ^= u[low];
        d ^= u[high];
    }
    (Block(a, b), Block(c, d))
}

// Adds to the sums of each string, in both lists from Block `base` on, what its word in half h of the window chooses.
fn add_two(
    x: &mut [u64],
    y: &mut [u64],
    base: usize,
    t: &[u64; 512],
    u: &[u64; 512],
    win: &[u64; WINDOW],
    h: usize,
)
    requires x_len { (length x.old ≡ 1680) × (length y.old ≡ 1680) }
    requires base_bound { (base + 120 ≤ 840) × (h < 2) }
    ensures x_after { x.new ≡ words_of 840 (added_from base x.old t.now win.now h) }
    ensures y_after { y.new ≡ words_of 840 (added_from base y.old u.now win.now h) }
{
    for j in 0..120 {
        let (b, c) = choose_two(t, u, win[j * 2 + h]);
        let i = (base + j) * 2;
        let k = i + 1;
        let b0 = x[i] ^ b.0;
        let b1 = x[k] ^ b.1;
        let c0 = y[i] ^ c.0;
        let c1 = y[k] ^ c.1;
        x[i] = b0;
        x[k] = b1;
        y[i] = c0;
        y[k] = c1;
    }
}

// Adds to both lists what the strings choose of 64 records from `first` on: in x the Blocks at offset `at` of each, in y those at `also`.
pub fn add_pair(
    x: &mut [u64],
    y: &mut [u64],
    base: usize,
    s: &[u8],
    stride: usize,
    at: usize,
    also: usize,
    count: usize,
    first: usize,
    win: &[u64; WINDOW],
    h: usize,
)
    requires x_len { (length x.old ≡ 1680) × (length y.old ≡ 1680) }
    requires base_bound { (base + 120 ≤ 840) × (h < 2) }
    requires at_bound { (at + 16 ≤ stride) × (also + 16 ≤ stride) × (count * stride ≤ length s.now) }
    requires first_bound { first + 64 < 2 ^ 64 }
    ensures x_after { x.new ≡ words_of 840 (added_from base x.old
        (tables (λ e. record_block s.now stride at count (first + e))) win.now h) }
    ensures y_after { y.new ≡ words_of 840 (added_from base y.old
        (tables (λ e. record_block s.now stride also count (first + e))) win.now h) }
{
    let mut t = [0u64; 512];
    let mut u = [0u64; 512];
    rbits::fill(&mut t, s, stride, at, count, first);
    rbits::fill(&mut u, s, stride, also, count, first);
    add_two(x, y, base, &t, &u, win, h);
    rbits::add_nothing(x, &t);
    rbits::add_nothing(y, &u);
}
