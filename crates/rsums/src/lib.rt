// All sums of `fabitn` in one pass over the records: for each string the bits, and for each other party the MACs and the keys that it
// chooses. The strings, lent or drawn (crates draw and window), are made once, a window of 128 records at a time, and serve all parties.
// r is public and may be an index. Bits, MACs and keys are secret, and decide no branch and no index.
#![tactic(auto)]

ghost use Rattle.std.specs.Prelude.{◌≡◌, ◌+◌, ◌*◌, ◌-◌, ◌^◌, ◌<◌, ◌≤◌, length};
ghost use Rattle.lists.specs.Over.{tab};
ghost use Rattle.algebra.specs.Group.{num};
ghost use Rattle.share.specs.Record.{record_len, mac_off, key_off};
ghost use Rattle.rbits.specs.Chosen.{bit_sum, words_of};
ghost use Rattle.draw.specs.Strings.{strings};
ghost use Rattle.rsums.specs.Sums.{Given, party_sums, grown};

use rbits::WINDOW;
use window::Strings;

// The words of a Block for each string and each of seven other parties.
pub const WORDS: usize = 1680;

// The sums: of bits as 0 or 1; of MACs and of keys two words a Block, other party q's being Blocks 120q to 120q + 119, zero past the last.
#[derive(Clone, Copy)]
pub struct AllSums {
    pub bits: [u8; 120],
    pub macs: [u64; WORDS],
    pub keys: [u64; WORDS],
}

// Adds what the strings choose of the 64 records from `first` on, of every party but i.
fn add_group(
    macs: &mut [u64; WORDS],
    keys: &mut [u64; WORDS],
    s: &[u8],
    n: usize,
    i: usize,
    count: usize,
    first: usize,
    win: &[u64; WINDOW],
    h: usize,
)
    requires le_n { (2 ≤ n) × (n ≤ 8) × (i < n) × (h < 2) }
    requires n_in_bounds { count * record_len n ≤ length s.now }
    requires first_bound { first + 64 < 2 ^ 64 }
    ensures macs_after { macs.new ≡ words_of 840 (grown mac_off n i s.now count first win.now h
        macs.old (n - 1)) }
    ensures keys_after { keys.new ≡ words_of 840 (grown key_off n i s.now count first win.now h
        keys.old (n - 1)) }
{
    let stride = share::record_len(n);
    for q in 0..n - 1 {
        let k = plan::other(i, q);
        let mac = share::mac_off(k);
        let key = share::key_off(k);
        rpairs::add_pair(
            macs,
            keys,
            q * 120,
            s,
            stride,
            mac,
            key,
            count,
            first,
            win,
            h,
        );
    }
}

// The sums over `count` records among n parties, as box i has them; a string has `blocks` Blocks. Not inlined, so that the sums are on
// the stack only once the strings are made.
#[inline(never)]
fn sums_of(
    made: &Strings,
    s: &[u8],
    n: usize,
    i: usize,
    count: usize,
    r: &[u8],
    blocks: usize,
) -> AllSums
    requires given { Given n i count blocks s.now r.now }
    requires made_of { made.now.r.now ≡ r.now }
    ensures bits_value { result.bits ≡ tab 120 (λ j. num (bit_sum s.now (record_len n) (strings (120 * blocks) r.now)
        (16 * blocks) count j)) }
    ensures macs_value { result.macs ≡ words_of 840 (party_sums mac_off n i s.now (strings (120 * blocks) r.now)
        (16 * blocks) count) }
    ensures keys_value { result.keys ≡ words_of 840 (party_sums key_off n i s.now (strings (120 * blocks) r.now)
        (16 * blocks) count) }
{
    let stride = share::record_len(n);
    let mut bits = [0u64; 120];
    let mut macs = [0u64; WORDS];
    let mut keys = [0u64; WORDS];
    let mut win = [0u64; WINDOW];
    for g in 0..count.div_ceil(64) {
        made.turn(&mut win, blocks, g);
        let h = g % 2;
        let b = rbits::pack(s, stride, count, g * 64);
        rbits::add_bits(&mut bits, &win, h, b);
        add_group(&mut macs, &mut keys, s, n, i, count, g * 64, &win, h);
    }
    AllSums {
        bits: rbits::parities(&bits),
        macs,
        keys,
    }
}

// The same, of strings that are lent, or drawn from a seed.
pub fn sums(s: &[u8], n: usize, i: usize, count: usize, r: &[u8], blocks: usize) -> AllSums
    requires { Given n i count blocks s.now r.now }
    ensures bits_value { result.bits ≡ tab 120 (λ j. num (bit_sum s.now (record_len n) (strings (120 * blocks) r.now)
        (16 * blocks) count j)) }
    ensures macs_value { result.macs ≡ words_of 840 (party_sums mac_off n i s.now (strings (120 * blocks) r.now)
        (16 * blocks) count) }
    ensures keys_value { result.keys ≡ words_of 840 (party_sums key_off n i s.now (strings (120 * blocks) r.now)
        (16 * blocks) count) }
{
    sums_of(&window::prepare(r), s, n, i, count, r, blocks)
}
