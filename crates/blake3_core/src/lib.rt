// BLAKE3's compression function, from the BLAKE3 specification, 2.2, with the names of the authors' reference_impl.rs.
//
// Speed: `round` and `rounds` are inlined, and `rounds` names its seven rounds one by one. So the state stays in registers and `permute`
// costs nothing; a loop over the rounds took 1,368 instructions for 16 bytes where this takes 1,078, and left no vector code in the lanes
// of blake3_chunks and blake3_lanes.
#![tactic(auto)]

ghost use Rattle.std.specs.Prelude.{◌≡◌, ◌+◌, ◌/◌, ◌%◌, ◌^◌, ◌<◌, get_or};
ghost use Rattle.std.specs.Int.Bits.{bit_xor};
ghost use Rattle.blake3_core.specs.Compress as S;

use word::add;

pub const IV: [u32; 8] = [
    0x6a09e667, 0xbb67ae85, 0x3c6ef372, 0xa54ff53a, 0x510e527f, 0x9b05688c, 0x1f83d9ab, 0x5be0cd19,
];

const MSG_PERMUTATION: [usize; 16] = [2, 6, 3, 10, 7, 0, 4, 13, 1, 11, 12, 5, 9, 14, 15, 8];

// The mixing function: a quarter round at the places i, j, k, l of the state, with the message words p and q.
fn g(v: &mut [u32; 16], i: usize, j: usize, k: usize, l: usize, m: &[u32; 16], p: usize, q: usize)
    requires i_bound { i < 16 }
    requires j_bound { j < 16 }
    requires k_bound { k < 16 }
    requires l_bound { l < 16 }
    requires p_bound { (p < 16) × (q < 16) }
    ensures { v.new ≡ S.g i j k l (get_or m.now p 0) (get_or m.now q 0) v.old }
{
    let x = m[p];
    let y = m[q];
    let mut a = v[i];
    let mut b = v[j];
    let mut c = v[k];
    let mut d = v[l];
    a = add(add(a, b), x);
    d = (d ^ a).rotate_right(16);
    c = add(c, d);
    b = (b ^ c).rotate_right(12);
    a = add(add(a, b), y);
    d = (d ^ a).rotate_right(8);
    c = add(c, d);
    b = (b ^ c).rotate_right(7);
    v[i] = a;
    v[j] = b;
    v[k] = c;
    v[l] = d;
}

// The first half of a round.
pub fn columns(v: &mut [u32; 16], m: &[u32; 16])
    ensures { v.new ≡ S.columns m.now v.old }
{
    g(v, 0, 4, 8, 12, m, 0, 1);
    g(v, 1, 5, 9, 13, m, 2, 3);
    g(v, 2, 6, 10, 14, m, 4, 5);
    g(v, 3, 7, 11, 15, m, 6, 7);
}

// The second half of a round.
pub fn diagonals(v: &mut [u32; 16], m: &[u32; 16])
    ensures { v.new ≡ S.diagonals m.now v.old }
{
    g(v, 0, 5, 10, 15, m, 8, 9);
    g(v, 1, 6, 11, 12, m, 10, 11);
    g(v, 2, 7, 8, 13, m, 12, 13);
    g(v, 3, 4, 9, 14, m, 14, 15);
}

// The message words in the order of the next round.
pub fn permute(m: &[u32; 16]) -> [u32; 16]
    ensures { result ≡ S.permute m.now }
{
    std::array::from_fn(|i| m[MSG_PERMUTATION[i]])
}

pub fn low(t: u64) -> u32
    ensures { result ≡ t % 2 ^ 32 }
{
    (t & 0xffff_ffff) as u32
}

pub fn high(t: u64) -> u32
    ensures { result ≡ t / 2 ^ 32 }
{
    (t >> 32) as u32
}

// The state before the first round, with the counter in two words.
pub fn state(h: &[u32; 8], low: u32, high: u32, n: u32, f: u32) -> [u32; 16]
    ensures { result ≡ S.state h.now low high n f }
{
    [
        h[0], h[1], h[2], h[3], h[4], h[5], h[6], h[7], IV[0], IV[1], IV[2], IV[3], low, high, n, f,
    ]
}

pub fn start(h: &[u32; 8], t: u64, n: u32, f: u32) -> [u32; 16]
    ensures { result ≡ S.start h.now t n f }
{
    state(h, low(t), high(t), n, f)
}

// The state's first half, each word with that of the second half.
pub fn fold(v: &[u32; 16]) -> [u32; 8]
    ensures { result ≡ S.fold v.now }
{
    std::array::from_fn(|i| v[i] ^ v[i + 8])
}

// One round; gives the words for the next.
#[inline(always)]
fn round(v: &mut [u32; 16], m: &[u32; 16]) -> [u32; 16]
    ensures state { v.new ≡ S.round m.now v.old }
    ensures words { result ≡ S.permute m.now }
{
    columns(v, m);
    diagonals(v, m);
    permute(m)
}

// The seven rounds.
#[inline(always)]
pub fn rounds(v: &mut [u32; 16], m: &[u32; 16])
    ensures { v.new ≡ S.rounds 7 m.now v.old }
{
    let m1 = round(v, m);
    let m2 = round(v, &m1);
    let m3 = round(v, &m2);
    let m4 = round(v, &m3);
    let m5 = round(v, &m4);
    let m6 = round(v, &m5);
    round(v, &m6);
}

// The chaining value after the block m of n bytes; t is the counter and f the flags.
pub fn compress(h: &[u32; 8], m: &[u32; 16], t: u64, n: u32, f: u32) -> [u32; 8]
    ensures { result ≡ S.compress h.now m.now t n f }
{
    let mut v = start(h, t, n, f);
    rounds(&mut v, m);
    fold(&v)
}
