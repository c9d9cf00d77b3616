// One table holds all that a replay has, so that functions lend a single buffer on; only the work areas lie elsewhere.
// All places are tested as the program runs; what doesn't fit counts as a difference. So nothing here asks for more than guards.
ghost use Rattle.std.specs.Prelude.{◌<◌, ◌≤◌};

use blake3::Digest;
use block::Block;
use share::LENT_HEAD;

pub type Table = [u8; TABLE_LEN];

pub const TABLE_LEN: usize = 1452032;

// Counts, a Block each: what was compared, and ends by their number.
pub const DIFFERENCES: usize = 0;

pub const CURRENT: usize = 16;

pub const HONEST: usize = 32;

pub const DAMAGED: usize = 48;

pub const MESSAGES: usize = 64;

pub const COMBINED: usize = 80;

pub const UNCOMBINED: usize = 96;

pub const ENDS: usize = 160;

// The log of a session, a byte for each box: the round due, and the round in which it refused.
pub const DUE: usize = 4256;

pub const REFUSED: usize = 4264;

// r, and the inputs of one box: delta at 0, seed at 16, pair seeds at 48, masks at 400, then its lists of records.
pub const STRINGS: usize = 4272;

pub const INPUTS: usize = 10032;

pub const INPUTS_LEN: usize = 82000;

// Where the lists start among the inputs.
pub const ALPHA: usize = 1000;

pub const BETA: usize = 3200;

pub const BITS: usize = 5400;

// What boxes wrote, OUT_LEN bytes each, here for one call and there for the next; and the list that is replayed, 800,000 bytes.
pub const OUT: usize = 92032;

pub const OTHER_OUT: usize = 372032;

pub const LIST: usize = 652032;

// What there is room for.
pub const OUT_LEN: usize = 35000;

// ---- numbers

// Sum and product of numbers that fit any file here; 0 for larger ones.
pub(crate) fn sum(a: usize, b: usize) -> usize
    ensures { result ≤ 2000000000 }
{
    if 1000000000 < a {
        return 0;
    }
    if 1000000000 < b {
        return 0;
    }
    a + b
}

pub(crate) fn product(a: usize, b: usize) -> usize {
    if 10000 < a {
        return 0;
    }
    if 1000000 < b {
        return 0;
    }
    a * b
}

// Byte `at` of a word, from its low end.
pub(crate) fn field(w: u64, at: u64) -> usize
    requires { at < 8 }
    ensures { result ≤ 255 }
{
    ((w >> (8 * at)) % 256) as usize
}

pub(crate) fn small(x: usize) -> u8 {
    u8::try_from(x).unwrap_or(255)
}

// ---- reading

pub(crate) fn get(t: &Table, at: usize) -> u8 {
    t.get(at).copied().unwrap_or(0)
}

// Eight bytes.
pub(crate) fn word(t: &Table, at: usize) -> u64 {
    if at < TABLE_LEN - 8 {
        block::load64(t, at)
    } else {
        0
    }
}

// The length or count of four bytes.
pub(crate) fn length(t: &Table, at: usize) -> usize {
    (word(t, at) % 0x1_0000_0000) as usize
}

// The first n; none where there aren't as many.
pub(crate) fn first<T>(s: &[T], n: usize) -> &[T] {
    s.get(..n).unwrap_or(&[])
}

// `len` bytes; none where there aren't as many.
pub(crate) fn part(s: &[u8], at: usize, len: usize) -> &[u8] {
    first(s.get(at..).unwrap_or(&[]), len)
}

// Whether there is nothing but b.
pub(crate) fn only(s: &[u8], b: u8) -> bool {
    s.iter().all(|&x| x == b)
}

// Whether the hash of s stands at `at`; whether there are 32 zeros.
pub(crate) fn stands(t: &Table, at: usize, s: &[u8]) -> bool {
    let d = blake3::digest_of(s);
    if at < TABLE_LEN - 32 {
        d.is(t, at)
    } else {
        false
    }
}

pub(crate) fn none(t: &Table, at: usize) -> bool {
    only(part(t, at, 32), 0)
}

// ---- writing

pub(crate) fn put(t: &mut Table, at: usize, b: u8) {
    if let Some(place) = t.get_mut(at) {
        *place = b;
    }
}

pub(crate) fn put_block(s: &mut [u8], at: usize, b: Block) {
    if s.len() < 16 {
        return;
    }
    if s.len() - 16 < at {
        return;
    }
    let e = at + 16;
    block::store(&mut s[at..e], b);
}

pub(crate) fn put_digest(s: &mut [u8], at: usize, d: Digest) {
    if s.len() < 32 {
        return;
    }
    if s.len() - 32 < at {
        return;
    }
    let e = at + 32;
    d.store(&mut s[at..e]);
}

// The head of box j's record among n; none where there is no such box.
pub(crate) fn put_head(s: &mut [u8], at: usize, n: usize, j: usize, bit: bool) {
    if 8 < n {
        return;
    }
    if n <= j {
        return;
    }
    if s.len() < LENT_HEAD {
        return;
    }
    if s.len() - LENT_HEAD < at {
        return;
    }
    let e = at + LENT_HEAD;
    share::put_lent_head(&mut s[at..e], n, j, bit);
}

pub(crate) fn store(t: &mut Table, to: usize, s: &[u8])
    requires { to ≤ 2000000000 }
{
    for (q, &b) in s.iter().enumerate() {
        put(t, to + q, b);
    }
}

pub(crate) fn count(t: &mut Table, at: usize, more: usize) {
    let x = word(t, at).wrapping_add(more as u64);
    put_block(t, at, Block(x, 0));
}
