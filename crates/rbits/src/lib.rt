// For the random sums of `fabitn`, from `chunked_update_with_rbits` of src/mpc/faand.rs: for each of 120 strings r the XOR of the chosen
// bits, and of the chosen MACs and keys. Records are taken 64 at a time: one word of each string. Here are the tables: four records have 16
// sums, low and high word side by side, and four digits of a string's word say which of the 16 it takes (crate rpairs); and the bits, as
// the digits of a word. r is public, so it may be an index. Bits, MACs and keys are secret, and decide no branch and no index.
#![tactic(auto)]

ghost use Rattle.std.specs.Prelude.{◌≡◌, ◌+◌, ◌*◌, ◌^◌, ◌≤◌, ◌<◌, length, get_or};
ghost use Rattle.lists.specs.Over.{tab};
ghost use Rattle.std.specs.Int.Count.{ones};
ghost use Rattle.algebra.specs.Group.{odd, num};
ghost use Rattle.rbits.specs.Tables.{record_block, pair, sums8, four, table4, tables};
ghost use Rattle.rbits.specs.Tables.{record_bit, packed, masked_at};

use block::Block;

// The words of a window: a Block of each of 120 strings.
pub const WINDOW: usize = 240;

// The Block at `at` of record t, and zero past the last record: so the last group has 64 records too.
fn record_block(s: &[u8], stride: usize, at: usize, count: usize, t: usize) -> Block
    requires { (at + 16 ≤ stride) × (count * stride ≤ length s.now) }
    ensures { result ≡ record_block s.now stride at count t }
{
    if t < count {
        block::load(s, t * stride + at)
    } else {
        Block::zero()
    }
}

// The sums of every choice of three Blocks, each with y added: a is in those with an odd number. In words, which the check is quicker with.
fn put_sums(out: &mut [u64], a0: u64, a1: u64, b0: u64, b1: u64, c0: u64, c1: u64, y0: u64, y1: u64)
    requires { length out.old ≡ 16 }
    ensures { out.new ≡ sums8 (pair a0 a1) (pair b0 b1) (pair c0 c1) (pair y0 y1) }
{
    out[0] = y0;
    out[1] = y1;
    out[2] = a0 ^ y0;
    out[3] = a1 ^ y1;
    out[4] = b0 ^ y0;
    out[5] = b1 ^ y1;
    out[6] = a0 ^ b0 ^ y0;
    out[7] = a1 ^ b1 ^ y1;
    out[8] = c0 ^ y0;
    out[9] = c1 ^ y1;
    out[10] = a0 ^ c0 ^ y0;
    out[11] = a1 ^ c1 ^ y1;
    out[12] = b0 ^ c0 ^ y0;
    out[13] = b1 ^ c1 ^ y1;
    out[14] = a0 ^ b0 ^ c0 ^ y0;
    out[15] = a1 ^ b1 ^ c1 ^ y1;
}

// The sums of every choice of four Blocks: those without d, then those with it.
fn put_table(out: &mut [u64], a: Block, b: Block, c: Block, d: Block)
    requires { length out.old ≡ 32 }
    ensures { out.new ≡ table4 (four a b c d) }
{
    put_sums(&mut out[0..16], a.0, a.1, b.0, b.1, c.0, c.1, 0, 0);
    put_sums(&mut out[16..32], a.0, a.1, b.0, b.1, c.0, c.1, d.0, d.1);
}

// The tables of the 64 records from `first` on.
pub fn fill(out: &mut [u64], s: &[u8], stride: usize, at: usize, count: usize, first: usize)
    requires out_len { length out.old ≡ 512 }
    requires at_bound { (at + 16 ≤ stride) × (count * stride ≤ length s.now) }
    requires first_bound { first + 64 < 2 ^ 64 }
    ensures { out.new ≡ tables (λ e. record_block s.now stride at count (first + e)) }
{
    for k in 0..16 {
        let a = k * 32;
        let e = a + 32;
        let t = first + k * 4;
        put_table(
            &mut out[a..e],
            record_block(s, stride, at, count, t),
            record_block(s, stride, at, count, t + 1),
            record_block(s, stride, at, count, t + 2),
            record_block(s, stride, at, count, t + 3),
        );
    }
}

// Adds the first entry, which is the sum of nothing. For LLVM alone: two words at the start of both arrays are one of 16 bytes, so that it
// lays them on a multiple of 16, and crate rpairs takes each entry by one instruction.
pub fn add_nothing(acc: &mut [u64], tab: &[u64; 512])
    requires in_bounds { 2 ≤ length acc.old }
    requires tab_value { (get_or tab.now 0 0 ≡ 0) × (get_or tab.now 1 0 ≡ 0) }
    ensures { acc.new ≡ acc.old }
{
    let x = acc[0] ^ tab[0];
    let y = acc[1] ^ tab[1];
    acc[0] = x;
    acc[1] = y;
}

// The bit of record i as 0 or 1, and 0 past the last record.
fn digit(s: &[u8], stride: usize, count: usize, i: usize) -> u64
    requires { (1 ≤ stride) × (count * stride ≤ length s.now) }
    ensures { result ≡ num (record_bit s.now stride count i) }
{
    if i < count {
        (s[i * stride] % 2) as u64
    } else {
        0
    }
}

// The bits of the 64 records from `first` on, as the digits of a word.
pub fn pack(s: &[u8], stride: usize, count: usize, first: usize) -> u64
    requires le_stride { (1 ≤ stride) × (count * stride ≤ length s.now) }
    requires first_bound { first + 64 < 2 ^ 64 }
    ensures { result ≡ packed 64 (λ e. record_bit s.now stride count (first + e)) }
{
    let mut w = 0;
    for e in 0..64 {
        w = (digit(s, stride, count, first + e) << e) + w;
    }
    w
}

// Adds to each string's word the bits of b that its word in half h of the window chooses, by mask: each digit is summed by itself.
pub fn add_bits(acc: &mut [u64], win: &[u64; WINDOW], h: usize, b: u64)
    requires { (length acc.old ≡ 120) × (h < 2) }
    ensures { acc.new ≡ tab 120 (masked_at acc.old win.now h b) }
{
    for j in 0..120 {
        acc[j] ^= win[j * 2 + h] & b;
    }
}

// The sum of each word's digits.
pub fn parities(acc: &[u64; 120]) -> [u8; 120]
    ensures { result ≡ tab 120 (λ j. num (odd (ones (get_or acc.now j 0)))) }
{
    let mut out = [0u8; 120];
    for j in 0..120 {
        out[j] = (acc[j].count_ones() % 2) as u8;
    }
    out
}
