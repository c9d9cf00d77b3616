// A bucket of leaky ANDs as one sum over records where they lie: for x all x, for z all z and each later x whose d is 1 (../algebra,
// Bucket). From `combine_bucket` and `combine_two_leaky_ands` of src/mpc/faand.rs; the public call (combine) and the triples of a session
// (triples) take it. Each bit, MAC and key of x and z is written once. Bits, MACs and keys decide no branch and no index; d is a mask.
#![tactic(auto)]

ghost use Rattle.share.specs.Layout as Layout;
ghost use Rattle.std.specs.Prelude.{◌≡◌, ◌++◌, ℕ, ◌+◌, ◌*◌, ◌<◌, ◌≤◌, length, get_or};
ghost use Rattle.algebra.specs.Group.{bits, odd};
ghost use Rattle.algebra.specs.Bucket.{bucket_x, bucket_z};
ghost use Rattle.block.specs.Block.{bytes_of};
ghost use Rattle.share.specs.Layout.{mac_off};
ghost use Rattle.share.specs.Share.{shares};
ghost use Rattle.bucket_sum.specs.Sums.{x_among, z_among, BucketIn, Within, Summed};
ghost use Rattle.bucket_sum.specs.Row.{put_entries, put_heads};

use share::{ENTRY, Entry};

// ---- the sums

// A party's entries of the combined x and z.
#[derive(Clone, Copy)]
pub struct Sums {
    pub x: Entry,
    pub z: Entry,
}

// Their bits.
#[derive(Clone, Copy)]
pub struct Bits {
    pub x: bool,
    pub z: bool,
}

// What stands for the own number.
pub fn nothing() -> Sums
    ensures { (k : ℕ) → Summed k shares.nil shares.nil result }
{
    Sums {
        x: Entry::zero(),
        z: Entry::zero(),
    }
}

// Party k's entries of the sums: the bucket's x are the records ts of s, which has one every `len` bytes, and each z lies `behind` records
// behind its x. d has a byte for each x but the first.
pub fn sum_entries(
    s: &[u8],
    ts: &[usize],
    behind: usize,
    len: usize,
    d: &[u8],
    n: usize,
    k: usize,
) -> Sums
    requires { (BucketIn n len s.now ts.now behind d.now) × (k < n) }
    ensures { Summed k (bucket_x shares (x_among len s.now ts.now) (length d.now))
        (bucket_z shares (x_among len s.now ts.now) (z_among len s.now ts.now behind)
        (λ e. odd (get_or d.now e 0)) (length d.now)) result }
{
    let first = ts[0];
    let mut x = share::entry_at(s, first * len, k);
    let mut z = share::entry_at(s, (first + behind) * len, k);
    for e in 0..d.len() {
        let t = ts[e + 1];
        let later = share::entry_at(s, t * len, k);
        let next = share::entry_at(s, (t + behind) * len, k);
        x = x.xor(later);
        z = z.xor(next).xor(later.times(block::bit(d, e)));
    }
    Sums { x, z }
}

// The bits of the sums: those of z lie in zs, a step of `step` bytes for each record.
pub fn sum_bits(
    s: &[u8],
    ts: &[usize],
    d: &[u8],
    len: usize,
    zs: &[u8],
    behind: usize,
    step: usize,
) -> Bits
    requires ts_len { length ts.now ≡ length d.now + 1 }
    requires within { (Within s.now ts.now 0 len 1) × (Within zs.now ts.now behind step 1) × (1 ≤ len) × (1 ≤ step) }
    ensures { (result.x ≡ bucket_x bits (λ e. (x_among len s.now ts.now e).bit) (length d.now))
        × (result.z ≡ bucket_z bits (λ e. (x_among len s.now ts.now e).bit)
        (λ e. odd (get_or zs.now ((get_or ts.now e 0 + behind) * step) 0))
        (λ e. odd (get_or d.now e 0)) (length d.now)) }
{
    let first = ts[0];
    let mut x = share::bit_at(s, first * len);
    let mut z = block::bit(zs, (first + behind) * step);
    for e in 0..d.len() {
        let t = ts[e + 1];
        let later = share::bit_at(s, t * len);
        let next = block::bit(zs, (t + behind) * step);
        x = x ^ later;
        z = z ^ next ^ (later & block::bit(d, e));
    }
    Bits { x, z }
}

// ---- a row of records: x at its start, z at `z`

// Writes party k's entries of x and z.
pub fn put_entries(row: &mut [u8], z: usize, k: usize, s: Sums)
    requires { (k < 8) × (mac_off k + Layout.ENTRY ≤ z) × (z + (mac_off k + Layout.ENTRY) ≤ length row.old) }
    ensures { row.new ≡ put_entries z k (bytes_of s.x.mac.0 ++ bytes_of s.x.key.0)
        (bytes_of s.z.mac.0 ++ bytes_of s.z.key.0) row.old }
{
    let a = share::mac_off(k);
    let e = a + ENTRY;
    share::put_entry(&mut row[a..e], s.x);
    let from = z + a;
    let to = z + e;
    share::put_entry(&mut row[from..to], s.z);
}

// Writes the heads of x and z.
pub fn put_heads(row: &mut [u8], z: usize, b: Bits)
    requires { (mac_off 0 ≤ z) × (z + mac_off 0 ≤ length row.old) }
    ensures { row.new ≡ put_heads z b.x b.z row.old }
{
    share::put_head(row, b.x);
    share::put_head(&mut row[z..], b.z);
}
