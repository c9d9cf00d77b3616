// Combining leaky ANDs as a public call. From `combine_bucket` of src/mpc/faand.rs, as one sum over the bucket (../bucket_sum). Records are
// read where they lie, and each bit, MAC and key is written once. Bits, MACs and keys decide no branch and no index.
#![tactic(auto)]

ghost use Rattle.share.specs.Lent as Lent;
ghost use Rattle.std.specs.Prelude.{◌≡◌, ◌+◌, ◌*◌, ◌<◌, ◌≤◌, length, get_or, drop, leb};
ghost use Rattle.lists.specs.All.{all_of};
ghost use Rattle.lists.specs.Pick.{pick};
ghost use Rattle.refusals.specs.Reason.{code_of};
ghost use Rattle.algebra.specs.Group.{odd};
ghost use Rattle.algebra.specs.Bucket.{bucket_x, bucket_z};
ghost use Rattle.share.specs.Share.{shares};
ghost use Rattle.share.specs.Lent.{lent_len, lent_of};
ghost use Rattle.bucket_sum.specs.Sums.{BucketIn, Entries};
ghost use Rattle.engine.specs.Step.{reply_of};
ghost use Rattle.rounds.specs.Buckets as B;
ghost use Rattle.rounds.specs.Combine as C;
ghost use Rattle.combine.specs.Triples.{x_lent, z_lent};

use bucket_sum::Sums;
use engine::{Refusal, Verdict};
use refusals::Reason;
use share::LABEL;

// A triple's records are x, y and z, so the x of the triples are the records 0, 3, 6 ..; how far behind x the others are.
const TRIPLE: usize = 3;

const Y: usize = 1;

const Z: usize = 2;

// Writes the y of triple t.
fn put_y(out: &mut [u8], triples: &[u8], t: usize, n: usize, i: usize)
    requires n_bound { (n ≤ 8) × (t ≤ 4) × (length out.old ≡ lent_len n) × (i < n) }
    requires n_in_bounds { (3 * t + 1) * lent_len n + lent_len n ≤ length triples.now }
    ensures { out.new ≡ lent_of n i (C.triple n triples.now t).ty }
{
    let at = (TRIPLE * t + Y) * share::lent_len(n);
    share::keep_record(&mut out[LABEL..], triples, at, n, i);
    share::put_lent_head(out, n, i, share::bit_at(triples, at));
}

// What stands for party k in party i's records of the combined x and z.
fn party(triples: &[u8], ts: &[usize], d: &[u8], n: usize, i: usize, k: usize) -> Sums
    requires { (BucketIn n (lent_len n) (drop Lent.LABEL triples.now) ts.now 2 d.now) × (k < n) }
    ensures { Entries i k (bucket_x shares (x_lent n triples.now ts.now) (length d.now))
        (bucket_z shares (x_lent n triples.now ts.now) (z_lent n triples.now ts.now)
        (λ e. odd (get_or d.now e 0)) (length d.now)) result }
{
    if k == i {
        return bucket_sum::nothing();
    }
    bucket_sum::sum_entries(&triples[LABEL..], ts, Z, share::lent_len(n), d, n, k)
}

// All triples as one sum; d's first byte is the second triple's.
fn combine_all(out: &mut [u8], triples: &[u8], d: &[u8], n: usize, i: usize)
    requires n_bound { (n ≤ 8) × (length out.old ≡ 3 * lent_len n) × (length d.now ≤ 4) × (i < n) }
    requires triples_len { length triples.now ≡ 3 * (length d.now + 1) * lent_len n }
    ensures { out.new ≡ C.records n i
        (B.combine (C.triple n triples.now) (λ e. odd (get_or d.now e 0)) (length d.now)) }
{
    let x_places = [0usize, 3, 6, 9, 12];
    let count = d.len() + 1;
    let len = share::lent_len(n);
    let z = Z * len;
    put_y(&mut out[len..z], triples, 0, n, i);
    for k in 0..n {
        let s = party(triples, &x_places[..count], d, n, i, k);
        bucket_sum::put_entries(&mut out[LABEL..], z, k, s);
    }
    let b = bucket_sum::sum_bits(triples, &x_places[..count], d, len, triples, Z, len);
    share::put_lent_head(out, n, i, b.x);
    share::put_lent_head(&mut out[z..], n, i, b.z);
}

// Refused where a byte is above 1.
fn check_bits(d: &[u8]) -> Result<(), Reason>
    ensures { code_of result ≡ pick (all_of (length d.now) (λ e. leb (get_or d.now e 0) 1)) 0 1 }
{
    if lists::all_of(d.len(), |e| d[e] <= 1) {
        Ok(())
    } else {
        Err(Reason::InvalidBitValue)
    }
}

// The first reason to refuse.
fn check(
    n: usize,
    i: usize,
    count: usize,
    triples: &[u8],
    d: &[u8],
    out: &[u8],
) -> Result<(), Reason>
    ensures { code_of result ≡ C.reason (C.args n i count triples.now d.now out.now) }
{
    if !((2 <= n) & (n <= 8) & (i < n)) {
        return Err(Reason::PartyOutOfRange);
    }
    if count == 0 {
        return Err(Reason::EmptyBucket);
    }
    if 5 < count {
        return Err(Reason::TooMany);
    }
    let len = share::lent_len(n);
    if !((triples.len() == 3 * count * len) & (d.len() == count - 1)) {
        return Err(Reason::InvalidLength);
    }
    if out.len() != 3 * len {
        return Err(Reason::WrongBuffer);
    }
    records::check_records(triples, n, i, 3 * count)?;
    check_bits(d)
}

// Combines `count` triples of records x, y, z into one, written to `out`: document 01, "Combining alone". A refused call leaves `out` as it
// was.
pub fn combine(
    n: usize,
    i: usize,
    count: usize,
    triples: &[u8],
    d: &[u8],
    out: &mut [u8],
) -> Verdict
    ensures { C.outcome (reply_of result) out.new ≡ C.spec (C.args n i count triples.now d.now out.old) }
{
    check(n, i, count, triples, d, out).map_err(|reason| Refusal { reason, party: i })?;
    combine_all(out, triples, d, n, i);
    Ok(())
}
