// The d values of the buckets, as they are sent in round 21. From `faand` of src/mpc/faand.rs; the definitions stand in crates/rounds
// (Buckets). The permutation is public; bits, MACs, keys and delta decide no branch and no index.
#![tactic(auto)]

ghost use Rattle.std.specs.Prelude.{◌≡◌, ◌-◌, ◌*◌, ◌<◌, length};
ghost use Rattle.algebra.specs.Group.{bits};
ghost use Rattle.encode.specs.Encode.{dvalue_item};
ghost use Rattle.plan.specs.Plan.{msg_len};
ghost use Rattle.engine.specs.Area.{to_others};
ghost use Rattle.rounds.specs.Area as Area;
ghost use Rattle.rounds.specs.Buckets as B;
ghost use Rattle.area.specs.Given.{Ranged, Work};
ghost use Rattle.buckets.specs.Given.{Permuted};
ghost use Rattle.dvalue.specs.Dvalues.{bucket_len, told};

use engine::Frame;

// The bytes of a count, and of a MAC.
pub const COUNT: usize = 8;

pub const MAC: usize = 16;

// The bytes of a bucket in a message: the bits behind their count, the MACs behind theirs.
pub fn bucket_len(f: Frame) -> usize
    ensures { result ≡ bucket_len f }
{
    2 * COUNT + buckets::later(f) * (1 + MAC)
}

// Bucket j in the message to k: the d values, and their MACs for k.
fn put_bucket(out: &mut [u8], recs: &[u8], perm: &[u8], f: Frame, j: usize, k: usize)
    requires ranged { Ranged f }
    requires permuted { Permuted f recs.now perm.now }
    requires j_lt_l { (j < f.l) × (k < f.n) × (length out.old ≡ bucket_len f) }
    ensures { out.new ≡ dvalue_item (B.later f)
        (λ e. (B.d f recs.now perm.now j e).bit) (λ e. (B.d f recs.now perm.now j e).mac k) }
{
    let due = buckets::later(f);
    let y0 = buckets::y_at(perm, f, j, 0);
    encode::put_dvalue_counts(out, due);
    for e in 0..due {
        let y1 = buckets::y_at(perm, f, j, e + 1);
        let bit = share::sum_bit(recs, y0, recs, y1);
        let mac = share::sum_mac(recs, y0, recs, y1, k);
        encode::put_dvalue(out, due, e, bit, mac.0);
    }
}

// The message to k.
fn put_message(out: &mut [u8], recs: &[u8], perm: &[u8], f: Frame, k: usize)
    requires ranged { Ranged f }
    requires permuted { Permuted f recs.now perm.now }
    requires k_lt_n { (k < f.n) × (length out.old ≡ told f) }
    ensures { out.new ≡ B.dvalue_msg f recs.now perm.now k }
{
    let size = bucket_len(f);
    let count = f.l;
    encode::put_count(&mut out[0..COUNT], count);
    for j in 0..count {
        let a = COUNT + j * size;
        let e = a + size;
        put_bucket(&mut out[a..e], recs, perm, f, j, k);
    }
}

// The messages to all others.
fn put_messages(out: &mut [u8], recs: &[u8], perm: &[u8], f: Frame)
    requires ranged { Ranged f }
    requires permuted { Permuted f recs.now perm.now }
    requires out_len { length out.old ≡ (f.n - 1) * msg_len f.n f.l 21 }
    ensures { out.new ≡ to_others f.n f.i (B.dvalue_msg f recs.now perm.now) }
{
    let n = f.n;
    let i = f.i;
    let len = plan::msg_len(n, f.l, 21);
    let last = n - 1;
    for q in 0..last {
        let a = q * len;
        let e = a + len;
        let k = plan::other(i, q);
        put_message(&mut out[a..e], recs, perm, f, k);
    }
}

// Round 21: the d values of every bucket, to all others.
pub fn write(out: &mut [u8], work: &[u8], f: Frame)
    requires work { Work f work.now }
    requires out_len { length out.old ≡ (f.n - 1) * msg_len f.n f.l 21 }
    ensures { out.new ≡ to_others f.n f.i (B.dvalue_msg f (Area.at f Area.BITS work.now)
        (Area.at f Area.PERM work.now)) }
{
    let recs = area::section(work, f, area::BITS);
    let perm = area::section(work, f, area::PERM);
    put_messages(out, recs, perm, f);
}

// ---- what is received in round 21
