// The triples: the leaky ANDs of each bucket, combined as one sum (../bucket_sum), kept in section TRIPLES when round 22 is made. From
// `faand` and `combine_bucket` of src/mpc/faand.rs; the definitions stand in crates/rounds (Buckets). Records are read where they lie, and
// each bit, MAC and key of a row is written once. The permutation and the opened d are public; bits, MACs, keys and delta decide no branch
// and no index.
#![tactic(auto)]

ghost use Rattle.std.specs.Prelude.{◌≡◌, List, ℕ, ◌+◌, ◌*◌, ◌<◌, length, get_or};
ghost use Rattle.lists.specs.Sect.{put};
ghost use Rattle.lists.specs.Rows.{chunk};
ghost use Rattle.algebra.specs.Group.{bits, odd};
ghost use Rattle.algebra.specs.Sum.{sum};
ghost use Rattle.algebra.specs.Bucket.{bucket_x, bucket_z};
ghost use Rattle.block.specs.declared.Block.{Block};
ghost use Rattle.share.specs.Record.{record_len};
ghost use Rattle.share.specs.Share.{shares};
ghost use Rattle.engine.specs.Area.{off};
ghost use Rattle.rounds.specs.Area as Area;
ghost use Rattle.rounds.specs.Haand.{x};
ghost use Rattle.rounds.specs.Buckets as B;
ghost use Rattle.rounds.specs.Table as Table;
ghost use Rattle.bucket_sum.specs.Sums.{Entries};
ghost use Rattle.area.specs.Given.{Ranged, Work};
ghost use Rattle.triples.specs.Given.{Bucketed, Numbered, Placed};
ghost use Rattle.triples.specs.Laws.{triple_at, row_of};

use area::Span;
use bucket_sum::{Bits, Sums};
use engine::Frame;
use share::{Delta, Entry};

// ---- one bucket: its leaky ANDs are those at the positions ts, d the opened bits of all but the first

// The sum of a party's bits e, which begin at `from`.
fn e_sum(es: &[u8], ts: &[usize], from: usize) -> bool
    requires { (e : ℕ) → e < length ts.now → from + get_or ts.now e 0 < length es.now }
    ensures { result ≡ sum bits (length ts.now) (λ e. odd (get_or es.now (from + get_or ts.now e 0) 0)) }
{
    algebra::sum(ts.len(), |e| block::bit(es, from + ts[e]))
}

// What stands for party k in the records a and c. z has r's MACs, and r's keys, plus delta where k's e is 1: delta is added once, where the
// sum of the e is 1.
fn party(recs: &[u8], es: &[u8], ts: &[usize], d: &[u8], delta: Delta, f: Frame, k: usize) -> Sums
    requires ranged { (Ranged f) × (k < f.n) }
    requires bucketed { Bucketed f recs.now es.now ts.now d.now }
    ensures { (zs : List ℕ) → Entries f.i k
        (bucket_x shares (λ e. x f recs.now (get_or ts.now e 0)) (length d.now))
        (bucket_z shares (λ e. x f recs.now (get_or ts.now e 0))
        (λ e. B.z_share f delta.0 recs.now zs es.now (get_or ts.now e 0))
        (λ e. odd (get_or d.now e 0)) (length d.now)) result }
{
    let n = f.n;
    let i = f.i;
    if k == i {
        return bucket_sum::nothing();
    }
    let count = plan::leaky(f.l);
    let s = bucket_sum::sum_entries(recs, ts, 2 * count, share::record_len(n), d, n, k);
    let told = e_sum(es, ts, k * count);
    let x = s.x;
    let r = s.z;
    let mac = r.mac;
    let key = r.key;
    let z = Entry {
        mac: mac,
        key: key.z_key(delta.times(told)),
    };
    Sums { x: x, z: z }
}

// ---- from the work area

// Where the sections lie that the triples are made from.
#[derive(Clone, Copy)]
struct Places {
    recs: Span,
    zs: Span,
    es: Span,
    perm: Span,
    opened: Span,
}

fn sections(f: Frame) -> Places
    requires { Ranged f }
    ensures { Placed f result }
{
    let recs = area::place(f, area::BITS);
    let zs = area::place(f, area::ZS);
    let es = area::place(f, area::ES);
    let perm = area::place(f, area::PERM);
    let opened = area::place(f, area::DS);
    Places {
        recs: recs,
        zs: zs,
        es: es,
        perm: perm,
        opened: opened,
    }
}

// The d of bucket j.
fn ds(work: &[u8], at: Places, f: Frame, j: usize) -> &[u8]
    requires { (Work f work.now) × (j < f.l) × (Placed f at) }
    ensures { result.now ≡ chunk (B.later f) j (Area.at f Area.DS work.now) }
{
    let opened = at.opened;
    let due = buckets::later(f);
    let a = opened.0 + j * due;
    let e = a + due;
    &work[a..e]
}

// What stands for party k in row j.
fn row_party(
    work: &[u8],
    at: Places,
    ts: &[usize],
    delta: Delta,
    f: Frame,
    j: usize,
    k: usize,
) -> Sums
    requires work { (Work f work.now) × (j < f.l) × (Placed f at) × (k < f.n) }
    requires numbered { Numbered f work.now j ts.now }
    ensures { Entries f.i k (triple_at f delta.0 work.now j).tx
        (triple_at f delta.0 work.now j).tz result }
{
    let recs = area::lent(work, at.recs);
    let es = area::lent(work, at.es);
    let d = ds(work, at, f, j);
    party(recs, es, ts, d, delta, f, k)
}

// The bits of row j.
fn row_bits(work: &[u8], at: Places, ts: &[usize], f: Frame, j: usize) -> Bits
    requires work { (Work f work.now) × (j < f.l) × (Placed f at) }
    requires numbered { Numbered f work.now j ts.now }
    ensures { (delta : Block) → (result.x ≡ (triple_at f delta work.now j).tx.bit)
        × (result.z ≡ (triple_at f delta work.now j).tz.bit) }
{
    let recs = area::lent(work, at.recs);
    let zs = area::lent(work, at.zs);
    let d = ds(work, at, f, j);
    bucket_sum::sum_bits(recs, ts, d, share::record_len(f.n), zs, 0, area::Z_LEN)
}

// Row j of TRIPLES, which starts at `row`: the records a and c of bucket j.
fn put_row(work: &mut [u8], at: Places, delta: Delta, f: Frame, j: usize, row: usize)
    requires work { (Work f work.old) × (j < f.l) × (Placed f at) }
    requires row_value { row ≡ off (Area.size_of f) Area.TRIPLES + j * (2 * record_len f.n) }
    ensures { work.new ≡ put row (2 * record_len f.n) (row_of f delta.0 work.old j) work.old }
{
    let n = f.n;
    let b = plan::bucket_size(f.l);
    let len = share::record_len(n);
    let end = row + 2 * len;
    let all = buckets::entries(area::lent(work, at.perm), f, j);
    for k in 0..n {
        let s = row_party(work, at, &all[..b], delta, f, j, k);
        bucket_sum::put_entries(&mut work[row..end], len, k, s);
    }
    let heads = row_bits(work, at, &all[..b], f, j);
    bucket_sum::put_heads(&mut work[row..end], len, heads);
}

// When round 22 is made: the triples of all buckets stay in TRIPLES.
pub fn hold(work: &mut [u8], f: Frame)
    requires { Work f work.old }
    ensures { work.new ≡ Area.keep f Area.TRIPLES (B.triple_rows f (Table.delta f work.old)
        (Area.at f Area.BITS work.old) (Area.at f Area.ZS work.old)
        (Area.at f Area.ES work.old) (Area.at f Area.PERM work.old)
        (Area.at f Area.DS work.old)) work.old }
{
    let l = f.l;
    let delta = area::delta(work, f);
    let at = sections(f);
    let rows = area::section_at(f, area::TRIPLES);
    let len = 2 * share::record_len(f.n);
    for j in 0..l {
        put_row(work, at, delta, f, j, rows + j * len);
    }
}
