// Opening a session (document 01, "The call"): what is refused (crate inputs), what is kept of the inputs, and the first messages. The
// definition stands in crates/rounds (Opening).
#![tactic(auto)]

ghost use Rattle.std.specs.Prelude.{◌≡◌, ◌*◌, ◌<◌, ◌≤◌, length};
ghost use Rattle.share.specs.Record.{record_len};
ghost use Rattle.share.specs.Lent.{lent_len, kept_of};
ghost use Rattle.engine.specs.Step.{reply_of, leaves};
ghost use Rattle.rounds.specs.Area.{MASKS, SECTIONS, size_of, keep};
ghost use Rattle.rounds.specs.Opening.{no_session};
ghost use Rattle.rounds.specs.Opening as Opening;
ghost use Rattle.area.specs.Given.{Work};
ghost use Rattle.inputs.specs.Given.{args, cleared, with_seeds, with_lists, Seeds, Lists};

use engine::{Answer, Frame, Refusal, Session};
use inputs::Lens;

// The first section that holds no input.
const EMPTY: usize = area::COMMS;

// What is kept of the `count` records x of party i among n.
fn keep_all(out: &mut [u8], x: &[u8], n: usize, i: usize, count: usize)
    requires n_bound { (n ≤ 8) × (length out.old ≡ count * record_len n) }
    requires x_len { length x.now ≡ count * lent_len n }
    ensures { out.new ≡ kept_of n i count x.now }
{
    let kept = share::record_len(n);
    let lent = share::lent_len(n);
    lists::write_rows(
        out,
        count,
        kept,
        |row, t| share::keep_record(row, x, t * lent, n, i),
    );
}

// x as section s of the work area.
fn put_section(work: &mut [u8], x: &[u8], f: Frame, s: usize)
    requires { (Work f work.old) × (s < SECTIONS) × (length x.now ≡ size_of f s) }
    ensures { work.new ≡ keep f s x.now work.old }
{
    let p = area::place(f, s);
    work[p.0..p.1].copy_from_slice(x);
}

// As section s of the work area what is kept of the `count` records x.
fn put_records(work: &mut [u8], x: &[u8], f: Frame, s: usize, count: usize)
    requires work { (Work f work.old) × (s < SECTIONS) × (size_of f s ≡ count * record_len f.n) }
    requires x_len { length x.now ≡ count * lent_len f.n }
    ensures { work.new ≡ keep f s (kept_of f.n f.i count x.now) work.old }
{
    let p = area::place(f, s);
    keep_all(&mut work[p.0..p.1], x, f.n, f.i, count);
}

// Zeros from the first section on that is no input.
fn clear_rest(work: &mut [u8], f: Frame)
    requires { Work f work.old }
    ensures { work.new ≡ cleared f work.old }
{
    let a = area::section_at(f, EMPTY);
    work[a..].fill(0);
}

// Delta, the seeds and the masks.
fn put_seeds(work: &mut [u8], delta: &[u8], seed: &[u8], pairs: &[u8], masks: &[u8], f: Frame)
    requires { (Work f work.old) × Seeds f (length delta.now) (length seed.now) (length pairs.now) (length masks.now) }
    ensures { work.new ≡ with_seeds f delta.now seed.now pairs.now masks.now
        work.old }
{
    put_section(work, delta, f, area::DELTA);
    put_section(work, seed, f, area::SEED);
    put_section(work, pairs, f, area::PAIRS);
    put_section(work, masks, f, area::MASKS);
}

// The share lists.
fn put_lists(work: &mut [u8], bits: &[u8], alpha: &[u8], beta: &[u8], f: Frame)
    requires { (Work f work.old) × Lists f (length bits.now) (length alpha.now) (length beta.now) }
    ensures { work.new ≡ with_lists f bits.now alpha.now beta.now work.old }
{
    let l = f.l;
    put_records(work, bits, f, area::BITS, plan::bits_count(l));
    put_records(work, alpha, f, area::ALPHA, l);
    put_records(work, beta, f, area::BETA, l);
}

// The inputs, and zeros behind them.
fn fill(
    work: &mut [u8],
    delta: &[u8],
    seed: &[u8],
    pairs: &[u8],
    bits: &[u8],
    alpha: &[u8],
    beta: &[u8],
    masks: &[u8],
    f: Frame,
)
    requires work { (Work f work.old) × Seeds f (length delta.now) (length seed.now) (length pairs.now) (length masks.now) }
    requires lists { Lists f (length bits.now) (length alpha.now) (length beta.now) }
    ensures { work.new ≡ cleared f (with_lists f bits.now alpha.now beta.now
        (with_seeds f delta.now seed.now pairs.now masks.now work.old)) }
{
    put_seeds(work, delta, seed, pairs, masks, f);
    put_lists(work, bits, alpha, beta, f);
    clear_rest(work, f);
}

// What stands for a session where opening is refused: none of its rounds is due.
fn no_session(n: usize, i: usize) -> Session
    ensures { result ≡ no_session n i }
{
    Session {
        party: Frame { n, i, l: 0 },
        due: 0,
        counts: [0; batches::MOST],
    }
}

// Opens a session: document 01, "The call". The counts of its batches make l (document 02, order 7). A refused opening leaves the work area
// and the outgoing buffer as they were.
pub fn open(
    n: usize,
    i: usize,
    counts: &[u32],
    delta: &[u8],
    seed: &[u8],
    pairs: &[u8],
    bits: &[u8],
    alpha: &[u8],
    beta: &[u8],
    masks: &[u8],
    work: &mut [u8],
    out: &mut [u8],
) -> Answer
    ensures { leaves result.session (reply_of result.verdict) result.told work.new out.new ≡ Opening.spec
        (args n i counts.now delta.now seed.now pairs.now bits.now alpha.now beta.now
        masks.now work.old out.old) }
{
    let v = Lens {
        delta: delta.len(),
        seed: seed.len(),
        pairs: pairs.len(),
        bits: bits.len(),
        alpha: alpha.len(),
        beta: beta.len(),
        masks: masks.len(),
        work: work.len(),
        out: out.len(),
    };
    let f = Frame {
        n,
        i,
        l: batches::sum(counts),
    };
    if let Err(reason) = inputs::check(f, batches::fault(counts), v, bits, alpha, beta, masks) {
        return engine::silent(no_session(n, i), Err(Refusal { reason, party: i }));
    }
    fill(work, delta, seed, pairs, bits, alpha, beta, masks, f);
    toss::write_commitments(out, work, f);
    let opened = Session {
        party: f,
        due: 1,
        counts: batches::kept(counts),
    };
    engine::silent(opened, Ok(()))
}
