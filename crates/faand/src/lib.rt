// The triples a, b, c become the ANDs of alpha and beta: round 22 and the results, `beaver_aand` of src/mpc/faand.rs. The definitions stand
// in crates/rounds (Beaver). Bits, MACs, keys and delta decide no branch and no index; the permutation is public, and so is what a check
// found.
#![tactic(auto)]

ghost use Rattle.std.specs.Prelude.{◌≡◌, ◌+◌, ◌-◌, ◌*◌, ◌<◌, length};
ghost use Rattle.algebra.specs.Group.{bits};
ghost use Rattle.algebra.specs.Sum.{others};
ghost use Rattle.plan.specs.Plan.{msg_len};
ghost use Rattle.engine.specs.Area.{to_others};
ghost use Rattle.rounds.specs.Area as Area;
ghost use Rattle.rounds.specs.Beaver as R;
ghost use Rattle.area.specs.Given.{Ranged, Work};
ghost use Rattle.faand.specs.Given.{Placed, Reads};
ghost use Rattle.faand.specs.ItemLaws.{told, item, message};

use area::Span;
use engine::Frame;

// The bytes of a list's count and of an item: the bits of d and e, then their MACs. And where the last three stand in it.
pub const COUNT: usize = 8;

pub const ITEM: usize = 34;

pub const E_BIT: usize = 1;

pub const D_MAC: usize = 2;

pub const E_MAC: usize = 18;

// Where the sections start that are read; the permutation is lent, so with its end.
#[derive(Clone, Copy)]
pub struct Places {
    pub recs: usize,
    pub perm: Span,
    pub triples: usize,
    pub alpha: usize,
    pub beta: usize,
}

pub fn sections(f: Frame) -> Places
    requires { Ranged f }
    ensures { Placed f result }
{
    let recs = area::section_at(f, area::BITS);
    let perm = area::place(f, area::PERM);
    let triples = area::section_at(f, area::TRIPLES);
    let alpha = area::section_at(f, area::ALPHA);
    let beta = area::section_at(f, area::BETA);
    Places {
        recs: recs,
        perm: perm,
        triples: triples,
        alpha: alpha,
        beta: beta,
    }
}

// Where the records of a bucket start in the work area.
#[derive(Clone, Copy)]
pub struct Records {
    pub a: usize,
    pub c: usize,
    pub b: usize,
    pub alpha: usize,
    pub beta: usize,
}

// Those of bucket j.
pub fn bucket(work: &[u8], at: Places, f: Frame, j: usize) -> Records
    requires { (Work f work.now) × (j < f.l) × (Placed f at) }
    ensures { Reads f work.now j result }
{
    let len = share::record_len(f.n);
    let perm = area::lent(work, at.perm);
    let b = at.recs + buckets::y_at(perm, f, j, 0);
    let a = at.triples + j * (2 * len);
    let x = j * len;
    Records {
        a: a,
        c: a + len,
        b: b,
        alpha: at.alpha + x,
        beta: at.beta + x,
    }
}

// ---- the messages

// Bucket j in the message to k: d and e, and their MACs for k.
fn put_item(out: &mut [u8], work: &[u8], at: Places, f: Frame, j: usize, k: usize)
    requires work { (Work f work.now) × (j < f.l) × (Placed f at) }
    requires k_lt_n { (k < f.n) × (length out.old ≡ 34) }
    ensures { out.new ≡ item f work.now k j }
{
    let r = bucket(work, at, f, j);
    let d = share::sum_bit(work, r.a, work, r.alpha);
    let e = share::sum_bit(work, r.b, work, r.beta);
    let d_mac = share::sum_mac(work, r.a, work, r.alpha, k);
    let e_mac = share::sum_mac(work, r.b, work, r.beta, k);
    encode::put_bits_blocks(out, d, e, d_mac.0, e_mac.0);
}

// The message to k.
fn put_message(out: &mut [u8], work: &[u8], at: Places, f: Frame, k: usize)
    requires work { (Work f work.now) × (Placed f at) }
    requires k_lt_n { (k < f.n) × (length out.old ≡ told f) }
    ensures { out.new ≡ message f work.now k }
{
    let count = f.l;
    encode::put_count(&mut out[0..COUNT], count);
    for j in 0..count {
        let a = COUNT + j * ITEM;
        let e = a + ITEM;
        put_item(&mut out[a..e], work, at, f, j, k);
    }
}

// Round 22: d and e of every bucket, to all others.
pub fn write(out: &mut [u8], work: &[u8], f: Frame)
    requires work { Work f work.now }
    requires out_len { length out.old ≡ (f.n - 1) * msg_len f.n f.l 22 }
    ensures { out.new ≡ to_others f.n f.i (R.faand_msg f
        (Area.at f Area.BITS work.now) (Area.at f Area.PERM work.now)
        (Area.at f Area.TRIPLES work.now) (Area.at f Area.ALPHA work.now)
        (Area.at f Area.BETA work.now)) }
{
    let n = f.n;
    let i = f.i;
    let at = sections(f);
    let len = plan::msg_len(n, f.l, 22);
    let last = n - 1;
    for q in 0..last {
        let a = q * len;
        let e = a + len;
        let k = plan::other(i, q);
        put_message(&mut out[a..e], work, at, f, k);
    }
}

// ---- the check

// ---- the results
