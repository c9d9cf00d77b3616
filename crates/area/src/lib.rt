// The work area (docs/WORK_AREA.md; crates/rounds, Area): its sections by name, how long each is, where it lies, and how long the whole is.
// All of that goes by n and l, which are public. And own delta, which is read from it.
#![tactic(auto)]

ghost use Rattle.std.specs.Prelude.{◌≡◌, ◌+◌, ◌-◌, ◌*◌, ◌≤◌, ◌<◌, length};
ghost use Rattle.lists.specs.Pick.{pick};
ghost use Rattle.lists.specs.Sect.{get};
ghost use Rattle.share.specs.Record.{record_len};
ghost use Rattle.plan.specs.Plan.{in_range, InRange, leaky};
ghost use Rattle.engine.specs.Step.{frame};
ghost use Rattle.engine.specs.Area.{off};
ghost use Rattle.rounds.specs.Area.{leaky_len, size_of, work_len, at};
ghost use Rattle.rounds.specs.Table as Table;
ghost use Rattle.area.specs.Given.{Work, Place};

use engine::Frame;
use share::Delta;

// The sections, in their order.
pub const DELTA: usize = 0;

pub const SEED: usize = 1;

pub const PAIRS: usize = 2;

pub const MASKS: usize = 3;

pub const BITS: usize = 4;

pub const ALPHA: usize = 5;

pub const BETA: usize = 6;

pub const COMMS: usize = 7;

pub const JOINT: usize = 8;

pub const PAIR_COMMS: usize = 9;

pub const PAIRWISE: usize = 10;

pub const KEY_SUMS: usize = 11;

pub const SHARE_COMMS: usize = 12;

pub const DMS: usize = 13;

pub const LEAKY: usize = 14;

pub const ZS: usize = 15;

pub const ES: usize = 16;

pub const HS: usize = 17;

pub const H_COMMS: usize = 18;

pub const PERM: usize = 19;

pub const DS: usize = 20;

pub const TRIPLES: usize = 21;

pub const PENDING: usize = 22;

pub const HASHES: usize = 23;

// As many as there are; no section, but the end.
pub const SECTIONS: usize = 24;

// The bytes of section s; 24 is the end.
pub fn section_len(f: Frame, s: usize) -> usize
    requires in_range { InRange f.n f.l }
    requires s_bound { s ≤ 24 }
    ensures { result ≡ size_of f s }
{
    let n = f.n;
    let l = f.l;
    let leaky = plan::leaky(l);
    let record = share::record_len(n);
    match s {
        DELTA => 16,
        SEED => 32,
        PAIRS => 32 * n,
        MASKS => n * leaky,
        BITS => plan::bits_count(l) * record,
        ALPHA => l * record,
        BETA => l * record,
        COMMS => n * 32,
        JOINT => 32,
        PAIR_COMMS => n * 32,
        PAIRWISE => n * 32,
        KEY_SUMS => n * (120 * 16),
        SHARE_COMMS => n * (40 * 96),
        DMS => n * (40 * plan::dm_len(n)),
        LEAKY => leaky * (32 + n * 18),
        ZS => leaky * 17,
        ES => n * leaky,
        HS => leaky * 16,
        H_COMMS => n * (leaky * 32),
        PERM => leaky * 4,
        DS => l * (plan::bucket_size(l) - 1),
        TRIPLES => l * (2 * record),
        PENDING => 2,
        HASHES => n * 16,
        _ => 0,
    }
}

// Where section s starts.
pub fn section_at(f: Frame, s: usize) -> usize
    requires in_range { InRange f.n f.l }
    requires s_bound { s ≤ 24 }
    ensures { result ≡ off (size_of f) s }
{
    let mut at = 0;
    for k in 0..s {
        at += section_len(f, k);
    }
    at
}

// The bytes of the work area that a host lends; 0 where opening refuses n or l.
pub fn work_len(n: usize, l: usize) -> usize
    ensures { result ≡ pick (in_range n l) (work_len (frame n l 0)) 0 }
{
    if plan::in_range(n, l) {
        section_at(Frame { n, i: 0, l }, SECTIONS)
    } else {
        0
    }
}

// Where a section starts and where it ends.
#[derive(Clone, Copy)]
pub struct Span(pub usize, pub usize);

pub fn place(f: Frame, s: usize) -> Span
    requires { InRange f.n f.l × (s < 24) }
    ensures { Place f s result.0 result.1 }
{
    let a = section_at(f, s);
    Span(a, a + section_len(f, s))
}

// The bytes of such a span.
pub fn lent(work: &[u8], p: Span) -> &[u8]
    requires { (p.0 ≤ p.1) × (p.1 ≤ length work.now) }
    ensures { result.now ≡ get p.0 (p.1 - p.0) work.now }
{
    let a = p.0;
    let e = p.1;
    &work[a..e]
}

// Section s of the work area, where it lies.
pub fn section(work: &[u8], f: Frame, s: usize) -> &[u8]
    requires { (Work f work.now) × (s < 24) }
    ensures { result.now ≡ at f s work.now }
{
    lent(work, place(f, s))
}

// Own delta.
pub fn delta(work: &[u8], f: Frame) -> Delta
    requires { Work f work.now }
    ensures { result.0 ≡ Table.delta f work.now }
{
    Delta(block::load(section(work, f, DELTA), 0))
}

// ---- the records of a leaky AND in BITS: x, y and r of position t

pub fn x_at(f: Frame, t: usize) -> usize
    requires { InRange f.n f.l × (t < leaky f.l) }
    ensures { result ≡ t * record_len f.n }
{
    t * share::record_len(f.n)
}

pub fn y_at(f: Frame, t: usize) -> usize
    requires { InRange f.n f.l × (t < leaky f.l) }
    ensures { result ≡ (leaky f.l + t) * record_len f.n }
{
    (plan::leaky(f.l) + t) * share::record_len(f.n)
}

pub fn r_at(f: Frame, t: usize) -> usize
    requires { InRange f.n f.l × (t < leaky f.l) }
    ensures { result ≡ (2 * leaky f.l + t) * record_len f.n }
{
    (2 * plan::leaky(f.l) + t) * share::record_len(f.n)
}

// ---- rows

// A row of LEAKY: phi and the sum of G over the x keys, then an entry for each party: u, and two bits H.
const LEAKY_HEAD: usize = 32;

pub const LEAKY_ENTRY: usize = 18;

// A row of ZS: a bit and a Block.
pub const Z_LEN: usize = 17;

// The bytes of a row of LEAKY.
pub fn leaky_len(n: usize) -> usize
    requires { n ≤ 8 }
    ensures { result ≡ leaky_len n }
{
    LEAKY_HEAD + n * LEAKY_ENTRY
}

// Where the row of position t starts in LEAKY.
pub fn leaky_at(f: Frame, t: usize) -> usize
    requires { InRange f.n f.l × (t < leaky f.l) }
    ensures { result ≡ t * leaky_len f.n }
{
    t * leaky_len(f.n)
}

// And in it the entry of party k.
pub fn entry_at(f: Frame, t: usize, k: usize) -> usize
    requires { InRange f.n f.l × (t < leaky f.l) × (k < f.n) }
    ensures { result ≡ t * leaky_len f.n + (32 + k * 18) }
{
    leaky_at(f, t) + (LEAKY_HEAD + k * LEAKY_ENTRY)
}
