// What is received in round 21: the d values judged and kept. From `check_dvalue` of src/mpc/faand.rs; the definitions stand in
// crates/rounds (Buckets). The permutation is public; bits, MACs, keys and delta decide no branch and no index.
#![tactic(auto)]

ghost use Rattle.std.specs.Prelude.{◌≡◌, ◌≢◌, ◌-◌, ◌*◌, ◌<◌, ◌≤◌, ◌++◌, length, replicate};
ghost use Rattle.refusals.specs.Reason.{code_of};
ghost use Rattle.plan.specs.Plan.{bucket_size};
ghost use Rattle.message.specs.declared.Kind.TheVariants as Kind;
ghost use Rattle.rounds.specs.Area as Area;
ghost use Rattle.rounds.specs.Mail.{letter};
ghost use Rattle.rounds.specs.EchoLaws.{Received};
ghost use Rattle.rounds.specs.FaultLaws.{Finds};
ghost use Rattle.rounds.specs.Buckets as B;
ghost use Rattle.rounds.specs.Table as Table;
ghost use Rattle.area.specs.Given.{Ranged, Work, Place};
ghost use Rattle.buckets.specs.Given.{Permuted};
ghost use Rattle.dvalue.specs.Dvalues.{told};
ghost use Rattle.dvalue_recv.specs.Checks.{bucket_holds, message_holds, d_fault};
ghost use Rattle.dvalue_recv.specs.Opened.{told_sum, d_row};

use area::Span;
use dvalue::{COUNT, MAC};
use engine::{Frame, Verdict};
use refusals::Reason;
use rounds::Mail;
use share::Delta;

// The most later entries that a bucket has.
const LATER: usize = 4;

// Where bucket j begins in a message.
fn bucket_at(f: Frame, j: usize) -> usize
    requires { (j < f.l) × (f.l ≤ 300000) }
    ensures { result ≡ B.bucket_at f j }
{
    COUNT + j * dvalue::bucket_len(f)
}

// Whether the MACs of bucket j in k's message m are right.
fn bucket_holds(
    m: &[u8],
    recs: &[u8],
    perm: &[u8],
    delta: Delta,
    f: Frame,
    k: usize,
    j: usize,
) -> bool
    requires ranged { Ranged f }
    requires permuted { Permuted f recs.now perm.now }
    requires j_lt_l { (j < f.l) × (k < f.n) × (told f ≤ length m.now) }
    ensures { result ≡ bucket_holds f delta.0 recs.now perm.now m.now k j }
{
    let due = buckets::later(f);
    let bits = bucket_at(f, j) + COUNT;
    let macs = bits + due + COUNT;
    let first = buckets::y_at(perm, f, j, 0);
    let mut ok = true;
    for e in 0..due {
        let next = buckets::y_at(perm, f, j, e + 1);
        ok = ok
            & share::mac_holds(
                m,
                bits + e,
                macs + e * MAC,
                recs,
                first,
                recs,
                next,
                k,
                delta,
            );
    }
    ok
}

// Whether all MACs in it are: all are looked at.
fn message_holds(m: &[u8], recs: &[u8], perm: &[u8], delta: Delta, f: Frame, k: usize) -> bool
    requires ranged { Ranged f }
    requires permuted { Permuted f recs.now perm.now }
    requires k_lt_n { (k < f.n) × (told f ≤ length m.now) }
    ensures { result ≡ message_holds f delta.0 recs.now perm.now m.now k }
{
    let count = f.l;
    let mut ok = true;
    for j in 0..count {
        ok = ok & bucket_holds(m, recs, perm, delta, f, k, j);
    }
    ok
}

// Refused if a MAC of party k is wrong.
fn check_macs(
    recs: &[u8],
    perm: &[u8],
    delta: Delta,
    incoming: &[u8],
    mail: Mail,
    f: Frame,
    k: usize,
) -> Result<(), Reason>
    requires ranged { (Ranged f) × (k < f.n) × (f.i ≢ k) }
    requires permuted { Permuted f recs.now perm.now }
    requires received { Received (Kind.Dvalues (bucket_size f.l - 1)) f.l f incoming.now mail }
    ensures { code_of result ≡ d_fault f delta.0 recs.now perm.now (letter incoming.now mail) k }
{
    let m = rounds::letter(incoming, mail, k);
    if message_holds(m, recs, perm, delta, f, k) {
        Ok(())
    } else {
        Err(Reason::AANDWrongMAC)
    }
}

// Round 21: the first party of which a MAC of a d isn't the key, plus delta where the bit is 1.
pub fn judge(work: &[u8], incoming: &[u8], mail: Mail, f: Frame) -> Verdict
    requires work { Work f work.now }
    requires received { Received (Kind.Dvalues (bucket_size f.l - 1)) f.l f incoming.now mail }
    ensures { Finds result (B.d_faults f (Table.delta f work.now)
        (Area.at f Area.BITS work.now) (Area.at f Area.PERM work.now)
        (letter incoming.now mail)) }
{
    let delta = area::delta(work, f);
    let recs = area::section(work, f, area::BITS);
    let perm = area::section(work, f, area::PERM);
    let check = |k| check_macs(recs, perm, delta, incoming, mail, f, k);
    rounds::by_party(f, check)
}

// The bit that party k told for the later entry e of bucket j.
fn d_told(incoming: &[u8], mail: Mail, f: Frame, j: usize, e: usize, k: usize) -> bool
    requires l_bound { (f.l ≤ 300000) × (j < f.l) × (e < B.later f) × (k < f.n) × (f.i ≢ k) }
    requires received { Received (Kind.Dvalues (bucket_size f.l - 1)) f.l f incoming.now mail }
    ensures { result ≡ B.d_told f (letter incoming.now mail) k j e }
{
    let m = rounds::letter(incoming, mail, k);
    block::bit(m, bucket_at(f, j) + COUNT + e)
}

// The sum of the bits that all others told.
fn told_sum(incoming: &[u8], mail: Mail, f: Frame, j: usize, e: usize) -> bool
    requires l_bound { (f.l ≤ 300000) × (j < f.l) × (e < B.later f) }
    requires received { Received (Kind.Dvalues (bucket_size f.l - 1)) f.l f incoming.now mail }
    ensures { result ≡ told_sum f (letter incoming.now mail) j e }
{
    algebra::sum_others(f.i, f.n, |k| d_told(incoming, mail, f, j, e, k))
}

// The opened d.
fn d_opened(
    recs: &[u8],
    perm: &[u8],
    incoming: &[u8],
    mail: Mail,
    f: Frame,
    j: usize,
    e: usize,
) -> bool
    requires ranged { (Ranged f) × (j < f.l) × (e < B.later f) }
    requires permuted { Permuted f recs.now perm.now }
    requires received { Received (Kind.Dvalues (bucket_size f.l - 1)) f.l f incoming.now mail }
    ensures { result ≡ B.d_opened f recs.now perm.now
        (letter incoming.now mail) j e }
{
    let first = buckets::y_at(perm, f, j, 0);
    let next = buckets::y_at(perm, f, j, e + 1);
    let own = share::sum_bit(recs, first, recs, next);
    own ^ told_sum(incoming, mail, f, j, e)
}

// A row of DS: the opened d of bucket j.
fn put_ds(row: &mut [u8], recs: &[u8], perm: &[u8], incoming: &[u8], mail: Mail, f: Frame, j: usize)
    requires ranged { (Ranged f) × (j < f.l) × (length row.old ≡ B.later f) }
    requires permuted { Permuted f recs.now perm.now }
    requires received { Received (Kind.Dvalues (bucket_size f.l - 1)) f.l f incoming.now mail }
    ensures { row.new ≡ d_row f recs.now perm.now
        (letter incoming.now mail) j }
{
    for e in 0..row.len() {
        row[e] = block::bit_byte(d_opened(recs, perm, incoming, mail, f, j, e));
    }
}

// The row from the sections of the work area, with zeros behind it.
fn ds_row(
    work: &[u8],
    recs: Span,
    perm: Span,
    incoming: &[u8],
    mail: Mail,
    f: Frame,
    j: usize,
) -> [u8; LATER]
    requires work { (Work f work.now) × (j < f.l) }
    requires place { (Place f Area.BITS recs.0 recs.1) × (Place f Area.PERM perm.0 perm.1) }
    requires received { Received (Kind.Dvalues (bucket_size f.l - 1)) f.l f incoming.now mail }
    ensures { result ≡ d_row f (Area.at f Area.BITS work.now) (Area.at f Area.PERM work.now)
        (letter incoming.now mail) j ++ replicate (4 - B.later f) 0 }
{
    let mut row = [0u8; LATER];
    let due = buckets::later(f);
    let records = area::lent(work, recs);
    let numbers = area::lent(work, perm);
    put_ds(&mut row[..due], records, numbers, incoming, mail, f, j);
    row
}

// Round 21: the opened d of every bucket stays in DS.
pub fn keep(work: &mut [u8], incoming: &[u8], mail: Mail, f: Frame)
    requires work { Work f work.old }
    requires received { Received (Kind.Dvalues (bucket_size f.l - 1)) f.l f incoming.now mail }
    ensures { work.new ≡ Area.keep f Area.DS (B.ds f (Area.at f Area.BITS work.old)
        (Area.at f Area.PERM work.old)
        (letter incoming.now mail)) work.old }
{
    let l = f.l;
    let recs = area::place(f, area::BITS);
    let perm = area::place(f, area::PERM);
    let ds = area::section_at(f, area::DS);
    let due = buckets::later(f);
    for j in 0..l {
        let row = ds_row(work, recs, perm, incoming, mail, f, j);
        let a = ds + j * due;
        let e = a + due;
        fill::copy(&mut work[a..e], &row);
    }
}
