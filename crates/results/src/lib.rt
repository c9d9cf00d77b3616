// The results: c + d·beta + e·a of every bucket, d and e opened. From `beaver_aand` of src/mpc/faand.rs; the definitions stand in
// crates/rounds (Beaver). Shares decide no branch and no index.
#![tactic(auto)]

ghost use Rattle.std.specs.Prelude.{◌≡◌, ◌≢◌, ◌+◌, ◌-◌, ◌*◌, ◌<◌, ◌≤◌, length, get_or, drop};
ghost use Rattle.lists.specs.Over.{cat};
ghost use Rattle.algebra.specs.Group.{bits, odd};
ghost use Rattle.algebra.specs.Sum.{others};
ghost use Rattle.share.specs.Record.{record_len, mac_off};
ghost use Rattle.share.specs.Share.{share_at, entry_of};
ghost use Rattle.share.specs.Lent.{lent_len, lent_of};
ghost use Rattle.message.specs.declared.Kind.TheVariants.{Items};
ghost use Rattle.rounds.specs.Area as Area;
ghost use Rattle.rounds.specs.Mail.{letter, Arrived};
ghost use Rattle.rounds.specs.EchoLaws.{Received};
ghost use Rattle.rounds.specs.Beaver as R;
ghost use Rattle.area.specs.Given.{Work};
ghost use Rattle.faand.specs.Given.{Placed};
ghost use Rattle.faand.specs.ItemLaws.{told, message};
ghost use Rattle.results.specs.FinishLaws.{result_of};

use engine::Frame;
use faand::{COUNT, E_BIT, ITEM, Places, Records};
use rounds::Mail;
use share::{ENTRY, Entry, LABEL};

// The bit at `at` of k's message.
fn bit_told(incoming: &[u8], mail: Mail, f: Frame, at: usize, k: usize) -> bool
    requires k_lt_n { (k < f.n) × (at < told f) × (f.i ≢ k) }
    requires arrived { Arrived f (told f) incoming.now mail }
    ensures { result ≡ odd (get_or (letter incoming.now mail k) at 0) }
{
    block::bit(rounds::letter(incoming, mail, k), at)
}

// The sum of the bits at `at` of all others' messages.
fn told_sum(incoming: &[u8], mail: Mail, f: Frame, at: usize) -> bool
    requires at_bound { at < told f }
    requires arrived { Arrived f (told f) incoming.now mail }
    ensures { result ≡ others bits f.i f.n (λ k. odd (get_or (letter incoming.now mail k) at 0)) }
{
    algebra::sum_others(f.i, f.n, |k| bit_told(incoming, mail, f, at, k))
}

// c + d·beta + e·a of party k's entries in the records at r.
fn finished(work: &[u8], r: Records, k: usize, d: bool, e: bool) -> Entry
    requires k_bound { (k < 8) × (r.a + record_len (k + 1) ≤ length work.now) }
    requires k_in_bounds { (r.c + record_len (k + 1) ≤ length work.now) × (r.beta + record_len (k + 1) ≤ length work.now) }
    ensures { (result.mac.0 ≡ (R.finish (share_at work.now r.c) (share_at work.now r.beta)
        (share_at work.now r.a) d e).mac k)
        × (result.key.0 ≡ (R.finish (share_at work.now r.c) (share_at work.now r.beta)
        (share_at work.now r.a) d e).key k) }
{
    let c = share::entry_at(work, r.c, k);
    let beta = share::entry_at(work, r.beta, k);
    let a = share::entry_at(work, r.a, k);
    c.xor(beta.times(d)).xor(a.times(e))
}

// Writes all of them, as the entries of party i's record among n, which has no head yet.
fn put_entries(out: &mut [u8], work: &[u8], r: Records, n: usize, i: usize, d: bool, e: bool)
    requires n_bound { (n ≤ 8) × (length out.old ≡ record_len n) × (r.a + record_len n ≤ length work.now) }
    requires n_in_bounds { (r.c + record_len n ≤ length work.now) × (r.beta + record_len n ≤ length work.now) }
    ensures { drop (mac_off 0) out.new ≡ cat n (entry_of i (R.finish (share_at work.now r.c)
        (share_at work.now r.beta) (share_at work.now r.a) d e)) }
{
    for k in 0..n {
        let from = share::mac_off(k);
        let to = from + ENTRY;
        share::put_entry_of(&mut out[from..to], i, k, finished(work, r, k, d, e));
    }
}

// c + d·beta + e·a of the records at r, with a label: each byte of it is written once.
fn finish(out: &mut [u8], work: &[u8], r: Records, f: Frame, d: bool, e: bool)
    requires n_bound { (f.n ≤ 8) × (length out.old ≡ lent_len f.n) × (r.a + record_len f.n ≤ length work.now) × (f.i < f.n) }
    requires n_in_bounds { (r.c + record_len f.n ≤ length work.now) × (r.beta + record_len f.n ≤ length work.now) }
    ensures { out.new ≡ lent_of f.n f.i (R.finish (share_at work.now r.c)
        (share_at work.now r.beta) (share_at work.now r.a) d e) }
{
    let n = f.n;
    let i = f.i;
    put_entries(&mut out[LABEL..], work, r, n, i, d, e);
    let bit = share::bit_at(work, r.c)
        ^ (share::bit_at(work, r.beta) & d)
        ^ (share::bit_at(work, r.a) & e);
    share::put_lent_head(out, n, i, bit);
}

// The result of bucket j, where `d_told` and `e_told` are the sums of the others' bits.
fn put_result(
    out: &mut [u8],
    work: &[u8],
    at: Places,
    f: Frame,
    j: usize,
    d_told: bool,
    e_told: bool,
)
    requires work { (Work f work.now) × (j < f.l) × (Placed f at) }
    requires out_len { length out.old ≡ lent_len f.n }
    ensures { out.new ≡ result_of f work.now j d_told e_told }
{
    let r = faand::bucket(work, at, f, j);
    let d = share::sum_bit(work, r.a, work, r.alpha) ^ d_told;
    let e = share::sum_bit(work, r.b, work, r.beta) ^ e_told;
    finish(out, work, r, f, d, e);
}

// The result of every bucket, a record with a label each.
pub fn results(out: &mut [u8], work: &[u8], incoming: &[u8], mail: Mail, f: Frame)
    requires work { Work f work.now }
    requires out_len { length out.old ≡ f.l * lent_len f.n }
    requires received { Received (Items 34 2) f.l f incoming.now mail }
    ensures { out.new ≡ R.results f
        (Area.at f Area.BITS work.now) (Area.at f Area.PERM work.now)
        (Area.at f Area.TRIPLES work.now) (Area.at f Area.ALPHA work.now)
        (Area.at f Area.BETA work.now) (letter incoming.now mail) }
{
    let l = f.l;
    let at = faand::sections(f);
    let len = share::lent_len(f.n);
    for j in 0..l {
        let i = COUNT + j * ITEM;
        let d = told_sum(incoming, mail, f, i);
        let e = told_sum(incoming, mail, f, i + E_BIT);
        let from = j * len;
        let to = from + len;
        put_result(&mut out[from..to], work, at, f, j, d, e);
    }
}
