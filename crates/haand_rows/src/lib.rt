// The rows of LEAKY, made with the messages of round 14: phi, the sum of G over the x keys, and for each party u and the bits H. A key is
// hashed once, with and without delta, a window of keys at a time, for the half AND and the leaky AND (`fhaand`, `flaand` of
// src/mpc/faand.rs). Bits, MACs, keys and delta decide no branch and no index.
#![tactic(auto)]

ghost use Rattle.std.specs.Prelude.{◌≡◌, ◌≢◌, ◌+◌, ◌-◌, ◌*◌, ◌<◌, ◌≤◌, length};
ghost use Rattle.lists.specs.Over.{cat};
ghost use Rattle.algebra.specs.Sum.{others};
ghost use Rattle.block.specs.Group.{blocks};
ghost use Rattle.share.specs.Record.{record_len, mac_at, key_at};
ghost use Rattle.rounds.specs.Area.{BITS, LEAKY, leaky_len, rows, at, keep};
ghost use Rattle.rounds.specs.Table as Table;
ghost use Rattle.rounds.specs.Haand as R;
ghost use Rattle.area.specs.Given.{Work};
ghost use Rattle.haand_hash.specs.Window.{Asked, Positions, Hashed, hashes, g_at};
ghost use Rattle.haand_rows.specs.Parts.{entry_of, entry_at};

use area::LEAKY_ENTRY;
use block::Block;
use engine::Frame;
use haand_hash::{HALF, HALF_HASHES, HASHES_LEN, Hashes};
use share::Delta;

// The key of party k and the MAC for it, of the record at `at`, added.
fn key_and_mac(recs: &[u8], at: usize, n: usize, k: usize) -> Block
    requires { (n ≤ 8) × (k < n) × (at + record_len n ≤ length recs.now) }
    ensures { result ≡ blocks.op (key_at recs.now at k) (mac_at recs.now at k) }
{
    share::key_at(recs, at, k)
        .0
        .xor(share::mac_at(recs, at, k).0)
}

// The sum of the keys and MACs of the record at `at`, the own ones left out.
fn keys_and_macs(recs: &[u8], at: usize, f: Frame) -> Block
    requires { (f.n ≤ 8) × (at + record_len f.n ≤ length recs.now) }
    ensures { result ≡ others blocks f.i f.n
        (λ k. blocks.op (key_at recs.now at k) (mac_at recs.now at k)) }
{
    algebra::sum_others(f.i, f.n, |k| key_and_mac(recs, at, f.n, k))
}

// phi at position t.
fn phi(recs: &[u8], delta: Delta, f: Frame, t: usize) -> Block
    requires { Asked f t recs.now }
    ensures { result ≡ R.phi f delta.0 recs.now t }
{
    let at = area::y_at(f, t);
    keys_and_macs(recs, at, f).xor(delta.times(share::bit_at(recs, at)).0)
}

// The entry of a party: a is the hash of its x key, b that of the key plus delta.
fn put_entry(out: &mut [u8], a: Hashes, b: Hashes, p: Block)
    requires { length out.old ≡ 18 }
    ensures { out.new ≡ entry_of a.0 b.0 p a.1 b.1 }
{
    let u = a.0.xor(b.0);
    block::store(&mut out[0..16], u.xor(p));
    encode::put_two_bits(&mut out[16..18], a.1, b.1);
}

// The entry of party k, from the hashes of a position: of the x keys, and of the keys plus delta.
fn put_entry_of(out: &mut [u8], keys: &[u8], sums: &[u8], f: Frame, k: usize, p: Block)
    requires out_len { (length out.old ≡ 18) × (f.i < f.n) × (k < f.n) × (f.i ≢ k) }
    requires keys_len { (length keys.now ≡ (f.n - 1) * 32) × (length sums.now ≡ (f.n - 1) * 32) }
    ensures { out.new ≡ entry_at f.i keys.now sums.now p k }
{
    let a = haand_hash::hash_by(keys, f, k);
    let b = haand_hash::hash_by(sums, f, k);
    put_entry(out, a, b, p);
}

// The entries of all parties, zero where it is the own one.
fn put_entries(out: &mut [u8], keys: &[u8], sums: &[u8], f: Frame, p: Block)
    requires n_bound { (f.n ≤ 8) × ((f.i < f.n) × (length out.old ≡ f.n * 18)) }
    requires keys_len { (length keys.now ≡ (f.n - 1) * 32) × (length sums.now ≡ (f.n - 1) * 32) }
    ensures { out.new ≡ rows f 18 (entry_at f.i keys.now sums.now p) }
{
    rounds::put_rows(
        out,
        f,
        LEAKY_ENTRY,
        |row, k| put_entry_of(row, keys, sums, f, k, p),
    );
}

// The sum of G over the x keys.
fn key_hashes(keys: &[u8], f: Frame) -> Block
    requires { (f.i < f.n) × (length keys.now ≡ (f.n - 1) * 32) }
    ensures { result ≡ others blocks f.i f.n (g_at f.i keys.now) }
{
    algebra::sum_others(f.i, f.n, |k| haand_hash::hash_by(keys, f, k).0)
}

// The row of position t, from the hashes of its x keys and of the keys plus delta.
fn put_row(out: &mut [u8], keys: &[u8], sums: &[u8], recs: &[u8], delta: Delta, f: Frame, t: usize)
    requires asked { (Asked f t recs.now) × (length out.old ≡ leaky_len f.n) }
    requires keys_value { keys.now ≡ hashes f (key_at recs.now (t * record_len f.n)) }
    requires sums_value { sums.now ≡ hashes f (λ k. blocks.op (key_at recs.now (t * record_len f.n) k) delta.0) }
    ensures { out.new ≡ R.leaky_row f delta.0 recs.now t }
{
    let p = phi(recs, delta, f, t);
    put_entries(&mut out[32..], keys, sums, f, p);
    block::store(&mut out[0..16], p);
    block::store(&mut out[16..32], key_hashes(keys, f));
}

// The rows of the m positions from t on, from the hashes of their window.
fn put_rows(out: &mut [u8], hashes: &[u8], recs: &[u8], delta: Delta, f: Frame, t: usize, m: usize)
    requires positions { (Positions f t m recs.now) × (m * (f.n - 1) ≤ 32) × (length out.old ≡ m * leaky_len f.n) }
    requires hashed { Hashed f m 0 (λ p. key_at recs.now ((t + p) * record_len f.n)) hashes.now }
    requires hashed_2 { Hashed f m 1024
        (λ p k. blocks.op (key_at recs.now ((t + p) * record_len f.n) k) delta.0) hashes.now }
    ensures { out.new ≡ cat m (λ p. R.leaky_row f delta.0 recs.now (t + p)) }
{
    let size = (f.n - 1) * 32;
    let len = area::leaky_len(f.n);
    for p in 0..m {
        let x = p * len;
        let y = x + len;
        let a = p * size;
        let b = a + size;
        let c = HALF_HASHES + a;
        let d = c + size;
        put_row(
            &mut out[x..y],
            &hashes[a..b],
            &hashes[c..d],
            recs,
            delta,
            f,
            t + p,
        );
    }
}

// The same: their x keys are hashed in one window.
fn put_window(out: &mut [u8], recs: &[u8], delta: Delta, f: Frame, t: usize, m: usize)
    requires { (Positions f t m recs.now) × (m * (f.n - 1) ≤ 32) × (length out.old ≡ m * leaky_len f.n) }
    ensures { out.new ≡ cat m (λ p. R.leaky_row f delta.0 recs.now (t + p)) }
{
    let mut hashes = [0u8; HASHES_LEN];
    haand_hash::hash_keys(&mut hashes, recs, delta, f, t, m);
    put_rows(out, &hashes, recs, delta, f, t, m);
}

// The most bytes that the rows of a window have: those of 32 positions of 2 parties.
const MOST: usize = HALF * (32 + 2 * LEAKY_ENTRY);

// Before the messages: keeps the rows of LEAKY. A turn goes as many positions on as the window has.
pub fn hold(work: &mut [u8], f: Frame)
    requires { Work f work.old }
    ensures { work.new ≡ keep f LEAKY
        (R.leaky_rows f (Table.delta f work.old) (at f BITS work.old)) work.old }
{
    let delta = area::delta(work, f);
    let recs = area::place(f, area::BITS);
    let rows = area::section_at(f, area::LEAKY);
    let count = plan::leaky(f.l);
    let len = area::leaky_len(f.n);
    let mut made = [0u8; MOST];
    let mut t = 0;
    while t < count {
        let m = haand_hash::window(HALF, f.n, count - t);
        let size = m * len;
        put_window(&mut made[0..size], &work[recs.0..recs.1], delta, f, t, m);
        let a = rows + t * len;
        let e = a + size;
        work[a..e].copy_from_slice(&made[0..size]);
        t += m;
    }
}
