// Round 14, what is hashed (WRK17b, Pi_HaAND): the x keys of the other parties, those keys plus delta, and the x MACs, 64 Blocks at a time.
// A window has the Blocks of as many whole positions as it has lanes for; lanes that are left over hash zeros.
// Keys, MACs and delta are secret: they decide no branch and no index.
#![tactic(auto)]

ghost use Rattle.std.specs.Prelude.{◌≡◌, ◌≢◌, ◌+◌, ◌-◌, ◌*◌, ◌<◌, ◌≤◌, length};
ghost use Rattle.lists.specs.Over.{cat};
ghost use Rattle.block.specs.Block.{block_at, bytes_of};
ghost use Rattle.block.specs.Group.{blocks};
ghost use Rattle.share.specs.Record.{record_len, mac_at, key_at};
ghost use Rattle.engine.specs.Area.{to_others};
ghost use Rattle.haand_hash.specs.Window as W;
ghost use Rattle.haand_hash.specs.Window.{Positions, Hashed, part_of, g_at, h_at};

use blake3_lanes::LANES;
use block::Block;
use engine::Frame;
use share::Delta;

// The bytes of a window's Blocks, and of their hashes.
const BLOCKS_LEN: usize = LANES * 16;

pub const HASHES_LEN: usize = LANES * 32;

// Half the lanes: keys stand in the first, the same keys plus delta in the second; and where the Blocks and the hashes of the second start.
pub const HALF: usize = 32;

const HALF_BLOCKS: usize = HALF * 16;

pub const HALF_HASHES: usize = HALF * 32;

// How many of the `left` positions that are left have their Blocks in the next window of `lanes` lanes.
pub fn window(lanes: usize, n: usize, left: usize) -> usize
    requires le_n { (2 ≤ n) × ((n ≤ 8) × (7 ≤ lanes)) }
    requires left_nonzero { 0 < left }
    ensures { (0 < result) × (result ≤ left) × (result * (n - 1) ≤ lanes) }
{
    let most = lanes / (n - 1);
    left.min(most)
}

// G and H of a Block.
#[derive(Clone, Copy)]
pub struct Hashes(pub Block, pub bool);

// The place of party k among those but i.
fn place(i: usize, k: usize) -> usize
    requires { i ≢ k }
    ensures { result ≡ W.place i k }
{
    if k < i { k } else { k - 1 }
}

// Those of party k, from the hashes of a position.
pub fn hash_of(s: &[u8], i: usize, k: usize) -> Hashes
    requires { (i ≢ k) × (W.place i k * 32 + 32 ≤ length s.now) }
    ensures { (result.0 ≡ g_at i s.now k) × (result.1 ≡ h_at i s.now k) }
{
    let at = place(i, k) * 32;
    Hashes(block::load(s, at), block::bit(s, at + 31))
}

// The same, where a hash of every party but the own is there.
pub fn hash_by(s: &[u8], f: Frame, k: usize) -> Hashes
    requires { (f.i < f.n) × (k < f.n) × (f.i ≢ k) × (length s.now ≡ (f.n - 1) * 32) }
    ensures { (result.0 ≡ g_at f.i s.now k) × (result.1 ≡ h_at f.i s.now k) }
{
    hash_of(s, f.i, k)
}

// The key of party k in the record at `at`, or the MAC for it.
fn part_of(recs: &[u8], at: usize, n: usize, k: usize, keys: bool) -> Block
    requires { (n ≤ 8) × (k < n) × (at + record_len n ≤ length recs.now) }
    ensures { result ≡ part_of keys recs.now at k }
{
    if keys {
        share::key_at(recs, at, k).0
    } else {
        share::mac_at(recs, at, k).0
    }
}

// Those of all other parties.
fn put_parts(out: &mut [u8], recs: &[u8], at: usize, f: Frame, keys: bool)
    requires le_n { (1 ≤ f.n) × ((f.n ≤ 8) × (length out.old ≡ (f.n - 1) * 16)) }
    requires n_in_bounds { at + record_len f.n ≤ length recs.now }
    ensures { out.new ≡ to_others f.n f.i (λ k. bytes_of (part_of keys recs.now at k)) }
{
    rounds::to_others(
        out,
        f,
        16,
        |row, k| block::store(row, part_of(recs, at, f.n, k, keys)),
    );
}

// Those of the m positions from t on.
fn gather(out: &mut [u8], recs: &[u8], f: Frame, t: usize, m: usize, keys: bool)
    requires positions { Positions f t m recs.now }
    requires out_len { length out.old ≡ m * ((f.n - 1) * 16) }
    ensures { out.new ≡ cat m (λ p. to_others f.n f.i
        (λ k. bytes_of (part_of keys recs.now ((t + p) * record_len f.n) k))) }
{
    let len = (f.n - 1) * 16;
    for p in 0..m {
        let a = p * len;
        let e = a + len;
        put_parts(&mut out[a..e], recs, area::x_at(f, t + p), f, keys);
    }
}

// The hashes of the x MACs of the m positions from t on.
pub fn hash_macs(out: &mut [u8; HASHES_LEN], recs: &[u8], f: Frame, t: usize, m: usize)
    requires { (Positions f t m recs.now) × (m * (f.n - 1) ≤ 64) }
    ensures { Hashed f m 0 (λ p. mac_at recs.now ((t + p) * record_len f.n)) out.new }
{
    let mut blocks = [0u8; BLOCKS_LEN];
    let len = m * ((f.n - 1) * 16);
    gather(&mut blocks[..len], recs, f, t, m, false);
    blake3_lanes::hash_window(out, &blocks);
}

// The first 32 Blocks of s, each plus d.
fn add(out: &mut [u8], s: &[u8], d: Block)
    requires { (length out.old ≡ 512) × (512 ≤ length s.now) }
    ensures { out.new ≡ cat 32 (λ j. bytes_of (blocks.op (block_at s.now (j * 16)) d)) }
{
    lists::write_rows(
        out,
        HALF,
        16,
        |row, j| block::store(row, block::load(s, j * 16).xor(d)),
    );
}

// The hashes of the x keys of the m positions from t on, and in the second half those of the keys plus delta.
pub fn hash_keys(
    out: &mut [u8; HASHES_LEN],
    recs: &[u8],
    delta: Delta,
    f: Frame,
    t: usize,
    m: usize,
)
    requires { (Positions f t m recs.now) × (m * (f.n - 1) ≤ 32) }
    ensures hashed { Hashed f m 0 (λ p. key_at recs.now ((t + p) * record_len f.n)) out.new }
    ensures hashed_2 { Hashed f m 1024
        (λ p k. blocks.op (key_at recs.now ((t + p) * record_len f.n) k) delta.0) out.new }
{
    let mut blocks = [0u8; BLOCKS_LEN];
    let len = m * ((f.n - 1) * 16);
    gather(&mut blocks[..len], recs, f, t, m, true);
    let keys = blocks;
    add(&mut blocks[HALF_BLOCKS..BLOCKS_LEN], &keys, delta.0);
    blake3_lanes::hash_window(out, &blocks);
}
