// Round 14, `fhaand` of src/mpc/faand.rs: the half AND (WRK17b, Pi_HaAND), what is received. What `flaand` needs of the same hashes,
// the sums of G over the x MACs, is computed here too: a MAC is hashed once, a window of MACs at a time.
// Bits, MACs and masks are secret: they decide no branch and no index.
#![tactic(auto)]

ghost use Rattle.std.specs.Prelude.{◌≡◌, ◌≢◌, ◌+◌, ◌-◌, ◌*◌, ◌<◌, ◌≤◌, length};
ghost use Rattle.lists.specs.Over.{cat};
ghost use Rattle.algebra.specs.Group.{bits};
ghost use Rattle.algebra.specs.Sum.{others};
ghost use Rattle.block.specs.Group.{blocks};
ghost use Rattle.share.specs.Record.{record_len, mac_at};
ghost use Rattle.plan.specs.Plan as Plan;
ghost use Rattle.rounds.specs.Area.{MASKS, BITS, ZS, at, keep};
ghost use Rattle.rounds.specs.Mail.{letter, Arrived};
ghost use Rattle.rounds.specs.Haand as R;
ghost use Rattle.area.specs.Given.{Work};
ghost use Rattle.haand_hash.specs.Window.{Asked, Positions, Hashed, g_at, h_at};
ghost use Rattle.haand_recv.specs.Received as Got;

use area::Z_LEN;
use blake3_lanes::LANES;
use block::Block;
use engine::Frame;
use haand_hash::{HASHES_LEN, Hashes};
use rounds::Mail;

// The bit that m has for position t: the second where x is 1, chosen by arithmetic.
fn received(m: &[u8], t: usize, x: bool) -> bool
    requires { (t ≤ 1500000) × (8 + t * 2 + 2 ≤ length m.now) }
    ensures { result ≡ Got.received m.now t x }
{
    let a = block::bit(m, 8 + t * 2);
    let b = block::bit(m, 8 + t * 2 + 1);
    a ^ (x & (a ^ b))
}

// What party k adds to v, its hash left out: the mask for it, and what it told.
fn told_by(
    recs: &[u8],
    masks: &[u8],
    incoming: &[u8],
    mail: Mail,
    f: Frame,
    t: usize,
    k: usize,
) -> bool
    requires asked { (Asked f t recs.now) × (k < f.n) × (f.i ≢ k) }
    requires masks_len { length masks.now ≡ f.n * Plan.leaky f.l }
    requires arrived { Arrived f (8 + Plan.leaky f.l * 2) incoming.now mail }
    ensures { result ≡ Got.told_by f masks.now recs.now (letter incoming.now mail) t k }
{
    let x = share::bit_at(recs, area::x_at(f, t));
    haand::mask_bit(masks, f, k, t) ^ received(rounds::letter(incoming, mail, k), t, x)
}

// z of position t, the hashes left out.
fn told(recs: &[u8], masks: &[u8], incoming: &[u8], mail: Mail, f: Frame, t: usize) -> bool
    requires asked { Asked f t recs.now }
    requires masks_len { length masks.now ≡ f.n * Plan.leaky f.l }
    requires arrived { Arrived f (8 + Plan.leaky f.l * 2) incoming.now mail }
    ensures { result ≡ Got.told f masks.now recs.now (letter incoming.now mail) t }
{
    let x = share::bit_at(recs, area::x_at(f, t));
    let y = share::bit_at(recs, area::y_at(f, t));
    let v = algebra::sum_others(f.i, f.n, |k| told_by(recs, masks, incoming, mail, f, t, k));
    v ^ (x & y)
}

// The sums of G and of H over all other parties, from the hashes of a position: in one loop, so that each hash is looked at once.
fn sums(hashes: &[u8], f: Frame) -> Hashes
    requires { (f.i < f.n) × (length hashes.now ≡ (f.n - 1) * 32) }
    ensures { (result.0 ≡ others blocks f.i f.n (g_at f.i hashes.now))
        × (result.1 ≡ others bits f.i f.n (h_at f.i hashes.now)) }
{
    let mut g = Block::zero();
    let mut h = false;
    for k in 0..f.n {
        if k != f.i {
            let a = haand_hash::hash_by(hashes, f, k);
            g = g.xor(a.0);
            h ^= a.1;
        }
    }
    Hashes(g, h)
}

// The rows of the m positions from t on, from the hashes of their window.
fn put_rows(
    out: &mut [u8],
    hashes: &[u8],
    recs: &[u8],
    masks: &[u8],
    incoming: &[u8],
    mail: Mail,
    f: Frame,
    t: usize,
    m: usize,
)
    requires positions { (Positions f t m recs.now) × (m * (f.n - 1) ≤ 64) × (length out.old ≡ m * 17) }
    requires masks_len { length masks.now ≡ f.n * Plan.leaky f.l }
    requires hashed { Hashed f m 0 (λ p. mac_at recs.now ((t + p) * record_len f.n)) hashes.now }
    requires arrived { Arrived f (8 + Plan.leaky f.l * 2) incoming.now mail }
    ensures { out.new ≡ cat m
        (λ p. R.z_row f masks.now recs.now (letter incoming.now mail) (t + p)) }
{
    let size = (f.n - 1) * 32;
    for p in 0..m {
        let a = p * size;
        let b = a + size;
        let s = sums(&hashes[a..b], f);
        let z = told(recs, masks, incoming, mail, f, t + p);
        let x = p * Z_LEN;
        let y = x + Z_LEN;
        encode::put_bit_block(&mut out[x..y], s.1 ^ z, s.0);
    }
}

// The same: their x MACs are hashed in one window.
fn put_window(
    out: &mut [u8],
    recs: &[u8],
    masks: &[u8],
    incoming: &[u8],
    mail: Mail,
    f: Frame,
    t: usize,
    m: usize,
)
    requires positions { (Positions f t m recs.now) × (m * (f.n - 1) ≤ 64) × (length out.old ≡ m * 17) }
    requires masks_len { length masks.now ≡ f.n * Plan.leaky f.l }
    requires arrived { Arrived f (8 + Plan.leaky f.l * 2) incoming.now mail }
    ensures { out.new ≡ cat m
        (λ p. R.z_row f masks.now recs.now (letter incoming.now mail) (t + p)) }
{
    let mut hashes = [0u8; HASHES_LEN];
    haand_hash::hash_macs(&mut hashes, recs, f, t, m);
    put_rows(out, &hashes, recs, masks, incoming, mail, f, t, m);
}

// The most bytes that the rows of a window have: those of 64 positions of 2 parties.
const MOST: usize = LANES * Z_LEN;

// What is received: keeps the rows of ZS. A turn goes as many positions on as the window has.
pub fn keep(work: &mut [u8], incoming: &[u8], mail: Mail, f: Frame)
    requires work { Work f work.old }
    requires arrived { Arrived f (8 + Plan.leaky f.l * 2) incoming.now mail }
    ensures { work.new ≡ keep f ZS (R.z_rows f (at f MASKS work.old) (at f BITS work.old)
        (letter incoming.now mail)) work.old }
{
    let masks = area::place(f, area::MASKS);
    let recs = area::place(f, area::BITS);
    let rows = area::section_at(f, area::ZS);
    let count = plan::leaky(f.l);
    let mut made = [0u8; MOST];
    let mut t = 0;
    while t < count {
        let m = haand_hash::window(LANES, f.n, count - t);
        let size = m * Z_LEN;
        put_window(
            &mut made[0..size],
            &work[recs.0..recs.1],
            &work[masks.0..masks.1],
            incoming,
            mail,
            f,
            t,
            m,
        );
        let a = rows + t * Z_LEN;
        let e = a + size;
        work[a..e].copy_from_slice(&made[0..size]);
        t += m;
    }
}
