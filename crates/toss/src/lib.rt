// Tosses (document 01, "What each round means"): rounds 1 and 3 toss the joint seed, rounds 4 and 5 the pairwise ones. From
// src/mpc/faand.rs of polytune (`shared_rng`, `shared_rng_pairwise`). What is sent; the definitions stand in crates/rounds (Toss). Seeds
// decide no branch and no index here.
#![tactic(auto)]

ghost use Rattle.rounds.specs.Area as Area;
ghost use Rattle.std.specs.Prelude.{◌≡◌, ◌+◌, ◌-◌, ◌*◌, ◌<◌, ◌≤◌, length};
ghost use Rattle.lists.specs.Rows.{chunk};
ghost use Rattle.blake3.specs.Tree as B;
ghost use Rattle.plan.specs.Plan.{RNG_COMM, RNG_VER, PAIR_COMM, PAIR_VER, msg_len};
ghost use Rattle.engine.specs.Area.{to_others};
ghost use Rattle.rounds.specs.Area.{PAIRS, at};
ghost use Rattle.rounds.specs.Toss as Toss;
ghost use Rattle.area.specs.Given.{Work};

use blake3::Digest;
use engine::Frame;

// The bytes of a seed, and of a commitment.
pub const SEED: usize = 32;

// The bytes before the first item of a list.
pub const COUNT: usize = 8;

// A message: the list of one commitment, or of the bytes of a seed.
pub const MSG: usize = COUNT + SEED;

// The commitment of party j to a seed: BLAKE3 of its 32 bytes and of j as 16 bits, high byte first.
pub fn commitment(seed: &[u8], j: usize) -> Digest
    requires { length seed.now ≡ 32 }
    ensures { B.bytes result.0 ≡ Toss.commitment seed.now j }
{
    let mut b = [0u8; SEED + 2];
    fill::copy(&mut b[0..SEED], seed);
    b[SEED] = (j / 256 % 256) as u8;
    b[SEED + 1] = (j % 256) as u8;
    blake3::digest_of(&b)
}

// ---- messages

// The own seed for party k.
pub fn seed_for(pairs: &[u8], k: usize) -> &[u8]
    requires { k * 32 + 32 ≤ length pairs.now }
    ensures { (result.now ≡ chunk 32 k pairs.now) × (length result.now ≡ 32) }
{
    let from = k * SEED;
    let to = from + SEED;
    &pairs[from..to]
}

// The message to party k: the commitment to the seed for it.
fn put_commitment(out: &mut [u8], pairs: &[u8], f: Frame, k: usize)
    requires { (length out.old ≡ 40) × (k < f.n) × (length pairs.now ≡ 32 * f.n) }
    ensures { out.new ≡ Toss.comm_msg (chunk 32 k pairs.now) f.i }
{
    encode::put_count(&mut out[0..COUNT], 1);
    commitment(seed_for(pairs, k), f.i).store(&mut out[COUNT..MSG]);
}

// The message to party k: the seed for it.
fn put_seed(out: &mut [u8], pairs: &[u8], f: Frame, k: usize)
    requires { (length out.old ≡ 40) × (k < f.n) × (length pairs.now ≡ 32 * f.n) }
    ensures { out.new ≡ Toss.ver_msg (chunk 32 k pairs.now) }
{
    encode::put_bytes(out, seed_for(pairs, k));
}

// Round 1: the commitment to the own seed, the same for all others. It is hashed once.
pub fn write_commitments(out: &mut [u8], work: &[u8], f: Frame)
    requires work { Work f work.now }
    requires out_len { length out.old ≡ (f.n - 1) * msg_len f.n f.l RNG_COMM }
    ensures { out.new ≡ to_others f.n f.i (λ _. Toss.comm_msg (at f Area.SEED work.now) f.i) }
{
    let mut b = [0u8; SEED];
    commitment(area::section(work, f, area::SEED), f.i).store(&mut b);
    rounds::write_same(out, 1, &b, f.n);
}

// Round 3: the own seed, to all others.
pub fn write_seed(out: &mut [u8], work: &[u8], f: Frame)
    requires work { Work f work.now }
    requires out_len { length out.old ≡ (f.n - 1) * msg_len f.n f.l RNG_VER }
    ensures { out.new ≡ to_others f.n f.i (λ _. Toss.ver_msg (at f Area.SEED work.now)) }
{
    let seed = area::section(work, f, area::SEED);
    rounds::write_same(out, seed.len(), seed, f.n);
}

// Round 4: to each other party, the commitment to the seed for it.
pub fn write_pair_commitments(out: &mut [u8], work: &[u8], f: Frame)
    requires work { Work f work.now }
    requires out_len { length out.old ≡ (f.n - 1) * msg_len f.n f.l PAIR_COMM }
    ensures { out.new ≡ to_others f.n f.i (λ r. Toss.comm_msg (chunk 32 r (at f PAIRS work.now)) f.i) }
{
    let pairs = area::section(work, f, area::PAIRS);
    rounds::to_others(out, f, MSG, |row, r| put_commitment(row, pairs, f, r));
}

// Round 5: to each other party, the seed for it.
pub fn write_pair_seeds(out: &mut [u8], work: &[u8], f: Frame)
    requires work { Work f work.now }
    requires out_len { length out.old ≡ (f.n - 1) * msg_len f.n f.l PAIR_VER }
    ensures { out.new ≡ to_others f.n f.i (λ r. Toss.ver_msg (chunk 32 r (at f PAIRS work.now))) }
{
    let pairs = area::section(work, f, area::PAIRS);
    rounds::to_others(out, f, MSG, |row, r| put_seed(row, pairs, f, r));
}
