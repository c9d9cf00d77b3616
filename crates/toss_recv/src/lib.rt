// What is received in the tosses: the commitments kept, the seeds opened against them, the joint seed and the pairwise seeds. From
// `shared_rng` and `shared_rng_pairwise` of src/mpc/faand.rs; the definitions stand in crates/rounds (Toss). Seeds decide no branch and no
// index.
#![tactic(auto)]

ghost use Rattle.rounds.specs.Area as Area;
ghost use Rattle.std.specs.Prelude.{◌≡◌, ◌≢◌, ◌+◌, ◌-◌, ◌*◌, ◌<◌, ◌≤◌, length};
ghost use Rattle.lists.specs.Rows.{chunk};
ghost use Rattle.refusals.specs.Reason.{code_of};
ghost use Rattle.block.specs.Block.{xor_inplace};
ghost use Rattle.rounds.specs.Area.{PAIRS, JOINT, PAIRWISE, at, keep};
ghost use Rattle.rounds.specs.Mail.{letter, Arrived};
ghost use Rattle.rounds.specs.FaultLaws.{Finds};
ghost use Rattle.rounds.specs.Loops.{row_of};
ghost use Rattle.rounds.specs.Toss as Toss;
ghost use Rattle.rounds.specs.TossLaws.{open_fault};
ghost use Rattle.area.specs.Given.{Work};
ghost use Rattle.toss_recv.specs.Given.{ToldRows};

use engine::{Frame, Verdict};
use refusals::Reason;
use rounds::Mail;
use toss::{COUNT, MSG, SEED};

// What party k told, a commitment or a seed.
fn told(incoming: &[u8], mail: Mail, f: Frame, k: usize) -> &[u8]
    requires k_lt_n { (k < f.n) × (f.i ≢ k) }
    requires arrived { Arrived f 40 incoming.now mail }
    ensures { (result.now ≡ Toss.told (letter incoming.now mail k)) × (length result.now ≡ 32) }
{
    &rounds::letter(incoming, mail, k)[COUNT..MSG]
}

// What all others told, row by row.
fn told_rows(section: &mut [u8], incoming: &[u8], mail: Mail, f: Frame)
    requires n_bound { (f.n ≤ 8) × (length section.old ≡ f.n * 32) }
    requires arrived { Arrived f 40 incoming.now mail }
    ensures { section.new ≡ Toss.told_rows f (letter incoming.now mail) }
{
    rounds::put_rows(
        section,
        f,
        SEED,
        |row, k| row.copy_from_slice(told(incoming, mail, f, k)),
    );
}

// Refused if the seed that party k told doesn't open its commitment.
fn check_opens(comms: &[u8], incoming: &[u8], mail: Mail, f: Frame, k: usize) -> Result<(), Reason>
    requires n_bound { (f.n ≤ 8) × (f.i < f.n) × (k < f.n) × (f.i ≢ k) × (length comms.now ≡ f.n * 32) }
    requires arrived { Arrived f 40 incoming.now mail }
    ensures { code_of result ≡ open_fault comms.now (letter incoming.now mail) k }
{
    if toss::commitment(told(incoming, mail, f, k), k).is(comms, k * SEED) {
        Ok(())
    } else {
        Err(Reason::CommitmentCouldNotBeOpened)
    }
}

// The first party whose seed doesn't open its commitment.
fn open(comms: &[u8], incoming: &[u8], mail: Mail, f: Frame) -> Verdict
    requires n_bound { (f.n ≤ 8) × ((f.i < f.n) × (length comms.now ≡ f.n * 32)) }
    requires arrived { Arrived f 40 incoming.now mail }
    ensures { Finds result (Toss.opening f comms.now (letter incoming.now mail)) }
{
    rounds::by_party(f, |k| check_opens(comms, incoming, mail, f, k))
}

// The joint seed, the XOR of all seeds.
fn joint_seed(seed: &[u8], incoming: &[u8], mail: Mail, f: Frame) -> [u8; SEED]
    requires n_bound { (f.n ≤ 8) × (length seed.now ≡ 32) }
    requires arrived { Arrived f 40 incoming.now mail }
    ensures { result ≡ Toss.joint_seed f seed.now (letter incoming.now mail) }
{
    let mut x = [0u8; SEED];
    block::xor_inplace(&mut x, seed);
    for k in 0..f.n {
        if k != f.i {
            block::xor_inplace(&mut x, told(incoming, mail, f, k));
        }
    }
    x
}

// The seed with party k, the XOR of the own one for it and of what it told; zero for the own number.
fn pair_seed(pairs: &[u8], incoming: &[u8], mail: Mail, f: Frame, k: usize) -> [u8; SEED]
    requires n_bound { (f.n ≤ 8) × ((f.i < f.n) × ((k < f.n) × (length pairs.now ≡ 32 * f.n))) }
    requires arrived { Arrived f 40 incoming.now mail }
    ensures { result ≡ row_of f.i 32
        (λ p. xor_inplace (chunk 32 p pairs.now) (Toss.told (letter incoming.now mail p))) k }
{
    let mut x = [0u8; SEED];
    if k != f.i {
        x.copy_from_slice(toss::seed_for(pairs, k));
        block::xor_inplace(&mut x, told(incoming, mail, f, k));
    }
    x
}

// Rounds 1 and 4: the commitments of all others, into section s.
pub fn keep_told(work: &mut [u8], s: usize, incoming: &[u8], mail: Mail, f: Frame)
    requires work { Work f work.old × ToldRows f s }
    requires arrived { Arrived f 40 incoming.now mail }
    ensures { work.new ≡ keep f s (Toss.told_rows f (letter incoming.now mail)) work.old }
{
    let p = area::place(f, s);
    told_rows(&mut work[p.0..p.1], incoming, mail, f);
}

// Rounds 3 and 5: the first party whose seed doesn't open its commitment in section s.
pub fn judge(work: &[u8], s: usize, incoming: &[u8], mail: Mail, f: Frame) -> Verdict
    requires work { Work f work.now × ToldRows f s }
    requires arrived { Arrived f 40 incoming.now mail }
    ensures { Finds result (Toss.opening f (at f s work.now) (letter incoming.now mail)) }
{
    open(area::section(work, f, s), incoming, mail, f)
}

// Round 3: the joint seed.
pub fn keep_joint(work: &mut [u8], incoming: &[u8], mail: Mail, f: Frame)
    requires work { Work f work.old }
    requires arrived { Arrived f 40 incoming.now mail }
    ensures { work.new ≡ keep f JOINT (Toss.joint_seed f (at f Area.SEED work.old)
        (letter incoming.now mail)) work.old }
{
    let seed = joint_seed(area::section(work, f, area::SEED), incoming, mail, f);
    let p = area::place(f, area::JOINT);
    work[p.0..p.1].copy_from_slice(&seed);
}

// Round 5: the pairwise seeds.
pub fn keep_pairwise(work: &mut [u8], incoming: &[u8], mail: Mail, f: Frame)
    requires work { Work f work.old }
    requires arrived { Arrived f 40 incoming.now mail }
    ensures { work.new ≡ keep f PAIRWISE (Toss.pairwise_seeds f (at f PAIRS work.old)
        (letter incoming.now mail)) work.old }
{
    let rows_at = area::section_at(f, area::PAIRWISE);
    for k in 0..f.n {
        let row = pair_seed(area::section(work, f, area::PAIRS), incoming, mail, f, k);
        let a = rows_at + k * SEED;
        let e = a + SEED;
        work[a..e].copy_from_slice(&row);
    }
}
