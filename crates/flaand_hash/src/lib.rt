// Round 19, `flaand hash`: h (`flaand` of src/mpc/faand.rs; WRK17b, Pi_LaAND). The own ones are sent; the others' are opened against their
// commitments, and all are summed. The definitions are those of crate rounds, specs/Flaand.antt. What is sent or received here is public.
#![tactic(auto)]

ghost use Rattle.blake3_lanes.specs.Lanes as Lanes;
ghost use Rattle.std.specs.Prelude.{◌≡◌, ◌≢◌, ◌+◌, ◌-◌, ◌*◌, ◌%◌, ◌<◌, ◌≤◌, length};
ghost use Rattle.lists.specs.Over.{cat};
ghost use Rattle.lists.specs.Same.{same?};
ghost use Rattle.refusals.specs.Reason.{code_of};
ghost use Rattle.algebra.specs.Sum.{others};
ghost use Rattle.block.specs.Group.{blocks};
ghost use Rattle.blake3_lanes.specs.Lanes.{hash_at};
ghost use Rattle.plan.specs.Plan.{FLAAND_HASH, InRange, leaky, msg_len};
ghost use Rattle.engine.specs.Area.{to_others};
ghost use Rattle.rounds.specs.Area.{HS, H_COMMS, at};
ghost use Rattle.rounds.specs.Mail.{letter, Arrived};
ghost use Rattle.rounds.specs.Flaand as F;
ghost use Rattle.rounds.specs.FaultLaws.{Finds};
ghost use Rattle.area.specs.Given.{Work};
ghost use Rattle.flaand_hash.specs.Laws.{opens, open_fault, zero_at, summed};

use blake3_lanes::LANES;
use block::Block;
use engine::{Frame, Refusal, Verdict};
use refusals::Reason;
use rounds::Mail;

// The same message to all others, from HS.
pub fn write(out: &mut [u8], work: &[u8], f: Frame)
    requires work { Work f work.now }
    requires out_len { length out.old ≡ (f.n - 1) * msg_len f.n f.l FLAAND_HASH }
    ensures { out.new ≡ to_others f.n f.i (λ _. F.hash_msg f (at f HS work.now)) }
{
    let hs = area::section(work, f, area::HS);
    rounds::write_same(out, plan::leaky(f.l), hs, f.n);
}

// Whether a and b are the same, Block by Block. All are compared.
fn same(a: &[u8], b: &[u8]) -> bool
    requires { (length a.now ≡ length b.now) × (length a.now % 16 ≡ 0) }
    ensures { result ≡ same? a.now b.now }
{
    lists::all_of(
        a.len() / 16,
        |t| block::load(a, t * 16).equals(block::load(b, t * 16)),
    )
}

// Whether the h in hs, a window of them, are those that comms commits to.
fn window_opens(hs: &[u8], comms: &[u8], count: usize) -> bool
    requires { (count ≤ Lanes.LANES) × (length hs.now ≡ count * 16) × (length comms.now ≡ count * 32) }
    ensures { result ≡ same? (cat count (hash_at hs.now)) comms.now }
{
    let mut hashes = [0u8; LANES * 32];
    let len = count * 32;
    blake3_lanes::hash_blocks(&mut hashes[..len], hs, count);
    same(&hashes[..len], comms)
}

// Whether each h in the message m of party k opens its commitment.
fn opens(m: &[u8], comms: &[u8], f: Frame, k: usize) -> bool
    requires in_range { (InRange f.n f.l) × (k < f.n) }
    requires l_in_bounds { (8 + leaky f.l * 16 ≤ length m.now) × (length comms.now ≡ f.n * (leaky f.l * 32)) }
    ensures { result ≡ opens f.l comms.now k m.now }
{
    let count = plan::leaky(f.l);
    let row = k * (count * 32);
    let mut ok = true;
    for q in 0..count.div_ceil(LANES) {
        let t = q * LANES;
        let c = LANES.min(count - t);
        let from = 8 + t * 16;
        let to = from + c * 16;
        let a = row + t * 32;
        let e = a + c * 32;
        ok = ok & window_opens(&m[from..to], &comms[a..e], c);
    }
    ok
}

// Refused if an h of party k doesn't open its commitment.
fn check_opens(comms: &[u8], incoming: &[u8], mail: Mail, f: Frame, k: usize) -> Result<(), Reason>
    requires in_range { (InRange f.n f.l) × (k < f.n) × (f.i ≢ k) × (length comms.now ≡ f.n * (leaky f.l * 32)) }
    requires arrived { Arrived f (8 + leaky f.l * 16) incoming.now mail }
    ensures { code_of result ≡ open_fault f.l comms.now (letter incoming.now mail) k }
{
    if opens(rounds::letter(incoming, mail, k), comms, f, k) {
        Ok(())
    } else {
        Err(Reason::CommitmentCouldNotBeOpened)
    }
}

// The first party of which an h doesn't open its commitment.
fn open(comms: &[u8], incoming: &[u8], mail: Mail, f: Frame) -> Verdict
    requires in_range { (InRange f.n f.l) × (length comms.now ≡ f.n * (leaky f.l * 32)) }
    requires arrived { Arrived f (8 + leaky f.l * 16) incoming.now mail }
    ensures { Finds result (F.opening f comms.now (letter incoming.now mail)) }
{
    rounds::by_party(f, |k| check_opens(comms, incoming, mail, f, k))
}

// The h of party k at position t.
fn h_told(incoming: &[u8], mail: Mail, f: Frame, k: usize, t: usize) -> Block
    requires k_lt_n { (k < f.n) × (f.i ≢ k) × (t < leaky f.l) }
    requires arrived { Arrived f (8 + leaky f.l * 16) incoming.now mail }
    ensures { result ≡ F.h_told (letter incoming.now mail) k t }
{
    block::load(rounds::letter(incoming, mail, k), 8 + t * 16)
}

// The sum of the others' h at position t.
fn h_sum(incoming: &[u8], mail: Mail, f: Frame, t: usize) -> Block
    requires t_bound { t < leaky f.l }
    requires arrived { Arrived f (8 + leaky f.l * 16) incoming.now mail }
    ensures { result ≡ others blocks f.i f.n (λ k. F.h_told (letter incoming.now mail) k t) }
{
    algebra::sum_others(f.i, f.n, |k| h_told(incoming, mail, f, k, t))
}

// Whether all h sum to zero at position t.
fn zero_at(hs: &[u8], incoming: &[u8], mail: Mail, f: Frame, t: usize) -> bool
    requires t_bound { (t < leaky f.l) × (length hs.now ≡ leaky f.l * 16) }
    requires arrived { Arrived f (8 + leaky f.l * 16) incoming.now mail }
    ensures { result ≡ zero_at f hs.now (letter incoming.now mail) t }
{
    let sum = block::load(hs, t * 16).xor(h_sum(incoming, mail, f, t));
    sum.equals(Block::zero())
}

// Whether they do at every position. All are summed.
fn zero_sum(hs: &[u8], incoming: &[u8], mail: Mail, f: Frame) -> bool
    requires l_bound { (f.l ≤ 300000) × (length hs.now ≡ leaky f.l * 16) }
    requires arrived { Arrived f (8 + leaky f.l * 16) incoming.now mail }
    ensures { result ≡ summed f hs.now (letter incoming.now mail) }
{
    lists::all_of(plan::leaky(f.l), |t| zero_at(hs, incoming, mail, f, t))
}

// The first party of which an h doesn't open its commitment, else the own number where the h don't sum to zero.
pub fn judge(work: &[u8], incoming: &[u8], mail: Mail, f: Frame) -> Verdict
    requires work { Work f work.now }
    requires arrived { Arrived f (8 + leaky f.l * 16) incoming.now mail }
    ensures { Finds result (F.h_faults f (at f HS work.now) (at f H_COMMS work.now)
        (letter incoming.now mail)) }
{
    open(area::section(work, f, area::H_COMMS), incoming, mail, f)?;
    if zero_sum(area::section(work, f, area::HS), incoming, mail, f) {
        Ok(())
    } else {
        Err(Refusal {
            reason: Reason::LaANDXorNotZero,
            party: f.i,
        })
    }
}
