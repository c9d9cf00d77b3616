// Round 12 of `fashare` (document 01, "What each round means"; `fashare` of src/mpc/faand.rs): each party opens d0 or d1 by the XOR of the
// others' bits, and the others compare it with what it committed to and with the XOR of the MACs for it. The definitions are those of crate
// rounds, specs/Fashare.antt. Bits, MACs, keys and delta are secret, and decide no branch and no index; what a check found is public.
#![tactic(auto)]

ghost use Rattle.std.specs.Prelude.{◌≡◌, ◌≢◌, ◌+◌, ◌-◌, ◌*◌, ◌<◌, ◌≤◌, length, get_or};
ghost use Rattle.refusals.specs.Reason.{code_of};
ghost use Rattle.algebra.specs.Group.{sel, odd};
ghost use Rattle.algebra.specs.Sum.{neq};
ghost use Rattle.block.specs.Block.{block_at};
ghost use Rattle.block.specs.Group.{blocks};
ghost use Rattle.plan.specs.Plan.{FASHARE_DIBI, dm_len, msg_len};
ghost use Rattle.engine.specs.Step.{by_party};
ghost use Rattle.engine.specs.Area.{to_others};
ghost use Rattle.rounds.specs.Area as Area;
ghost use Rattle.rounds.specs.Mail.{letter, Arrived};
ghost use Rattle.rounds.specs.FaultLaws.{Finds};
ghost use Rattle.rounds.specs.Fashare as Fashare;
ghost use Rattle.rounds.specs.Table as Table;
ghost use Rattle.area.specs.Given.{Work};
ghost use Rattle.fashare_dibi.specs.Given.{DmsKept};

use block::Block;
use engine::{Frame, Verdict};
use fashare_comm::{COMM, D1_AT, STRINGS};
use refusals::Reason;
use rounds::Mail;
use share::{Delta, Key, Mac};

// A message: a count, and a Block for each string.
const MSG: usize = 8 + STRINGS * 16;

// ---- messages

// Where dm q of party k begins in the rows of dms.
fn dm_row(n: usize, k: usize, q: usize) -> usize
    requires k_lt_n { (k < n) × (q < Fashare.STRINGS) }
    requires n_bound { n ≤ 8 }
    ensures { result ≡ (k * Fashare.STRINGS + q) * dm_len n }
{
    (k * STRINGS + q) * plan::dm_len(n)
}

// Party k's bit of string q.
fn bit_of(dms: &[u8], f: Frame, q: usize, k: usize) -> bool
    requires k_lt_n { (k < f.n) × (f.n ≤ 8) }
    requires q_bound { (q < Fashare.STRINGS) × (length dms.now ≡ f.n * (Fashare.STRINGS * dm_len f.n)) }
    ensures { result ≡ odd (get_or dms.now (Fashare.dm_row f k q) 0) }
{
    block::bit(dms, dm_row(f.n, k, q))
}

// The XOR of the others' bits of string q.
fn others_bit(dms: &[u8], f: Frame, q: usize) -> bool
    requires le_n { (1 ≤ f.n) × (f.n ≤ 8) }
    requires q_bound { (q < Fashare.STRINGS) × (length dms.now ≡ f.n * (Fashare.STRINGS * dm_len f.n)) }
    ensures { result ≡ Fashare.others1 f dms.now q }
{
    algebra::sum_others(f.i, f.n, |k| bit_of(dms, f, q, k))
}

// d0 where the others' bits add to 0, else d1: delta is added by a product, so that no bit decides a branch.
fn opened(recs: &[u8], dms: &[u8], delta: Delta, f: Frame, q: usize) -> Block
    requires { (q < Fashare.STRINGS) × DmsKept f recs.now dms.now }
    ensures { result ≡ blocks.op (Fashare.d0 f recs.now q)
        (sel blocks (Fashare.others1 f dms.now q) delta.0) }
{
    let key = Key(fashare_comm::d0(recs, f, q));
    let bit = others_bit(dms, f, q);
    let mac = key.xor_delta(delta.times(bit));
    mac.0
}

// The message, which is the same to all.
fn write_msg(out: &mut [u8], recs: &[u8], dms: &[u8], delta: Delta, f: Frame)
    requires out_len { length out.old ≡ Fashare.DIBI_MSG }
    requires dms_kept { DmsKept f recs.now dms.now }
    ensures { out.new ≡ Fashare.dibi_msg f delta.0 recs.now dms.now }
{
    encode::put_count(&mut out[0..8], STRINGS);
    lists::write_rows(
        &mut out[8..],
        STRINGS,
        16,
        |row, q| block::store(row, opened(recs, dms, delta, f, q)),
    );
}

// "then d0 or d1 by the XOR of the others' bits": to every other party.
pub fn write(out: &mut [u8], work: &[u8], f: Frame)
    requires work { Work f work.now }
    requires out_len { length out.old ≡ (f.n - 1) * msg_len f.n f.l FASHARE_DIBI }
    ensures { out.new ≡ to_others f.n f.i (λ _. Fashare.dibi_msg f (Table.delta f work.now)
        (Area.at f Area.BITS work.now) (Area.at f Area.DMS work.now)) }
{
    let delta = area::delta(work, f);
    let recs = area::section(work, f, area::BITS);
    let dms = area::section(work, f, area::DMS);
    rounds::to_others(out, f, MSG, |row, _k| write_msg(row, recs, dms, delta, f));
}

// ---- the check

// Where party j's dm has its MAC for k: the own number is left out.
fn dm_mac_off(j: usize, k: usize) -> usize
    requires { k < 8 }
    ensures { result ≡ Fashare.dm_mac j k }
{
    if j < k { 1 + 16 * (k - 1) } else { 1 + 16 * k }
}

// Party j's MAC for k in its dm of string q; zero for k's own.
fn dm_mac(dms: &[u8], f: Frame, q: usize, k: usize, j: usize) -> Mac
    requires k_lt_n { (k < f.n) × (j < f.n) }
    requires n_bound { (f.n ≤ 8) × (q < Fashare.STRINGS) }
    requires dms_len { length dms.now ≡ f.n * (Fashare.STRINGS * dm_len f.n) }
    ensures { result.0 ≡ sel blocks (neq k j) (block_at dms.now (Fashare.dm_row f j q + Fashare.dm_mac j k)) }
{
    if k == j {
        return Mac(Block::zero());
    }
    Mac(block::load(dms, dm_row(f.n, j, q) + dm_mac_off(j, k)))
}

// The XOR of all MACs for k: the own one, and those in the dms of the others.
fn macs_for(recs: &[u8], dms: &[u8], f: Frame, q: usize, k: usize) -> Block
    requires q_bound { (q < Fashare.STRINGS) × (k < f.n) }
    requires dms_kept { DmsKept f recs.now dms.now }
    ensures { result ≡ Fashare.macs_for f recs.now dms.now q k }
{
    let own = share::mac_at(recs, fashare_comm::record_at(f, q), k);
    let sum = algebra::sum_others(f.i, f.n, |j| dm_mac(dms, f, q, k, j).0);
    own.xor(Mac(sum)).0
}

// Refused where what k sent for string q, in its message m, opens neither of its first two commitments, then where it isn't the XOR of the
// MACs for k.
fn check_opened(
    recs: &[u8],
    comms: &[u8],
    dms: &[u8],
    m: &[u8],
    f: Frame,
    q: usize,
    k: usize,
) -> Result<(), Reason>
    requires q_bound { (q < Fashare.STRINGS) × (k < f.n) }
    requires dms_kept { DmsKept f recs.now dms.now }
    requires comms_len { (length comms.now ≡ f.n * Fashare.COMM_ROW) × (Fashare.DIBI_MSG ≤ length m.now) }
    ensures { code_of result ≡ Fashare.dibi_fault f recs.now comms.now dms.now (λ _. m.now) q k }
{
    let d = block::load(m, 8 + q * 16);
    let digest = blake3::hash_block(d);
    let at = (k * STRINGS + q) * COMM;
    let opens = digest.is(comms, at) | digest.is(comms, at + D1_AT);
    let due = macs_for(recs, dms, f, q, k).equals(d);
    if !opens {
        return Err(Reason::CommitmentCouldNotBeOpened);
    }
    if due {
        Ok(())
    } else {
        Err(Reason::AShareWrongMAC)
    }
}

// What party k sent for string q.
fn check_party(
    recs: &[u8],
    comms: &[u8],
    dms: &[u8],
    incoming: &[u8],
    mail: Mail,
    f: Frame,
    q: usize,
    k: usize,
) -> Result<(), Reason>
    requires q_bound { (q < Fashare.STRINGS) × ((k < f.n) × (f.i ≢ k)) }
    requires dms_kept { DmsKept f recs.now dms.now }
    requires comms_len { (length comms.now ≡ f.n * Fashare.COMM_ROW) × Arrived f Fashare.DIBI_MSG incoming.now mail }
    ensures { code_of result ≡ Fashare.dibi_fault f recs.now comms.now dms.now (letter incoming.now mail) q k }
{
    check_opened(recs, comms, dms, rounds::letter(incoming, mail, k), f, q, k)
}

// The first fault of string q, party by party.
fn check_string(
    recs: &[u8],
    comms: &[u8],
    dms: &[u8],
    incoming: &[u8],
    mail: Mail,
    f: Frame,
    q: usize,
) -> Verdict
    requires q_bound { q < Fashare.STRINGS }
    requires dms_kept { DmsKept f recs.now dms.now }
    requires comms_len { (length comms.now ≡ f.n * Fashare.COMM_ROW) × Arrived f Fashare.DIBI_MSG incoming.now mail }
    ensures { Finds result (by_party f (Fashare.dibi_fault f recs.now comms.now dms.now
        (letter incoming.now mail) q)) }
{
    rounds::by_party(
        f,
        |k| check_party(recs, comms, dms, incoming, mail, f, q, k),
    )
}

// What was opened against the commitments, and against the MACs in the dms, string by string.
pub fn judge(work: &[u8], incoming: &[u8], mail: Mail, f: Frame) -> Verdict
    requires work { Work f work.now }
    requires arrived { Arrived f Fashare.DIBI_MSG incoming.now mail }
    ensures { Finds result (Fashare.dibi_faults f (Area.at f Area.BITS work.now)
        (Area.at f Area.SHARE_COMMS work.now) (Area.at f Area.DMS work.now)
        (letter incoming.now mail)) }
{
    let recs = area::section(work, f, area::BITS);
    let comms = area::section(work, f, area::SHARE_COMMS);
    let dms = area::section(work, f, area::DMS);
    for q in 0..STRINGS {
        check_string(recs, comms, dms, incoming, mail, f, q)?;
    }
    Ok(())
}
