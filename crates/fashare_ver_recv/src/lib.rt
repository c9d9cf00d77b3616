// Round 10 of `fashare` as it is received (document 01, "What each round means"; `fashare` of src/mpc/faand.rs): each dm is held to its
// commitment (crate fashare_third), its length and its bit are checked, and it is kept. The definitions are those of crate rounds,
// specs/Fashare.antt. A dm that was sent is public.
#![tactic(auto)]

ghost use Rattle.std.specs.Prelude.{◌≡◌, ◌≢◌, ℕ, ◌*◌, ◌<◌, ◌≤◌, length, take, drop};
ghost use Rattle.refusals.specs.Reason.{code_of};
ghost use Rattle.plan.specs.Plan.{dm_len};
ghost use Rattle.engine.specs.Step.{by_party};
ghost use Rattle.rounds.specs.Area as Area;
ghost use Rattle.rounds.specs.Mail.{letter};
ghost use Rattle.rounds.specs.EchoLaws.{Received};
ghost use Rattle.rounds.specs.FaultLaws.{Finds};
ghost use Rattle.rounds.specs.DmLaws.{Dues, Checked};
ghost use Rattle.rounds.specs.Fashare as Fashare;
ghost use Rattle.area.specs.Given.{Work};

use engine::{Frame, Verdict};
use fashare_comm::STRINGS;
use message::Kind;
use refusals::Reason;
use rounds::Mail;

// ---- the check

// Dm q of a message is refused where it has another length than the one due, then where its first byte isn't a bit. Those before have the
// length that is due, so it is known where dm q lies.
fn check_dm(m: &[u8], f: Frame, q: usize) -> Result<(), Reason>
    requires dues { Dues f.n q m.now }
    requires le_n { (1 ≤ f.n) × ((f.n ≤ 8) × (q < Fashare.STRINGS)) }
    ensures { (k : ℕ) → code_of result ≡ Fashare.dm_fault f (λ _. m.now) q k }
{
    let due = plan::dm_len(f.n);
    let at = 8 + q * (8 + due);
    let len = block::load64(m, at);
    if len != due as u64 {
        return Err(Reason::ConversionErr);
    }
    if 1 < m[at + 8] {
        Err(Reason::InvalidBitValue)
    } else {
        Ok(())
    }
}

// The dm of party k at string q.
fn check_party(incoming: &[u8], mail: Mail, f: Frame, q: usize, k: usize) -> Result<(), Reason>
    requires k_lt_n { (k < f.n) × ((f.i ≢ k) × (q < Fashare.STRINGS)) }
    requires checked { Checked f q incoming.now mail }
    ensures { code_of result ≡ Fashare.dm_fault f (letter incoming.now mail) q k }
{
    check_dm(rounds::letter(incoming, mail, k), f, q)
}

// The first fault of string q, party by party, where those before have none.
fn check_string(incoming: &[u8], mail: Mail, f: Frame, q: usize) -> Verdict
    requires q_bound { q < Fashare.STRINGS }
    requires checked { Checked f q incoming.now mail }
    ensures { Finds result (by_party f (Fashare.dm_fault f (letter incoming.now mail) q)) }
{
    rounds::by_party(f, |k| check_party(incoming, mail, f, q, k))
}

// Length and bit of the dms, string by string: "dm length comes before its bit".
fn check_strings(incoming: &[u8], mail: Mail, f: Frame) -> Verdict
    requires { Received Kind.Dms Fashare.STRINGS f incoming.now mail }
    ensures { Finds result (Fashare.dm_faults f (letter incoming.now mail)) }
{
    for q in 0..STRINGS {
        check_string(incoming, mail, f, q)?;
    }
    Ok(())
}

// All dms against the third commitments, which "come before any dm length or dm bit".
#[tactic(auto, using(crate::specs::JudgeLaws::shut_first, crate::specs::JudgeLaws::odd_next))]
pub fn judge(work: &[u8], incoming: &[u8], mail: Mail, f: Frame) -> Verdict
    requires work { Work f work.now }
    requires received { Received Kind.Dms Fashare.STRINGS f incoming.now mail }
    ensures { Finds result (Fashare.ver_faults f (Area.at f Area.SHARE_COMMS work.now)
        (letter incoming.now mail)) }
{
    fashare_third::judge(work, incoming, mail, f)?;
    check_strings(incoming, mail, f)
}

// ---- what is kept

// Dm q of a message, in which all have the length that is due: it begins behind q others.
fn dm_of(m: &[u8], n: usize, q: usize) -> &[u8]
    requires le_n { (1 ≤ n) × ((n ≤ 8) × (q < Fashare.STRINGS)) }
    requires dues { Dues n Fashare.STRINGS m.now }
    ensures { (result.now ≡ take (dm_len n) (drop (Fashare.dm_at m.now q) m.now)) × (length result.now ≡ dm_len n) }
{
    let len = plan::dm_len(n);
    let from = 16 + q * (8 + len);
    let to = from + len;
    &m[from..to]
}

// The dms of a message, one after another.
fn copy_dms(out: &mut [u8], m: &[u8], n: usize)
    requires le_n { (1 ≤ n) × ((n ≤ 8) × (length out.old ≡ Fashare.STRINGS * dm_len n)) }
    requires dues { Dues n Fashare.STRINGS m.now }
    ensures { out.new ≡ Fashare.dms_of n m.now }
{
    lists::write_rows(
        out,
        STRINGS,
        plan::dm_len(n),
        |row, q| row.copy_from_slice(dm_of(m, n, q)),
    );
}

// The row of party k.
fn put_row(row: &mut [u8], incoming: &[u8], mail: Mail, f: Frame, k: usize)
    requires k_lt_n { (k < f.n) × ((f.i ≢ k) × (length row.old ≡ Fashare.STRINGS * dm_len f.n)) }
    requires checked { Checked f Fashare.STRINGS incoming.now mail }
    ensures { row.new ≡ Fashare.dms_of f.n (letter incoming.now mail k) }
{
    copy_dms(row, rounds::letter(incoming, mail, k), f.n);
}

// The dms of all others, after a check that found no fault.
pub fn keep(work: &mut [u8], incoming: &[u8], mail: Mail, f: Frame)
    requires work { Work f work.old }
    requires checked { Checked f Fashare.STRINGS incoming.now mail }
    ensures { work.new ≡ Area.keep f Area.DMS
        (Fashare.dm_rows f (letter incoming.now mail)) work.old }
{
    let p = area::place(f, area::DMS);
    rounds::put_rows(
        &mut work[p.0..p.1],
        f,
        STRINGS * plan::dm_len(f.n),
        |row, k| put_row(row, incoming, mail, f, k),
    );
}
