// The round call (document 01, "The call"): it joins what the crates below do for each round. First what is refused and leaves all as it
// was (20, 19, 17), then the form of each message (14, 13, 21, 6), then the content; an accepted call keeps what it received and writes the
// messages of the next round, or the results. The definition is `round_spec` of crate engine at the table of crate rounds.
#![tactic(auto)]

ghost use Rattle.std.specs.Prelude.{◌≡◌, false, [], ℕ, ◌*◌, ◌<◌, ◌≤◌, length, replicate, eqb};
ghost use Rattle.lists.specs.Pick.{pick};
ghost use Rattle.share.specs.Lent.{lent_len};
ghost use Rattle.plan.specs.Plan.{echo?};
ghost use Rattle.batches.specs.Batches.{total};
ghost use Rattle.engine.specs.Step.{mask, reply_of, leaves, told_after, fault_of, round_spec};
ghost use Rattle.engine.specs.Plain.{protocol_of, rule_of, to_echo, out_len_of, lent_of, digests, hashes, check_of, for_echo, keep_of, write_of};
ghost use Rattle.rounds.specs.Mail.{letter};
ghost use Rattle.rounds.specs.FaultLaws.{Finds};
ghost use Rattle.rounds.specs.Table as Table;
ghost use Rattle.rounds.specs.Table.{table};
ghost use Rattle.admit.specs.Admit.{loan, given, posted};
ghost use Rattle.broadcast.specs.Told.{told};
ghost use Rattle.session.specs.Given.{Let, Admitted};

use batches::{Counts, Pairs};
use engine::{Answer, Frame, Refusal, Session, Verdict};
use rounds::Mail;

// The last round.
const LAST: usize = plan::FAAND;

// Whether the call for round k writes an echo.
fn to_echo(n: usize, k: usize) -> bool
    requires { k ≤ 22 }
    ensures { result ≡ to_echo table (eqb n 2) k }
{
    (n != 2) & plan::is_echo(k + 1)
}

// The content of the messages of round k. Where they are echoed, their faults wait for the echo.
fn content(work: &[u8], incoming: &[u8], mail: Mail, f: Frame, k: usize) -> Verdict
    requires { Let f k work.now incoming.now mail }
    ensures { Finds result (check_of table k f work.now (mask f (letter incoming.now mail))) }
{
    if plan::is_echo(k) {
        return broadcast::check(work, incoming, mail, f, k);
    }
    if to_echo(f.n, k) {
        return Ok(());
    }
    plain::judge(work, incoming, mail, f, k)
}

// What is received for round k is kept, unless its content has a fault.
fn keep_clean(work: &mut [u8], found: Verdict, incoming: &[u8], mail: Mail, f: Frame, k: usize)
    requires fact { Let f k work.old incoming.now mail }
    requires found_value { Finds found (Table.judge k f work.old (mask f (letter incoming.now mail))) }
    ensures { work.new ≡ pick (eqb (told found).code 0) (Table.kept k f work.old (mask f (letter incoming.now mail)))
        work.old }
{
    match found {
        Ok(()) => plain::keep(work, incoming, mail, f, k),
        Err(_) => {}
    }
}

// After a call that writes an echo: what was received without a fault is kept, and the hashes and the fault for the echo.
fn hold_echo(work: &mut [u8], incoming: &[u8], mail: Mail, f: Frame, k: usize)
    requires { Let f k work.old incoming.now mail }
    ensures { (work.new ≡ for_echo table k f work.old (mask f (letter incoming.now mail)))
        × (hashes table f work.new ≡ digests table k f (mask f (letter incoming.now mail))) }
{
    let found = plain::judge(work, incoming, mail, f, k);
    keep_clean(work, found, incoming, mail, f, k);
    broadcast::note_verdict(work, found, incoming, mail, f, k);
}

// What is received for round k is kept; an echo is only compared.
fn keep_received(work: &mut [u8], incoming: &[u8], mail: Mail, f: Frame, k: usize)
    requires fact { Let f k work.old incoming.now mail }
    requires mail_value { echo? k ≡ false → (Table.judge k f work.old (mask f (letter incoming.now mail))).code ≡ 0 }
    ensures { work.new ≡ pick (echo? k) work.old
        (Table.kept k f work.old (mask f (letter incoming.now mail))) }
{
    if !plan::is_echo(k) {
        plain::keep(work, incoming, mail, f, k);
    }
}

// The last call: the results are written, and the work area is zeroed.
fn finish(w: &mut [u8], out: &mut [u8], incoming: &[u8], mail: Mail, f: Frame)
    requires fact { Let f 22 w.old incoming.now mail }
    requires out_len { length out.old ≡ f.l * lent_len f.n }
    ensures { (w.new ≡ replicate (length w.old) 0)
        × (out.new ≡ table.result f w.old (mask f (letter incoming.now mail))) }
{
    results::results(out, w, incoming, mail, f);
    fill::clear(w);
}

// An accepted call for round k: what is kept, and what is written.
fn step(work: &mut [u8], out: &mut [u8], incoming: &[u8], mail: Mail, r: &[u8], f: Frame, k: usize)
    requires fact { Let f k work.old incoming.now mail }
    requires mail_value { (check_of table k f work.old (mask f (letter incoming.now mail))).code ≡ 0 }
    requires out_len { (length out.old ≡ out_len_of table k f) × (lent_of table k f.n f.l (loan r.now) ≡ 0) }
    ensures { (work.new ≡ keep_of table k f (loan r.now) work.old
        (mask f (letter incoming.now mail)))
        × (out.new ≡ write_of table k f (loan r.now) work.old
        (mask f (letter incoming.now mail))) }
{
    if k == LAST {
        finish(work, out, incoming, mail, f);
    } else if to_echo(f.n, k) {
        hold_echo(work, incoming, mail, f, k);
        broadcast::write(out, work, f);
    } else {
        keep_received(work, incoming, mail, f, k);
        plain::make(work, out, r, f, plan::next_round(f.n, k));
    }
}

// A received fault: of form, party by party, then of content.
fn fault(work: &[u8], incoming: &[u8], mail: Mail, missing: &[u8], f: Frame, k: usize) -> Verdict
    requires { Admitted f k work.now incoming.now mail missing.now }
    ensures { Finds result (fault_of (rule_of table k) f (posted incoming.now mail missing.now) work.now) }
{
    form::form(incoming, mail, missing, f, k)?;
    content(work, incoming, mail, f, k)
}

// What is answered of the batches, when round `due` is due, 0 after the last.
fn told_after(due: usize, counts: Counts) -> Pairs
    requires { total counts < 0x1_0000_0000 }
    ensures { result ≡ told_after due counts }
{
    if due == 0 {
        batches::pairs(counts)
    } else {
        [0; batches::TOLD]
    }
}

// The call for round k of the session s, with the messages of the other parties: each in the incoming buffer from its start on, as long as
// told, or marked missing. r is empty but for the call that writes `fabitn`.
pub fn round(
    s: Session,
    k: usize,
    incoming: &[u8],
    starts: &[usize],
    lens: &[usize],
    missing: &[u8],
    r: &[u8],
    work: &mut [u8],
    out: &mut [u8],
) -> Answer
    ensures { leaves result.session (reply_of result.verdict) result.told work.new out.new ≡ round_spec (protocol_of table) s k
        (given incoming.now starts.now lens.now missing.now r.now out.old)
        work.old }
{
    let f = s.party;
    if let Err(reason) = admit::check(s, k, incoming, starts, lens, missing, r, work, out) {
        return engine::silent(s, Err(Refusal { reason, party: f.i }));
    }
    let mail = form::mail_of(starts, lens, f.n);
    if let Err(refusal) = fault(work, incoming, mail, missing, f, k) {
        fill::clear(work);
        return engine::silent(engine::ended(s), Err(refusal));
    }
    step(work, out, incoming, mail, r, f, k);
    let due = plan::next_round(f.n, k);
    Answer {
        session: Session { due, ..s },
        verdict: Ok(()),
        told: told_after(due, s.counts),
    }
}
