// Broadcast with abort in the work area (document 01, "What each round means"; `broadcast_verification` of src/mpc/faand.rs): the call for
// a round that is echoed keeps the hashes of the lists and the fault that it found; the echo's call compares the hashes, then reports that
// fault. So a fault is known to all before anybody stops for it. The definitions are those of crate engine, specs/Plain.antt; crate echo
// reads and writes the messages.
#![tactic(auto)]

ghost use Rattle.std.specs.Prelude.{◌≡◌, ◌≢◌, ◌-◌, ◌*◌, ◌<◌, ◌≤◌, length, eqb};
ghost use Rattle.lists.specs.Pick.{pick};
ghost use Rattle.refusals.specs.Reason.{number};
ghost use Rattle.plan.specs.Plan.{kind_of, count_due, msg_len};
ghost use Rattle.engine.specs.Step.{mask};
ghost use Rattle.engine.specs.Plain.{waits, digests, echo_check, hashes, pending};
ghost use Rattle.engine.specs.Area.{to_others, mem};
ghost use Rattle.rounds.specs.Area.{PENDING, HASHES, keep};
ghost use Rattle.rounds.specs.Mail.{letter};
ghost use Rattle.rounds.specs.EchoLaws.{Received};
ghost use Rattle.rounds.specs.Echo as Echo;
ghost use Rattle.rounds.specs.FaultLaws.{Finds};
ghost use Rattle.rounds.specs.Table.{table, faults};
ghost use Rattle.area.specs.Given.{Work};
ghost use Rattle.broadcast.specs.Told.{told, Names};

use engine::{Frame, Refusal, Verdict};
use message::Kind;
use refusals::Reason;
use rounds::Mail;

// Keeps the hashes of the lists of round k.
fn keep_hashes(work: &mut [u8], incoming: &[u8], mail: Mail, f: Frame, k: usize)
    requires work { Work f work.old }
    requires received { Received (kind_of f.l k) (count_due f.n f.l k) f incoming.now mail }
    ensures { work.new ≡ keep f HASHES (digests table k f
        (mask f (letter incoming.now mail))) work.old }
{
    let p = area::place(f, area::HASHES);
    echo::keep_hashes(&mut work[p.0..p.1], incoming, mail, f, k);
}

// The party of a fault in a byte, 0 for none.
fn party_byte(code: u8, party: usize) -> u8
    requires { code ≢ 0 → party < 256 }
    ensures { result ≡ pick (eqb code 0) 0 party }
{
    if code == 0 { 0 } else { party as u8 }
}

// Number and party of a fault, 0 0 for none.
fn put_fault(out: &mut [u8], code: u8, party: usize)
    requires { (length out.old ≡ 2) × (code ≢ 0 → party < 256) }
    ensures { out.new ≡ waits (record { code = code; party = party }) }
{
    out[0] = code;
    out[1] = party_byte(code, party);
}

// Keeps a fault.
fn keep_fault(work: &mut [u8], code: u8, party: usize, f: Frame)
    requires work { Work f work.old }
    requires party_lt_n { code ≢ 0 → party < f.n }
    ensures { work.new ≡ keep f PENDING (waits (record { code = code; party = party })) work.old }
{
    let p = area::place(f, area::PENDING);
    put_fault(&mut work[p.0..p.1], code, party);
}

// Keeps what the echo of round k is about: the hashes, and the fault that was found, if one was, by its number and a party of the
// session; 0 for none.
pub fn note(
    work: &mut [u8],
    code: u8,
    party: usize,
    incoming: &[u8],
    mail: Mail,
    f: Frame,
    k: usize,
)
    requires work { Work f work.old }
    requires party_lt_n { code ≢ 0 → party < f.n }
    requires received { Received (kind_of f.l k) (count_due f.n f.l k) f incoming.now mail }
    ensures { work.new ≡ keep f PENDING (waits (record { code = code; party = party }))
        (keep f HASHES (digests table k f
        (mask f (letter incoming.now mail))) work.old) }
{
    keep_hashes(work, incoming, mail, f, k);
    keep_fault(work, code, party, f);
}

// The same, of a verdict.
pub fn note_verdict(
    work: &mut [u8],
    verdict: Verdict,
    incoming: &[u8],
    mail: Mail,
    f: Frame,
    k: usize,
)
    requires work { Work f work.old }
    requires party_lt_n { Names verdict f.n }
    requires received { Received (kind_of f.l k) (count_due f.n f.l k) f incoming.now mail }
    ensures { work.new ≡ keep f PENDING (waits (told verdict))
        (keep f HASHES (digests table k f
        (mask f (letter incoming.now mail))) work.old) }
{
    match verdict {
        Ok(()) => note(work, 0, 0, incoming, mail, f, k),
        Err(r) => note(work, r.reason.number(), r.party, incoming, mail, f, k),
    }
}

// Whether the content check of round k can find this.
fn finds(k: usize, reason: Reason) -> bool
    ensures { result ≡ mem (number reason) (faults k) }
{
    let unopened = reason == Reason::CommitmentCouldNotBeOpened;
    match k {
        plan::RNG_VER | plan::PAIR_VER => unopened,
        plan::FABITN => reason == Reason::ABitWrongMAC,
        plan::FASHARE_VER => {
            unopened | (reason == Reason::ConversionErr) | (reason == Reason::InvalidBitValue)
        }
        plan::FASHARE_DIBI => unopened | (reason == Reason::AShareWrongMAC),
        plan::FLAAND_HASH => unopened | (reason == Reason::LaANDXorNotZero),
        plan::DVALUE => reason == Reason::AANDWrongMAC,
        plan::FAAND => reason == Reason::BeaverWrongMAC,
        _ => false,
    }
}

// The fault that waits for the echo k. A work area may hold anything: what no call left there is no fault.
fn pending(work: &[u8], f: Frame, k: usize) -> Verdict
    requires work { Work f work.now }
    requires le_k { 1 ≤ k }
    ensures { Finds result (pending table k f work.now) }
{
    let p = area::section(work, f, area::PENDING);
    let party = p[1] as usize;
    let Ok(reason) = Reason::try_from(p[0]) else {
        return Ok(());
    };
    if finds(k - 1, reason) & (party < f.n) {
        Err(Refusal { reason, party })
    } else {
        Ok(())
    }
}

// The call for the echo k: 3 or 7 with the first sender whose echo has a fault, else the fault that waited.
pub fn check(work: &[u8], incoming: &[u8], mail: Mail, f: Frame, k: usize) -> Verdict
    requires work { Work f work.now }
    requires le_k { 1 ≤ k }
    requires received { Received Kind.Options f.n f incoming.now mail }
    ensures { Finds result (echo_check table k f work.now
        (mask f (letter incoming.now mail))) }
{
    echo::check_echoes(area::section(work, f, area::HASHES), incoming, mail, f)?;
    pending(work, f, k)
}

// The echoes to all others, from the hashes that are kept.
pub fn write(out: &mut [u8], work: &[u8], f: Frame)
    requires work { Work f work.now }
    requires out_len { length out.old ≡ (f.n - 1) * msg_len f.n 1 2 }
    ensures { out.new ≡ to_others f.n f.i (Echo.echo_msg f.n f.i (hashes table f work.now)) }
{
    echo::write_echoes(out, area::section(work, f, area::HASHES), f);
}
