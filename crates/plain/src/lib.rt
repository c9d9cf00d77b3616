// The plain rounds, all but the echoes (crates/rounds, Table): `judge` is the content check of the messages received and `keep` what stays
// of them; `make` keeps what the next messages need and writes them. The round's number is public and chooses; the rounds' own crates do
// the work. Own messages are never read.
#![tactic(auto)]

ghost use Rattle.std.specs.Prelude.{◌≡◌, true, ◌≢◌, ◌-◌, ◌*◌, ◌≤◌, length};
ghost use Rattle.plan.specs.Plan.{FABITN, kind_of, count_due, msg_len};
ghost use Rattle.engine.specs.Step.{Loan, mask};
ghost use Rattle.engine.specs.Area.{to_others};
ghost use Rattle.rounds.specs.Mail.{letter};
ghost use Rattle.rounds.specs.FaultLaws.{Finds};
ghost use Rattle.rounds.specs.EchoLaws.{Received};
ghost use Rattle.rounds.specs.Table as Table;
ghost use Rattle.area.specs.Given.{Work};
ghost use Rattle.plain.specs.Plain.{plain};
ghost use Rattle.plain.specs.Held.{Held};

use engine::{Frame, Verdict};
use rounds::Mail;

// The content of the messages of round k: the first fault. Echoes have none of their own.
pub fn judge(work: &[u8], incoming: &[u8], mail: Mail, f: Frame, k: usize) -> Verdict
    requires work { Work f work.now }
    requires received { Received (kind_of f.l k) (count_due f.n f.l k) f incoming.now mail }
    ensures { Finds result (Table.judge k f work.now (mask f (letter incoming.now mail))) }
{
    match k {
        plan::RNG_VER => toss_recv::judge(work, area::COMMS, incoming, mail, f),
        plan::PAIR_VER => toss_recv::judge(work, area::PAIR_COMMS, incoming, mail, f),
        plan::FABITN => fabitn_recv::judge(work, incoming, mail, f),
        plan::FASHARE_VER => fashare_ver_recv::judge(work, incoming, mail, f),
        plan::FASHARE_DIBI => fashare_dibi::judge(work, incoming, mail, f),
        plan::FLAAND_HASH => flaand_hash::judge(work, incoming, mail, f),
        plan::DVALUE => dvalue_recv::judge(work, incoming, mail, f),
        plan::FAAND => faand_recv::judge(work, incoming, mail, f),
        _ => Ok(()),
    }
}

// What is kept of the messages of round k, in which no fault was found.
pub fn keep(work: &mut [u8], incoming: &[u8], mail: Mail, f: Frame, k: usize)
    requires work { Work f work.old }
    requires received { Received (kind_of f.l k) (count_due f.n f.l k) f incoming.now mail }
    requires mail_value { (Table.judge k f work.old (mask f (letter incoming.now mail))).code ≡ 0 }
    ensures { work.new ≡ Table.kept k f work.old (mask f (letter incoming.now mail)) }
{
    match k {
        plan::RNG_COMM => toss_recv::keep_told(work, area::COMMS, incoming, mail, f),
        plan::RNG_VER => toss_recv::keep_joint(work, incoming, mail, f),
        plan::PAIR_COMM => toss_recv::keep_told(work, area::PAIR_COMMS, incoming, mail, f),
        plan::PAIR_VER => toss_recv::keep_pairwise(work, incoming, mail, f),
        plan::FASHARE_COMM => fashare_comm::keep(work, incoming, mail, f),
        plan::FASHARE_VER => fashare_ver_recv::keep(work, incoming, mail, f),
        plan::HAAND => haand_recv::keep(work, incoming, mail, f),
        plan::FLAAND => flaand::keep(work, incoming, mail, f),
        plan::FLAAND_COMM => flaand_comm::keep(work, incoming, mail, f),
        plan::DVALUE => dvalue_recv::keep(work, incoming, mail, f),
        _ => {}
    }
}

// What is kept when the messages of round k are made, of all rounds but `fabitn`.
fn hold(work: &mut [u8], f: Frame, k: usize)
    requires work { Work f work.old }
    requires k_nonzero { k ≢ FABITN }
    ensures { (q : Loan) → work.new ≡ Table.held k f q work.old }
{
    match k {
        plan::HAAND => haand_rows::hold(work, f),
        plan::FLAAND_COMM => flaand_comm::hold(work, f),
        plan::DVALUE => buckets::hold(work, f),
        plan::FAAND => triples::hold(work, f),
        _ => {}
    }
}

// The messages of round k, of all rounds but `fabitn`. Those of rounds 14 and 17 are made from what `hold` kept.
fn write(out: &mut [u8], work: &[u8], f: Frame, k: usize)
    requires work { Work f work.now }
    requires k_value { (plain k ≡ true) × (length out.old ≡ (f.n - 1) * msg_len f.n f.l k) }
    requires k_nonzero { (k ≢ FABITN) × Held k f work.now }
    ensures { (q : Loan) → out.new ≡ to_others f.n f.i (Table.written k f q work.now) }
{
    match k {
        plan::RNG_COMM => toss::write_commitments(out, work, f),
        plan::RNG_VER => toss::write_seed(out, work, f),
        plan::PAIR_COMM => toss::write_pair_commitments(out, work, f),
        plan::PAIR_VER => toss::write_pair_seeds(out, work, f),
        plan::FASHARE_COMM => fashare_comm::write(out, work, f),
        plan::FASHARE_VER => fashare_ver::write(out, work, f),
        plan::FASHARE_DIBI => fashare_dibi::write(out, work, f),
        plan::HAAND => haand::write(out, work, f),
        plan::FLAAND => flaand::write(out, work, f),
        plan::FLAAND_COMM => flaand_comm::write(out, work, f),
        plan::FLAAND_HASH => flaand_hash::write(out, work, f),
        plan::DVALUE => dvalue::write(out, work, f),
        plan::FAAND => faand::write(out, work, f),
        _ => {}
    }
}

// The messages of round k are made: what they need is kept, then they are written. In `fabitn` both are made of the same strings.
pub fn make(work: &mut [u8], out: &mut [u8], r: &[u8], f: Frame, k: usize)
    requires work { Work f work.old }
    requires k_value { (plain k ≡ true) × (length out.old ≡ (f.n - 1) * msg_len f.n f.l k) }
    requires r_value { Table.lent k f.n f.l (record { r = r.now }) ≡ 0 }
    ensures { (work.new ≡ Table.held k f (record { r = r.now }) work.old)
        × (out.new ≡ to_others f.n f.i (Table.written k f (record { r = r.now })
        (Table.held k f (record { r = r.now }) work.old))) }
{
    if k == plan::FABITN {
        fabitn::make(work, out, r, f);
    } else {
        hold(work, f, k);
        write(out, work, f, k);
    }
}
