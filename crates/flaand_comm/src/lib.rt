// Round 17, `flaand comm`: the commitments to h (`flaand` of src/mpc/faand.rs; WRK17b, Pi_LaAND). The own ones are made of the h of
// round 15 and sent, the others' are kept. The definitions are those of crate rounds, specs/Flaand.antt. h is secret: it decides no
// branch and no index.
#![tactic(auto)]

ghost use Rattle.std.specs.Prelude.{◌≡◌, ◌≢◌, ◌+◌, ◌-◌, ◌*◌, ◌<◌, length, take, drop};
ghost use Rattle.plan.specs.Plan.{FLAAND_COMM, leaky, msg_len};
ghost use Rattle.engine.specs.Area.{to_others};
ghost use Rattle.rounds.specs.Area.{HS, H_COMMS, at, keep};
ghost use Rattle.rounds.specs.Mail.{letter, Arrived};
ghost use Rattle.rounds.specs.Flaand as F;
ghost use Rattle.area.specs.Given.{Work};
ghost use Rattle.flaand_comm.specs.Given.{CommsKept};

use engine::Frame;
use rounds::Mail;

// The bytes of a commitment, and those before the first one of a message.
const COMM: usize = 32;

const COUNT: usize = 8;

// The own commitments: each h is hashed once. They stand in the own row of H_COMMS, which comes right behind HS.
pub fn hold(work: &mut [u8], f: Frame)
    requires { Work f work.old }
    ensures { work.new ≡ keep f H_COMMS (F.own_comms f (at f HS work.old) (at f H_COMMS work.old))
        work.old }
{
    let hs = area::section_at(f, area::HS);
    let comms = area::section_at(f, area::H_COMMS);
    let count = plan::leaky(f.l);
    let (front, back) = work.split_at_mut(comms);
    let a = f.i * (count * COMM);
    let e = a + count * COMM;
    blake3_lanes::hash_blocks(&mut back[a..e], &front[hs..], count);
}

// The same message to all others, from the own row that `hold` kept.
pub fn write(out: &mut [u8], work: &[u8], f: Frame)
    requires work { Work f work.now }
    requires out_len { length out.old ≡ (f.n - 1) * msg_len f.n f.l FLAAND_COMM }
    requires comms_kept { CommsKept f work.now }
    ensures { out.new ≡ to_others f.n f.i (λ _. F.comm_msg f (at f HS work.now)) }
{
    let rows = area::section(work, f, area::H_COMMS);
    let count = plan::leaky(f.l);
    let len = count * COMM;
    let a = f.i * len;
    let e = a + len;
    rounds::write_same(out, count, &rows[a..e], f.n);
}

// What party k told behind the count, as many bytes as the row has.
fn keep_row(row: &mut [u8], incoming: &[u8], mail: Mail, f: Frame, k: usize)
    requires k_lt_n { (k < f.n) × (f.i ≢ k) }
    requires arrived { Arrived f (8 + length row.old) incoming.now mail }
    ensures { row.new ≡ take (length row.old) (drop 8 (letter incoming.now mail k)) }
{
    let e = COUNT + row.len();
    row.copy_from_slice(&rounds::letter(incoming, mail, k)[COUNT..e]);
}

// The commitments of all others.
pub fn keep(work: &mut [u8], incoming: &[u8], mail: Mail, f: Frame)
    requires work { Work f work.old }
    requires arrived { Arrived f (8 + leaky f.l * 32) incoming.now mail }
    ensures { work.new ≡ keep f H_COMMS (F.comm_rows f (letter incoming.now mail)) work.old }
{
    let p = area::place(f, area::H_COMMS);
    rounds::put_rows(
        &mut work[p.0..p.1],
        f,
        plan::leaky(f.l) * COMM,
        |row, k| keep_row(row, incoming, mail, f, k),
    );
}
