// Round 8, the commitments of `fashare` (document 01, "What each round means"; `fashare` of src/mpc/faand.rs), and what rounds 10 and 12,
// the crates fashare_ver and fashare_dibi, make of the same records: d0 and dm. The definitions are those of crate rounds,
// specs/Fashare.antt. Bits, MACs, keys and delta are secret, and decide no branch and no index.
#![tactic(auto)]

ghost use Rattle.std.specs.Prelude.{◌≡◌, ◌≢◌, ◌-◌, ◌*◌, ◌<◌, length};
ghost use Rattle.lists.specs.Over.{cat};
ghost use Rattle.blake3.specs.Tree as T;
ghost use Rattle.plan.specs.Plan.{FASHARE_COMM, InRange, dm_len, msg_len};
ghost use Rattle.engine.specs.Area.{to_others};
ghost use Rattle.rounds.specs.Area as Area;
ghost use Rattle.rounds.specs.Mail.{letter, Arrived};
ghost use Rattle.rounds.specs.Fashare as Fashare;
ghost use Rattle.rounds.specs.Table as Table;
ghost use Rattle.area.specs.Given.{Work};
ghost use Rattle.fashare_comm.specs.Given.{AllRecords};
ghost use Rattle.fashare_comm.specs.Laws.{comm_item};

use blake3::Digest;
use block::Block;
use engine::Frame;
use rounds::Mail;
use share::{Delta, Key};

// The strings, each of which checks one bit.
pub const STRINGS: usize = 40;

// Where the commitments to d1 and to dm begin behind that to d0, and where they end.
pub const D1_AT: usize = 32;

pub const DM_AT: usize = 64;

pub const COMM: usize = 96;

// A row of commitments: those to each string. In a message a count stands before it.
const ROW: usize = STRINGS * COMM;

const MSG: usize = 8 + ROW;

// The longest dm, that of eight parties.
const DM_MOST: usize = 113;

// ---- what is committed to

// Where the record of string q begins.
pub fn record_at(f: Frame, q: usize) -> usize
    requires { InRange f.n f.l × (q < Fashare.STRINGS) }
    ensures { result ≡ Fashare.record_at f q }
{
    (3 * plan::leaky(f.l) + q) * share::record_len(f.n)
}

// "d0 is the XOR of own keys".
pub fn d0(recs: &[u8], f: Frame, q: usize) -> Block
    requires { (q < Fashare.STRINGS) × AllRecords f recs.now }
    ensures { result ≡ Fashare.d0 f recs.now q }
{
    let at = record_at(f, q);
    algebra::sum_others(f.i, f.n, |k| share::key_at(recs, at, k).0)
}

// "dm = own bit byte, then MACs by party, own left out".
pub fn write_dm(out: &mut [u8], recs: &[u8], f: Frame, q: usize)
    requires out_len { length out.old ≡ dm_len f.n }
    requires q_bound { (q < Fashare.STRINGS) × AllRecords f recs.now }
    ensures { out.new ≡ Fashare.dm f recs.now q }
{
    let at = record_at(f, q);
    out[0] = block::bit_byte(share::bit_at(recs, at));
    lists::write_rows(
        &mut out[1..],
        f.n - 1,
        16,
        |row, p| block::store(row, share::mac_at(recs, at, plan::other(f.i, p)).0),
    );
}

// BLAKE3 of dm.
fn dm_digest(recs: &[u8], f: Frame, q: usize) -> Digest
    requires { (q < Fashare.STRINGS) × AllRecords f recs.now }
    ensures { result.0 ≡ T.digest (Fashare.dm f recs.now q) }
{
    let mut dm = [0u8; DM_MOST];
    let len = plan::dm_len(f.n);
    write_dm(&mut dm[..len], recs, f, q);
    blake3::digest_of(&dm[..len])
}

// "Send BLAKE3 of d0, d1, dm": the three commitments to string q.
fn write_comm(out: &mut [u8], recs: &[u8], delta: Delta, f: Frame, q: usize)
    requires out_len { length out.old ≡ Fashare.COMM }
    requires q_bound { (q < Fashare.STRINGS) × AllRecords f recs.now }
    ensures { out.new ≡ comm_item f delta.0 recs.now q }
{
    let key = Key(d0(recs, f, q));
    let mac = key.xor_delta(delta);
    blake3::hash_block(key.0).store(&mut out[0..D1_AT]);
    blake3::hash_block(mac.0).store(&mut out[D1_AT..DM_AT]);
    dm_digest(recs, f, q).store(&mut out[DM_AT..COMM]);
}

// The commitments to all strings.
fn comms(recs: &[u8], delta: Delta, f: Frame) -> [u8; ROW]
    requires { AllRecords f recs.now }
    ensures { result ≡ cat Fashare.STRINGS (comm_item f delta.0 recs.now) }
{
    let mut all = [0u8; ROW];
    lists::write_rows(
        &mut all,
        STRINGS,
        COMM,
        |row, q| write_comm(row, recs, delta, f, q),
    );
    all
}

// The same message to every other party. It is hashed once.
pub fn write(out: &mut [u8], work: &[u8], f: Frame)
    requires work { Work f work.now }
    requires out_len { length out.old ≡ (f.n - 1) * msg_len f.n f.l FASHARE_COMM }
    ensures { out.new ≡ to_others f.n f.i
        (λ _. Fashare.comm_msg f (Table.delta f work.now) (Area.at f Area.BITS work.now)) }
{
    let delta = area::delta(work, f);
    let all = comms(area::section(work, f, area::BITS), delta, f);
    rounds::write_same(out, STRINGS, &all, f.n);
}

// ---- what is kept

// The commitments that party k sent, behind the count.
fn comms_of(incoming: &[u8], mail: Mail, f: Frame, k: usize) -> &[u8]
    requires k_lt_n { (k < f.n) × (f.i ≢ k) }
    requires arrived { Arrived f Fashare.COMM_MSG incoming.now mail }
    ensures { (result.now ≡ Fashare.comms_in (letter incoming.now mail) k) × (length result.now ≡ Fashare.COMM_ROW) }
{
    &rounds::letter(incoming, mail, k)[8..MSG]
}

// The commitments of all others.
pub fn keep(work: &mut [u8], incoming: &[u8], mail: Mail, f: Frame)
    requires work { Work f work.old }
    requires arrived { Arrived f Fashare.COMM_MSG incoming.now mail }
    ensures { work.new ≡ Area.keep f Area.SHARE_COMMS
        (Fashare.comm_rows f (letter incoming.now mail)) work.old }
{
    let p = area::place(f, area::SHARE_COMMS);
    rounds::put_rows(
        &mut work[p.0..p.1],
        f,
        ROW,
        |row, k| row.copy_from_slice(comms_of(incoming, mail, f, k)),
    );
}
