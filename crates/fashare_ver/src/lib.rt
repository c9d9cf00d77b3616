// Round 10 of `fashare` (document 01, "What each round means"; `fashare` of src/mpc/faand.rs): each party sends dm, its bit and MACs of
// each of the 40 strings. The definitions are those of crate rounds, specs/Fashare.antt. Before they are sent, bit and MACs decide no
// branch and no index.
#![tactic(auto)]

ghost use Rattle.std.specs.Prelude.{◌≡◌, ◌+◌, ◌-◌, ◌*◌, ◌<◌, length};
ghost use Rattle.encode.specs.Encode.{dm_item};
ghost use Rattle.plan.specs.Plan.{FASHARE_VER, dm_len, msg_len};
ghost use Rattle.engine.specs.Area.{to_others};
ghost use Rattle.rounds.specs.Area as Area;
ghost use Rattle.rounds.specs.Fashare as Fashare;
ghost use Rattle.area.specs.Given.{Work};
ghost use Rattle.fashare_comm.specs.Given.{AllRecords};

use engine::Frame;
use fashare_comm::STRINGS;

// dm q as an item of the message: its length, then its bytes.
fn put_dm(out: &mut [u8], recs: &[u8], f: Frame, q: usize)
    requires out_len { length out.old ≡ 8 + dm_len f.n }
    requires q_bound { (q < Fashare.STRINGS) × AllRecords f recs.now }
    ensures { out.new ≡ dm_item (Fashare.dm f recs.now q) }
{
    let len = plan::dm_len(f.n);
    let e = 8 + len;
    encode::put_count(&mut out[0..8], len);
    fashare_comm::write_dm(&mut out[8..e], recs, f, q);
}

// The message, which is the same to all.
fn write_msg(out: &mut [u8], recs: &[u8], f: Frame)
    requires out_len { length out.old ≡ 8 + Fashare.STRINGS * (8 + dm_len f.n) }
    requires all_records { AllRecords f recs.now }
    ensures { out.new ≡ Fashare.ver_msg f recs.now }
{
    encode::put_count(&mut out[0..8], STRINGS);
    lists::write_rows(
        &mut out[8..],
        STRINGS,
        8 + plan::dm_len(f.n),
        |row, q| put_dm(row, recs, f, q),
    );
}

// "then dm": to every other party.
pub fn write(out: &mut [u8], work: &[u8], f: Frame)
    requires work { Work f work.now }
    requires out_len { length out.old ≡ (f.n - 1) * msg_len f.n f.l FASHARE_VER }
    ensures { out.new ≡ to_others f.n f.i (λ _. Fashare.ver_msg f (Area.at f Area.BITS work.now)) }
{
    let recs = area::section(work, f, area::BITS);
    let len = 8 + STRINGS * (8 + plan::dm_len(f.n));
    rounds::to_others(out, f, len, |row, _k| write_msg(row, recs, f));
}
