// What is received in round 6: the sums judged. From `fabitn` of src/mpc/faand.rs; the definitions stand in crates/rounds (Fabitn).
// Bits, MACs, keys and delta are secret, and decide no branch and no index; what a check found is public.
#![tactic(auto)]

ghost use Rattle.std.specs.Prelude.{◌≡◌, ◌≢◌, ◌+◌, ◌-◌, ◌*◌, ◌<◌, ◌≤◌, length};
ghost use Rattle.refusals.specs.Reason.{code_of};
ghost use Rattle.engine.specs.Step.{by_party};
ghost use Rattle.rounds.specs.Area.{KEY_SUMS, at};
ghost use Rattle.rounds.specs.Mail.{letter, Arrived};
ghost use Rattle.rounds.specs.FaultLaws.{Finds};
ghost use Rattle.rounds.specs.Fabitn as Fabitn;
ghost use Rattle.rounds.specs.Table as Table;
ghost use Rattle.area.specs.Given.{Work};

use engine::{Frame, Verdict};
use fabitn::{ITEM, STRINGS};
use refusals::Reason;
use rounds::Mail;
use share::{Delta, Key, Mac};

// Refused where the sum of MACs that party k sent for string j, in its message, isn't the sum of its keys, plus delta where its bit is 1.
fn check_sum(
    delta: Delta,
    sums: &[u8],
    incoming: &[u8],
    mail: Mail,
    f: Frame,
    j: usize,
    k: usize,
) -> Result<(), Reason>
    requires j_bound { (j < Fabitn.STRINGS) × (k < f.n) × (f.i ≢ k) }
    requires sums_len { length sums.now ≡ f.n * Fabitn.ROW }
    requires arrived { Arrived f Fabitn.MSG incoming.now mail }
    ensures { code_of result ≡ Fabitn.abit_fault delta.0 sums.now (letter incoming.now mail) j k }
{
    let m = rounds::letter(incoming, mail, k);
    let key = Key(block::load(sums, (k * STRINGS + j) * 16));
    let at = 8 + j * ITEM;
    let bit = block::bit(m, at);
    let mac = Mac(block::load(m, at + 1));
    let due = key.xor_delta(delta.times(bit));
    if mac.0.equals(due.0) {
        Ok(())
    } else {
        Err(Reason::ABitWrongMAC)
    }
}

// The first fault of string j, party by party.
fn check_string(
    delta: Delta,
    sums: &[u8],
    incoming: &[u8],
    mail: Mail,
    f: Frame,
    j: usize,
) -> Verdict
    requires j_bound { j < Fabitn.STRINGS }
    requires sums_len { length sums.now ≡ f.n * Fabitn.ROW }
    requires arrived { Arrived f Fabitn.MSG incoming.now mail }
    ensures { Finds result (by_party f (Fabitn.abit_fault delta.0 sums.now (letter incoming.now mail) j)) }
{
    rounds::by_party(f, |k| check_sum(delta, sums, incoming, mail, f, j, k))
}

// The sums of MACs against the sums of keys, string by string.
pub fn judge(work: &[u8], incoming: &[u8], mail: Mail, f: Frame) -> Verdict
    requires work { Work f work.now }
    requires arrived { Arrived f Fabitn.MSG incoming.now mail }
    ensures { Finds result (Fabitn.abits f (Table.delta f work.now)
        (at f KEY_SUMS work.now) (letter incoming.now mail)) }
{
    let delta = area::delta(work, f);
    let sums = area::section(work, f, area::KEY_SUMS);
    for j in 0..STRINGS {
        check_string(delta, sums, incoming, mail, f, j)?;
    }
    Ok(())
}
