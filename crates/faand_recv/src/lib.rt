// What is received in round 22: d and e judged. From `beaver_aand` of src/mpc/faand.rs; the definitions stand in crates/rounds (Beaver).
// Bits, MACs, keys and delta decide no branch and no index.
#![tactic(auto)]

ghost use Rattle.std.specs.Prelude.{◌≡◌, ◌≢◌, ◌+◌, ◌-◌, ◌*◌, ◌<◌, ◌≤◌, length};
ghost use Rattle.lists.specs.All.{all_of};
ghost use Rattle.refusals.specs.Reason.{code_of};
ghost use Rattle.message.specs.declared.Kind.TheVariants.{Items};
ghost use Rattle.rounds.specs.Area as Area;
ghost use Rattle.rounds.specs.Mail.{letter, Arrived};
ghost use Rattle.rounds.specs.EchoLaws.{Received};
ghost use Rattle.rounds.specs.FaultLaws.{Finds};
ghost use Rattle.rounds.specs.Beaver as R;
ghost use Rattle.rounds.specs.Table as Table;
ghost use Rattle.area.specs.Given.{Work};
ghost use Rattle.faand.specs.Given.{Placed};
ghost use Rattle.faand.specs.ItemLaws.{told, item, message};
ghost use Rattle.faand_recv.specs.CheckLaws.{holds, de_fault};

use engine::{Frame, Verdict};
use faand::{COUNT, D_MAC, E_BIT, E_MAC, ITEM, Places};
use refusals::Reason;
use rounds::Mail;
use share::Delta;

// Whether both MACs of bucket j in k's message m hold.
fn item_holds(m: &[u8], work: &[u8], at: Places, f: Frame, j: usize, k: usize, delta: Delta) -> bool
    requires work { (Work f work.now) × (j < f.l) × (Placed f at) }
    requires k_lt_n { (k < f.n) × (told f ≤ length m.now) }
    ensures { result ≡ holds f delta.0 work.now m.now k j }
{
    let r = faand::bucket(work, at, f, j);
    let i = COUNT + j * ITEM;
    let d = share::mac_holds(m, i, i + D_MAC, work, r.a, work, r.alpha, k, delta);
    let e = share::mac_holds(m, i + E_BIT, i + E_MAC, work, r.b, work, r.beta, k, delta);
    d & e
}

// Whether all MACs of k's message m hold: all are looked at.
fn message_holds(m: &[u8], work: &[u8], at: Places, f: Frame, k: usize, delta: Delta) -> bool
    requires work { (Work f work.now) × (Placed f at) }
    requires k_lt_n { (k < f.n) × (told f ≤ length m.now) }
    ensures { result ≡ all_of f.l (holds f delta.0 work.now m.now k) }
{
    let count = f.l;
    let mut ok = true;
    for j in 0..count {
        ok = ok & item_holds(m, work, at, f, j, k, delta);
    }
    ok
}

// Refused if a MAC of party k doesn't hold.
fn check_macs(
    work: &[u8],
    at: Places,
    incoming: &[u8],
    mail: Mail,
    f: Frame,
    k: usize,
    delta: Delta,
) -> Result<(), Reason>
    requires work { (Work f work.now) × (k < f.n) × (Placed f at) × (f.i ≢ k) }
    requires arrived { Arrived f (told f) incoming.now mail }
    ensures { code_of result ≡ de_fault f delta.0 work.now (letter incoming.now mail) k }
{
    let m = rounds::letter(incoming, mail, k);
    if message_holds(m, work, at, f, k, delta) {
        Ok(())
    } else {
        Err(Reason::BeaverWrongMAC)
    }
}

// Round 22: the first party of which a MAC of a d or an e isn't the key, plus delta where the bit is 1.
pub fn judge(work: &[u8], incoming: &[u8], mail: Mail, f: Frame) -> Verdict
    requires work { Work f work.now }
    requires received { Received (Items 34 2) f.l f incoming.now mail }
    ensures { Finds result (R.de_faults f (Table.delta f work.now)
        (Area.at f Area.BITS work.now) (Area.at f Area.PERM work.now)
        (Area.at f Area.TRIPLES work.now) (Area.at f Area.ALPHA work.now)
        (Area.at f Area.BETA work.now) (letter incoming.now mail)) }
{
    let at = faand::sections(f);
    let delta = area::delta(work, f);
    let check = |k| check_macs(work, at, incoming, mail, f, k, delta);
    rounds::by_party(f, check)
}
