// Round 10 of `fashare`, against the third commitments of round 8 (document 02, order 2): "each received dm, whole, is checked against it".
// The definitions are those of crate rounds, specs/Fashare.antt. A dm that was sent is public. It is hashed where it lies, and once.
#![tactic(auto)]

ghost use Rattle.std.specs.Prelude.{◌≡◌, ◌≢◌, ◌+◌, ◌*◌, ◌<◌, ◌≤◌, length};
ghost use Rattle.message.specs.Format.{form_of};
ghost use Rattle.rounds.specs.Area as Area;
ghost use Rattle.rounds.specs.Mail.{letter};
ghost use Rattle.rounds.specs.EchoLaws.{Received};
ghost use Rattle.rounds.specs.FaultLaws.{Finds};
ghost use Rattle.rounds.specs.Fashare as Fashare;
ghost use Rattle.area.specs.Given.{Work};
ghost use Rattle.fashare_third.specs.Laws.{First};

use engine::{Frame, Refusal, Verdict};
use fashare_comm::{COMM, DM_AT, STRINGS};
use message::Kind;
use refusals::Reason;
use rounds::Mail;

// The first string below `most` whose dm in m, the message of party k, doesn't open the third commitment. Each dm lies behind the one
// before, so the message is walked once.
fn first_shut(comms: &[u8], m: &[u8], k: usize, most: usize) -> Option<usize>
    requires m_value { form_of Kind.Dms Fashare.STRINGS m.now ≡ 0 }
    requires k_bound { (k < 8) × (k * Fashare.COMM_ROW + Fashare.COMM_ROW ≤ length comms.now) }
    requires most_bound { most ≤ Fashare.STRINGS }
    ensures { First (λ q. Fashare.third_fault comms.now (λ _. m.now) q k) most result }
{
    let mut at = 8;
    for q in 0..most {
        let from = at + 8;
        let to = from + block::load64(m, at) as usize;
        let digest = blake3::digest_of(&m[from..to]);
        if !digest.is(comms, (k * STRINGS + q) * COMM + DM_AT) {
            return Some(q);
        }
        at = to;
    }
    None
}

// The same of party k, where its message lies.
fn shut_of(
    comms: &[u8],
    incoming: &[u8],
    mail: Mail,
    f: Frame,
    k: usize,
    most: usize,
) -> Option<usize>
    requires comms_len { length comms.now ≡ f.n * Fashare.COMM_ROW }
    requires k_lt_n { (k < f.n) × ((f.i ≢ k) × (most ≤ Fashare.STRINGS)) }
    requires received { Received Kind.Dms Fashare.STRINGS f incoming.now mail }
    ensures { First (λ q. Fashare.third_fault comms.now (letter incoming.now mail) q k) most result }
{
    first_shut(comms, rounds::letter(incoming, mail, k), k, most)
}

// The sender of the first dm that doesn't open its commitment, "string by string and then party by party". The messages are walked one
// after another: of what they have, the lowest string counts, and in it the lowest party; the next walk goes no further than that.
pub fn judge(work: &[u8], incoming: &[u8], mail: Mail, f: Frame) -> Verdict
    requires work { Work f work.now }
    requires received { Received Kind.Dms Fashare.STRINGS f incoming.now mail }
    ensures { Finds result (Fashare.third_faults f (Area.at f Area.SHARE_COMMS work.now)
        (letter incoming.now mail)) }
{
    let comms = area::section(work, f, area::SHARE_COMMS);
    let mut most = STRINGS;
    let mut verdict = Ok(());
    for k in 0..f.n {
        if k != f.i {
            if let Some(q) = shut_of(comms, incoming, mail, f, k, most) {
                most = q;
                verdict = Err(Refusal {
                    reason: Reason::CommitmentCouldNotBeOpened,
                    party: k,
                });
            }
        }
    }
    verdict
}
