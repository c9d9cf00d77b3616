// The machinery of demand 3 over lists of calls, in specs/: what a round call does, whatever the rounds are, and what follows for every
// list of calls. It knows no round. Here: what a session is, and what a call answers (document 01, "The call").
#![tactic(auto)]

ghost use Rattle.std.specs.Prelude.{◌≡◌};
ghost use Rattle.batches.specs.Batches.{untold};
ghost use Rattle.engine.specs.Step.{ended};

use batches::{Counts, Pairs};
use refusals::Reason;

// What the rounds go by: n parties, the own number i, and l.
#[derive(Clone, Copy, Debug, PartialEq, Eq)]
pub struct Frame {
    pub n: usize,
    pub i: usize,
    pub l: usize,
}

// due: the number of the round that is due, 0 once the session is done or ended. counts: those of the batches that make l, 0 where unused
// (crate batches); no round looks at them.
#[derive(Clone, Copy, Debug, PartialEq, Eq)]
pub struct Session {
    pub party: Frame,
    pub due: usize,
    pub counts: Counts,
}

// Why a call is refused: the reason, and the party that it names.
#[derive(Clone, Copy, Debug, PartialEq, Eq)]
pub struct Refusal {
    pub reason: Reason,
    pub party: usize,
}

// What a call or a check says: accepted, or refused.
pub type Verdict = Result<(), Refusal>;

// What a call returns. told: where each batch lies among the results, after the last round, and zeros else.
#[derive(Clone, Copy, Debug, PartialEq, Eq)]
pub struct Answer {
    pub session: Session,
    pub verdict: Verdict,
    pub told: Pairs,
}

// The session after a received fault, and after the last round: it answers 20 from now on, and still knows i.
pub fn ended(s: Session) -> Session
    ensures { result ≡ ended s }
{
    Session { due: 0, ..s }
}

// An answer that tells nothing of the batches.
pub fn silent(s: Session, v: Verdict) -> Answer
    ensures { (result.session ≡ s) × (result.verdict ≡ v) × (result.told ≡ untold) }
{
    Answer {
        session: s,
        verdict: v,
        told: [0; batches::TOLD],
    }
}
