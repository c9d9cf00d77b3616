// What is received, by its form (document 01: "then party by party 14, 13, 6", and 21 between the last two: 02, order 1): each message is
// read once. The definitions are those of crates/engine (Step, Plain) over the table of crates/rounds. Nothing here is secret; every number
// is taken as it comes, and no sum wraps.
#![tactic(auto)]

ghost use Rattle.std.specs.Prelude.{◌≡◌, ◌≢◌, true, ◌<◌, ◌≤◌, length};
ghost use Rattle.refusals.specs.Reason.{code_of};
ghost use Rattle.engine.specs.Step.{parts_in, by_party, form_fault};
ghost use Rattle.engine.specs.Plain.{rule_of};
ghost use Rattle.rounds.specs.FaultLaws.{Finds};
ghost use Rattle.rounds.specs.Table.{table};
ghost use Rattle.area.specs.Given.{Ranged};
ghost use Rattle.admit.specs.Admit.{fits, kind_fault, mail_of, posted};

use engine::{Frame, Verdict};
use message::Kind;
use refusals::Reason;
use rounds::Mail;

// Where the messages lie: the starts and lengths that are lent, by value.
pub fn mail_of(starts: &[usize], lens: &[usize], n: usize) -> Mail
    requires { (length starts.now ≡ n) × (length lens.now ≡ n) × (n ≤ 8) }
    ensures { result ≡ mail_of n starts.now lens.now }
{
    let mut at = [0; 8];
    let mut len = [0; 8];
    at[..n].copy_from_slice(starts);
    len[..n].copy_from_slice(lens);
    Mail {
        starts: at,
        lens: len,
    }
}

// Refused where party k's message is missing, doesn't decode, goes on behind its value, or has another count than the one due.
fn form_one(
    incoming: &[u8],
    mail: Mail,
    missing: &[u8],
    kind: Kind,
    count: usize,
    i: usize,
    k: usize,
) -> Result<(), Reason>
    requires k_bound { (k < 8) × (k < length missing.now) × (i ≢ k) }
    requires k_value { fits i (posted incoming.now mail missing.now) k ≡ true }
    ensures { code_of result ≡ kind_fault kind count (posted incoming.now mail missing.now) k }
{
    if missing[k] != 0 {
        return Err(Reason::Missing);
    }
    message::form_of(kind, count, rounds::letter(incoming, mail, k))
}

// The first other party whose message is refused by its form.
pub fn form(incoming: &[u8], mail: Mail, missing: &[u8], f: Frame, k: usize) -> Verdict
    requires ranged { Ranged f }
    requires missing_len { length missing.now ≡ f.n }
    requires missing_value { parts_in f (posted incoming.now mail missing.now) ≡ true }
    ensures { Finds result (by_party f (form_fault (rule_of table k) f (posted incoming.now mail missing.now))) }
{
    let kind = plan::kind_of(f.l, k);
    let count = plan::count_due(f.n, f.l, k);
    let check = |j| form_one(incoming, mail, missing, kind, count, f.i, j);
    rounds::by_party(f, check)
}
