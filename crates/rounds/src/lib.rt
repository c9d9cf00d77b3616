// What the rounds of a session are: the definitions in specs/ (document 01, "What each round means"), cited by every crate above. Here:
// what those crates share: the messages of a round, and what is done party by party.
#![tactic(auto)]

ghost use Rattle.std.specs.Prelude.{◌≡◌, ◌≢◌, ◌++◌, List, ℕ, ⊤, Result, ◌+◌, ◌-◌, ◌*◌, ◌<◌, ◌≤◌, length, get_or};
ghost use Rattle.lists.specs.Calls.{TakesRow, LeavesRow};
ghost use Rattle.refusals.specs.declared.Reason.{Reason};
ghost use Rattle.refusals.specs.Reason.{code_of};
ghost use Rattle.block.specs.Block.{le8};
ghost use Rattle.engine.specs.Step.{by_party};
ghost use Rattle.engine.specs.Area.{to_others};
ghost use Rattle.rounds.specs.Area.{rows};
ghost use Rattle.rounds.specs.Mail as M;
ghost use Rattle.rounds.specs.FaultLaws.{Finds};

use engine::{Frame, Refusal, Verdict};
use refusals::Reason;

// Where the messages of a round lie in the incoming buffer: a start and a length for each party.
#[derive(Clone, Copy, Debug, PartialEq, Eq)]
pub struct Mail {
    pub starts: [usize; 8],
    pub lens: [usize; 8],
}

// The message of party k.
pub fn letter(incoming: &[u8], mail: Mail, k: usize) -> &[u8]
    requires { (k < 8) × (get_or mail.starts k 0 + get_or mail.lens k 0 ≤ length incoming.now) }
    ensures { result.now ≡ M.letter incoming.now mail k }
{
    message::part(incoming, mail.starts[k], mail.lens[k])
}

// The first other party that a check refuses.
pub fn by_party<F: Fn(usize) -> Result<(), Reason>>(f: Frame, check: F) -> Verdict
    requires { (k : ℕ) → k < f.n → f.i ≢ k → F.pre check k }
    ensures { (c : ℕ → ℕ) → ((k : ℕ) (r : Result ⊤ Reason) → k < f.n → f.i ≢ k → F.post check k r → code_of r ≡ c k) → Finds result (by_party f c) }
{
    for k in 0..f.n {
        if k != f.i {
            if let Err(reason) = check(k) {
                return Err(Refusal { reason, party: k });
            }
        }
    }
    Ok(())
}

// A message of `len` bytes to every other party.
pub fn to_others<F: Fn(&mut [u8], usize)>(out: &mut [u8], f: Frame, len: usize, put: F)
    requires out_len { (1 ≤ f.n) × (f.n ≤ 8) × (length out.old ≡ (f.n - 1) * len) }
    requires put_pre { (k : ℕ) → k < f.n → f.i ≢ k → TakesRow F.Fn put len k }
    ensures { (g : ℕ → List ℕ) → ((k : ℕ) → k < f.n → f.i ≢ k → LeavesRow F.Fn put len k (g k)) → out.new ≡ to_others f.n f.i g }
{
    for q in 0..f.n - 1 {
        let a = q * len;
        let e = a + len;
        put(&mut out[a..e], plan::other(f.i, q));
    }
}

// The same list to every other party, in a stretch of its own.
pub fn write_same(out: &mut [u8], count: usize, items: &[u8], n: usize)
    requires { (2 ≤ n) × (length out.old ≡ (n - 1) * (8 + length items.now)) }
    ensures { (i : ℕ) → out.new ≡ to_others n i (λ k. le8 count ++ items.now) }
{
    lists::write_rows(
        out,
        n - 1,
        8 + items.len(),
        |row, _q| encode::put_list(row, count, items),
    );
}

// A row of `len` bytes for each party, zeros for the own one.
pub fn put_rows<F: Fn(&mut [u8], usize)>(section: &mut [u8], f: Frame, len: usize, put: F)
    requires section_len { length section.old ≡ f.n * len }
    requires put_pre { (k : ℕ) → k < f.n → f.i ≢ k → TakesRow F.Fn put len k }
    ensures { (g : ℕ → List ℕ) → ((k : ℕ) → k < f.n → f.i ≢ k → LeavesRow F.Fn put len k (g k)) → section.new ≡ rows f len g }
{
    for k in 0..f.n {
        let a = k * len;
        let e = a + len;
        if k == f.i {
            section[a..e].fill(0);
        } else {
            put(&mut section[a..e], k);
        }
    }
}
