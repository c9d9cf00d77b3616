// Several batches in one session (document 02, order 7): the sum of a list of counts and what opening refuses of it, the counts as a
// session keeps them, and what is answered of them. Nothing here is secret; every count is taken as it comes, and no sum wraps.
#![tactic(auto)]

ghost use Rattle.batches.specs.Batches as Batches;
ghost use Rattle.std.specs.Prelude.{◌≡◌, ◌<◌, ◌≤◌, length, eqb};
ghost use Rattle.lists.specs.Pick.{pick};
ghost use Rattle.refusals.specs.Reason.{code_of};
ghost use Rattle.batches.specs.Batches.{total, sum_of, filled, counts_fault, tally, joined, whole, told};

use refusals::Reason;

// Batches of a session at the most.
pub const MOST: usize = 16;

// The numbers that are told of them: a position and a count each.
pub const TOLD: usize = 32;

// The counts of a session, and what is told of them.
pub type Counts = [u32; MOST];

pub type Pairs = [u32; TOLD];

// The sum of the counts, 0 where there are more than 16.
pub fn sum(counts: &[u32]) -> usize
    ensures { result ≡ sum_of counts.now }
{
    if counts.len() > MOST {
        return 0;
    }
    let mut l = 0;
    for count in counts {
        l += *count as usize;
    }
    l
}

// Whether no batch is of 0.
fn all_filled(counts: &[u32]) -> bool
    ensures { result ≡ filled counts.now }
{
    lists::all_of(counts.len(), |j| counts[j] != 0)
}

// What opening refuses of the counts: 23, 16 or 3.
pub fn fault(counts: &[u32]) -> Result<(), Reason>
    ensures { code_of result ≡ counts_fault counts.now }
{
    let m = counts.len();
    if !((1 <= m) & (m <= MOST)) {
        return Err(Reason::WrongBatches);
    }
    if !(sum(counts) <= 300000) {
        return Err(Reason::TooMany);
    }
    if !all_filled(counts) {
        return Err(Reason::EmptyVector);
    }
    Ok(())
}

// The counts as a session keeps them.
pub fn kept(counts: &[u32]) -> Counts
    requires { length counts.now ≤ Batches.MOST }
    ensures { result ≡ tally counts.now }
{
    let mut all: Counts = [0; MOST];
    all[..counts.len()].copy_from_slice(counts);
    all
}

// Whether no batch stands behind an unused one.
fn all_joined(counts: Counts) -> bool
    ensures { result ≡ joined counts }
{
    lists::all_of(MOST - 1, |j| (counts[j] != 0) | (counts[j + 1] == 0))
}

// Whether a session with l can have the counts.
pub fn are_whole(l: usize, counts: Counts) -> bool
    ensures { result ≡ whole l counts }
{
    (sum(&counts) == l) & all_joined(counts)
}

// A batch's position, 0 where there is none.
fn place(at: u32, count: u32) -> u32
    ensures { result ≡ pick (eqb count 0) 0 at }
{
    if count == 0 { 0 } else { at }
}

// Where each batch lies among the results: 16 pairs of position and count.
pub fn pairs(counts: Counts) -> Pairs
    requires { total counts < 0x1_0000_0000 }
    ensures { result ≡ told counts }
{
    let mut all: Pairs = [0; TOLD];
    let mut at = 0;
    for (j, count) in counts.iter().enumerate() {
        all[2 * j] = place(at, *count);
        all[2 * j + 1] = *count;
        at += *count;
    }
    all
}
