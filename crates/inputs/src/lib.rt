// What opening refuses (document 01, "Opening: 15, 16, 3 for l = 0, 6, 17, then lent bytes in order (1 before 4)"; document 02, order 5: 22
// between the two; order 7: 23 before 16): the lengths and the bytes of its inputs; what is refused of the counts is crate batches'. The
// definition stands in crates/rounds (Opening). Secret bytes decide nothing but a refusal: bit bytes, own entries and mask bytes (1, 4).
#![tactic(auto)]

ghost use Rattle.std.specs.Prelude.{◌≡◌, ◌+◌, ◌*◌, ◌≤◌, ◌<◌, length, get_or, leb};
ghost use Rattle.lists.specs.All.{all_of};
ghost use Rattle.lists.specs.Pick.{pick};
ghost use Rattle.refusals.specs.Reason.{number, code_of};
ghost use Rattle.rounds.specs.Area.{MASKS, size_of};
ghost use Rattle.rounds.specs.Opening.{lengths_fault};
ghost use Rattle.area.specs.Given.{Ranged};
ghost use Rattle.inputs.specs.Given.{Counted, lists?, buffers?, row?, masks?, bytes_of, found_at, Lists};

use engine::Frame;
use refusals::Reason;

// The lengths of what is lent.
#[derive(Clone, Copy, Debug, PartialEq, Eq)]
pub struct Lens {
    pub delta: usize,
    pub seed: usize,
    pub pairs: usize,
    pub bits: usize,
    pub alpha: usize,
    pub beta: usize,
    pub masks: usize,
    pub work: usize,
    pub out: usize,
}

// Refused for a reason where something isn't as it is due.
fn unless(due: bool, reason: Reason) -> Result<(), Reason>
    ensures { code_of result ≡ pick due 0 (number reason) }
{
    if due { Ok(()) } else { Err(reason) }
}

// Whether the share lists are as long as they should.
fn lists_due(f: Frame, bits: usize, alpha: usize, beta: usize) -> bool
    ensures { result ≡ lists? f bits alpha beta }
{
    let n = f.n;
    let l = f.l;
    let shares = plan::shares_len(n, l);
    (bits == plan::bits_len(n, l)) & (alpha == shares) & (beta == shares)
}

// Whether all else that is lent is.
fn buffers_due(f: Frame, v: Lens) -> bool
    ensures { result ≡ buffers? f v }
{
    let n = f.n;
    let l = f.l;
    (v.delta == 16)
        & (v.seed == 32)
        & (v.pairs == plan::pairs_len(n))
        & (v.masks == plan::masks_len(n, l))
        & (v.work == area::work_len(n, l))
        & (v.out == plan::out_len(n, l, 0))
}

// The first reason that the numbers and the lengths give, 15, that of the counts, 6, 17, by the lengths of the share lists and whether the
// rest is as long as it should. Where n or the counts are refused, the lengths due mean nothing.
pub fn check_lengths(
    f: Frame,
    counts: Result<(), Reason>,
    bits: usize,
    alpha: usize,
    beta: usize,
    rest: bool,
) -> Result<(), Reason>
    requires { Counted f (code_of counts) }
    ensures { code_of result ≡ lengths_fault f (code_of counts) bits alpha beta rest }
{
    let party = unless(plan::parties(f.n) & (f.i < f.n), Reason::PartyOutOfRange);
    let lists = unless(lists_due(f, bits, alpha, beta), Reason::InvalidLength);
    let buffers = unless(rest, Reason::WrongBuffer);
    party.and(counts.and(lists.and(buffers)))
}

// Whether the bytes of row k of the masks are 0 or 1, or the row is the own one. All are looked at.
fn row_good(masks: &[u8], f: Frame, k: usize) -> bool
    requires { (Ranged f) × (length masks.now ≡ size_of f MASKS) × (k < f.n) }
    ensures { result ≡ row? f masks.now k }
{
    if f.i == k {
        return true;
    }
    let count = plan::leaky(f.l);
    let at = k * count;
    lists::all_of(count, |t| masks[at + t] <= 1)
}

// Whether all mask bytes are, the own row left out.
fn masks_good(masks: &[u8], f: Frame) -> bool
    requires { (Ranged f) × (length masks.now ≡ size_of f MASKS) }
    ensures { result ≡ masks? f masks.now }
{
    lists::all_of(f.n, |k| row_good(masks, f, k))
}

// The first reason that the lent bytes give: bits, alpha, beta, then masks. All are looked at.
fn check_bytes(f: Frame, bits: &[u8], alpha: &[u8], beta: &[u8], masks: &[u8]) -> Result<(), Reason>
    requires { (Ranged f) × Lists f (length bits.now) (length alpha.now) (length beta.now)
        × (length masks.now ≡ size_of f MASKS) }
    ensures { code_of result ≡ bytes_of f bits.now alpha.now beta.now masks.now }
{
    let Frame { n, i, l } = f;
    let b = records::check_records(bits, n, i, plan::bits_count(l));
    let x = records::check_records(alpha, n, i, l);
    let y = records::check_records(beta, n, i, l);
    let m = unless(masks_good(masks, f), Reason::InvalidBitValue);
    b.and(x.and(y.and(m)))
}

// The first reason to refuse; counts: what is refused of the counts.
pub fn check(
    f: Frame,
    counts: Result<(), Reason>,
    v: Lens,
    bits: &[u8],
    alpha: &[u8],
    beta: &[u8],
    masks: &[u8],
) -> Result<(), Reason>
    requires counted { Counted f (code_of counts) }
    requires bits_value { (v.bits ≡ length bits.now) × (v.alpha ≡ length alpha.now) × (v.beta ≡ length beta.now)
        × (v.masks ≡ length masks.now) }
    ensures { code_of result ≡ found_at f (code_of counts) v bits.now alpha.now beta.now masks.now }
{
    check_lengths(f, counts, v.bits, v.alpha, v.beta, buffers_due(f, v))?;
    check_bytes(f, bits, alpha, beta, masks)
}
