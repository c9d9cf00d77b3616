// Round 6, `fabitn` (document 01, "What each round means"; `fabitn` of src/mpc/faand.rs): 120 random strings check the MACs of all bits.
// Here the sums are sent and the key sums kept; crate fabitn_recv judges what is received. The definitions are those of crate rounds,
// specs/Fabitn.antt; the sums are made by crate rsums, all in one pass. Bits, MACs and keys are secret, and decide no branch and no index.
#![tactic(auto)]

ghost use Rattle.std.specs.Prelude.{◌≡◌, true, ◌≢◌, ◌+◌, ◌-◌, ◌*◌, ◌<◌, ◌≤◌, length, get_or};
ghost use Rattle.lists.specs.Over.{cat};
ghost use Rattle.lists.specs.Sect.{put};
ghost use Rattle.algebra.specs.Group.{odd};
ghost use Rattle.block.specs.Block.{bytes_of};
ghost use Rattle.rbits.specs.Chosen.{pair_at};
ghost use Rattle.encode.specs.Encode.{encode, bit_block};
ghost use Rattle.plan.specs.Plan.{FABITN, msg_len};
ghost use Rattle.engine.specs.Area.{off, to_others};
ghost use Rattle.rounds.specs.Area.{BITS, KEY_SUMS, size_of, at, keep, rows};
ghost use Rattle.rounds.specs.Loops.{row_of};
ghost use Rattle.rounds.specs.Fabitn as Fabitn;
ghost use Rattle.rounds.specs.Fabitn.{r_fits};
ghost use Rattle.area.specs.Given.{Work};
ghost use Rattle.fabitn.specs.Rows.{place_of, held_row};

use block::Block;
use engine::Frame;
use rsums::WORDS;

// The strings, each of which chooses some of the bits.
pub const STRINGS: usize = 120;

// An item of a message: a bit and a Block.
pub const ITEM: usize = 17;

// A message: a count, and an item for each string.
const MSG: usize = 8 + STRINGS * ITEM;

// A row of key sums: a Block for each string.
const ROW: usize = STRINGS * 16;

// ---- messages

// A message: for each string a bit, and its Block, of those from `base` on.
fn write_items(out: &mut [u8], bits: &[u8], macs: &[u64; WORDS], base: usize)
    requires out_len { (length out.old ≡ Fabitn.MSG) × (length bits.now ≡ Fabitn.STRINGS) }
    requires base_bound { base + Fabitn.STRINGS ≤ 7 * Fabitn.STRINGS }
    ensures { out.new ≡ encode Fabitn.STRINGS
        (λ j. bit_block (odd (get_or bits.now j 0)) (pair_at macs.now (base + j))) }
{
    encode::put_count(&mut out[0..8], STRINGS);
    for j in 0..STRINGS {
        let a = 8 + j * ITEM;
        let e = a + ITEM;
        let low = (base + j) * 2;
        let high = low + 1;
        encode::put_bit_block(
            &mut out[a..e],
            block::bit(bits, j),
            Block(macs[low], macs[high]),
        );
    }
}

// To every other party its message: the bits' sums, and the sums of the MACs for it.
fn write(out: &mut [u8], bits: &[u8], macs: &[u64; WORDS], n: usize)
    requires le_n { (2 ≤ n) × (n ≤ 8) × (length bits.now ≡ Fabitn.STRINGS) }
    requires out_len { length out.old ≡ (n - 1) * Fabitn.MSG }
    ensures { out.new ≡ cat (n - 1) (λ q. encode Fabitn.STRINGS
        (λ j. bit_block (odd (get_or bits.now j 0)) (pair_at macs.now (q * Fabitn.STRINGS + j)))) }
{
    let last = n - 1;
    for q in 0..last {
        let a = q * MSG;
        let e = a + MSG;
        write_items(&mut out[a..e], bits, macs, q * STRINGS);
    }
}

// ---- key sums

// A Block of two words for each string, of those from `base` on, as bytes.
fn write_blocks(out: &mut [u8], words: &[u64; WORDS], base: usize)
    requires out_len { length out.old ≡ Fabitn.ROW }
    requires base_bound { base + Fabitn.STRINGS ≤ 7 * Fabitn.STRINGS }
    ensures { out.new ≡ cat Fabitn.STRINGS (λ j. bytes_of (pair_at words.now (base + j))) }
{
    for j in 0..STRINGS {
        let a = j * 16;
        let e = a + 16;
        let low = (base + j) * 2;
        let high = low + 1;
        block::store(&mut out[a..e], Block(words[low], words[high]));
    }
}

// Which of the others party k is.
fn place(i: usize, k: usize) -> usize
    requires { i ≢ k }
    ensures { result ≡ place_of i k }
{
    if k < i { k } else { k - 1 }
}

// Keeps the key sums of party k as row k; zeros for the own number.
fn hold_row(work: &mut [u8], keys: &[u64; WORDS], f: Frame, k: usize)
    requires work { Work f work.old }
    requires k_lt_n { k < f.n }
    ensures { work.new ≡ put (off (size_of f) KEY_SUMS + k * Fabitn.ROW) Fabitn.ROW
        (row_of f.i Fabitn.ROW (held_row f.i keys.now) k) work.old }
{
    let i = f.i;
    let a = area::section_at(f, area::KEY_SUMS) + k * ROW;
    let e = a + ROW;
    if i == k {
        fill::clear(&mut work[a..e]);
    } else {
        write_blocks(&mut work[a..e], keys, place(i, k) * STRINGS);
    }
}

// Keeps the key sums of all others in the work area, so that r is needed in one call alone.
fn hold(work: &mut [u8], keys: &[u64; WORDS], f: Frame)
    requires { Work f work.old }
    ensures { work.new ≡ keep f KEY_SUMS (rows f Fabitn.ROW (held_row f.i keys.now)) work.old }
{
    let n = f.n;
    for k in 0..n {
        hold_row(work, keys, f, k);
    }
}

// ---- the round

// "Send the chosen bits' XOR and, to k, the XOR of the chosen MACs for k": to every other party; and the sums of its keys are kept.
// r is looked at once for both.
pub fn make(work: &mut [u8], out: &mut [u8], r: &[u8], f: Frame)
    requires work { Work f work.old }
    requires r_value { r_fits f.l (length r.now) ≡ true }
    requires out_len { length out.old ≡ (f.n - 1) * msg_len f.n f.l FABITN }
    ensures work_after { work.new ≡ keep f KEY_SUMS
        (Fabitn.key_sums f r.now (at f BITS work.old)) work.old }
    ensures out_after { out.new ≡ to_others f.n f.i
        (Fabitn.abit_msg f r.now (at f BITS work.old)) }
{
    let n = f.n;
    let l = f.l;
    let s = rsums::sums(
        area::section(work, f, area::BITS),
        n,
        f.i,
        plan::bits_count(l),
        r,
        plan::r_blocks(l),
    );
    hold(work, &s.keys, f);
    write(out, &s.bits, &s.macs, n);
}
