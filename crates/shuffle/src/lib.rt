// The permutation from the joint seed (document 02, order 6), drawn where it is kept: numbers of four bytes, low byte first. From it rounds
// 21 and 22 take their buckets. All boxes know the joint seed from round 3 on, so its words may be branched on and used as indices.
//
// A word costs one division: with r = w mod m the m numbers from w − r on all lie below 2^32, or w is to be passed over.
#![tactic(auto)]

ghost use Rattle.std.specs.Prelude.{◌≡◌, List, ℕ, ◌+◌, ◌*◌, ◌%◌, ◌^◌, ◌<◌, ◌≤◌, length, get_or, ltb};
ghost use Rattle.lists.specs.Over.{tab};
ghost use Rattle.word.specs.Word.{word_list, le4s};
ghost use Rattle.shuffle.specs.Shuffle as S;
ghost use Rattle.shuffle.specs.Turns as T;

use chacha20::KEY_LEN;
use chacha20_lanes::LANES;
use word::BYTES;

// How many words may be passed over at one index.
const PASSED: usize = 64;

// How many words of 32 bits there are.
const WORDS: usize = 0x1_0000_0000;

// Where the shuffle stands: the index, and how many words may still be passed over at it.
#[derive(Clone, Copy)]
struct Turn {
    t: usize,
    left: usize,
}

// "Start with 0 to l·b − 1 in order."
fn start(section: &mut [u8], n: usize)
    requires { (length section.old ≡ n * 4) × (n ≤ T.MOST) }
    ensures { section.new ≡ le4s n (tab n (λ k. k)) }
{
    for t in 0..n {
        let a = t * BYTES;
        word::store(&mut section[a..a + BYTES], t as u32);
    }
}

// "swap entries t and" j
fn swap(section: &mut [u8], t: usize, j: usize)
    requires { (t * 4 + 4 ≤ length section.old) × (j * 4 + 4 ≤ length section.old) }
    ensures { (n : ℕ) (p : List ℕ) → T.Kept n p section.old → T.Kept n (S.swap t j p) section.new }
{
    let a = t * BYTES;
    let b = j * BYTES;
    let x = word::load(section, a);
    let y = word::load(section, b);
    word::store(&mut section[a..a + BYTES], y);
    word::store(&mut section[b..b + BYTES], x);
}

// Whether w is below the largest multiple of m not above 2^32, where r is w mod m.
fn fits(w: usize, r: usize, m: usize) -> bool
    requires { (r ≡ w % m) × (1 ≤ m) × (m ≤ 2 ^ 32) × (w < 2 ^ 32) }
    ensures { result ≡ ltb w (S.multiple m) }
{
    w - r + m <= WORDS
}

// Word v is taken: it is used, or passed over.
fn step(section: &mut [u8], v: u32, s: Turn) -> Turn
    requires { (1 ≤ s.t) × (s.t ≤ T.MOST) × (s.t * 4 + 4 ≤ length section.old) × (s.left ≤ 64) }
    ensures less { T.Less s result }
    ensures by_index { (w : ℕ → ℕ) (c : ℕ) → w c ≡ v → T.Goes w 1 c s result section.old section.new }
{
    let Turn { t, left } = s;
    let w = v as usize;
    let m = t + 1;
    let r = w % m;
    if fits(w, r, m) | (left == 0) {
        swap(section, t, r);
        Turn {
            t: t - 1,
            left: PASSED,
        }
    } else {
        Turn { t, left: left - 1 }
    }
}

// The words of a block are taken, until the last index is passed.
fn block(section: &mut [u8], words: [u32; 16], s: Turn) -> Turn
    requires { (s.t ≤ T.MOST) × (s.t * 4 + 4 ≤ length section.old) × (s.left ≤ 64) }
    ensures less_by { T.LessBy 16 s result }
    ensures by_index { (w : ℕ → ℕ) (c : ℕ) → ((k : ℕ) → k < 16 → w (c + k) ≡ get_or words k 0) → T.Goes w 16 c s result section.old section.new }
{
    let mut at = s;
    for v in words {
        if at.t == 0 {
            return at;
        }
        at = step(section, v, at);
    }
    at
}

// The words of four blocks are taken.
fn window(section: &mut [u8], key: &[u32; 8], counter: u32, s: Turn) -> Turn
    requires { (counter + 4 ≤ 2 ^ 32) × (s.t ≤ T.MOST) × (s.t * 4 + 4 ≤ length section.old) × (s.left ≤ 64) }
    ensures less_by { T.LessBy 64 s result }
    ensures by_index { (k : List ℕ) → key.now ≡ word_list 8 k → T.Goes (S.key_word k) 64 (counter * 16) s result section.old section.new }
{
    let mut at = s;
    for lane in chacha20_lanes::four(key, counter) {
        at = block(section, lane.0, at);
    }
    at
}

// The permutation of 0 to n − 1, from the words of the key. Four blocks at a time.
pub fn draw(section: &mut [u8], key: &[u32; 8], n: usize)
    requires { (length section.old ≡ n * 4) × (1 ≤ n) × (n ≤ T.MOST) }
    ensures { (k : List ℕ) → key.now ≡ word_list 8 k → section.new ≡ le4s n (S.permutation k n) }
{
    start(section, n);
    let mut at = Turn {
        t: n - 1,
        left: PASSED,
    };
    let mut counter: u32 = 0;
    while 0 < at.t {
        at = window(section, key, counter, at);
        counter += LANES as u32;
    }
}

// The leaky ANDs of the longest session with buckets of three, and the bytes of their numbers.
const MEASURED: usize = 900_000;

const MEASURED_LEN: usize = MEASURED * BYTES;

// For C, to be measured: the permutation of a session of 300,000.
#[unsafe(no_mangle)]
pub extern "C" fn nuz_draw(section: &mut [u8; MEASURED_LEN], key: &[u8; KEY_LEN])
    ensures { section.new ≡ le4s 900000 (S.permutation key.now 900000) }
{
    let words = chacha20::key_words(key);
    draw(section, &words, MEASURED);
}
