// Words of 32 bits: their sum modulo 2^32, and their bytes, the lowest first.
#![tactic(auto)]

ghost use Rattle.std.specs.Prelude.{◌≡◌, ◌+◌, ◌*◌, ◌<◌, ◌≤◌, length};
ghost use Rattle.word.specs.Word.{plus, word_at, word_list, le4};

// The bytes of a word.
pub const BYTES: usize = 4;

pub fn add(x: u32, y: u32) -> u32
    ensures { result ≡ plus x y }
{
    x.wrapping_add(y)
}

// The word that starts at `at`.
#[tactic(auto, using(crate::specs::WordLaws::std_word))]
pub fn load(s: &[u8], at: usize) -> u32
    requires { at + 3 < length s.now }
    ensures { result ≡ word_at at s.now }
{
    u32::from_le_bytes([s[at], s[at + 1], s[at + 2], s[at + 3]])
}

// The first N words.
pub fn words<const N: usize>(s: &[u8]) -> [u32; N]
    requires { N * 4 ≤ length s.now }
    ensures { result ≡ word_list N s.now }
{
    std::array::from_fn(|k| load(s, k * BYTES))
}

// Writes the four bytes of v.
#[tactic(auto, using(crate::specs::WordLaws::std_le4))]
pub fn store(out: &mut [u8], v: u32)
    requires { length out.old ≡ 4 }
    ensures { out.new ≡ le4 v }
{
    *out.as_mut_array().unwrap() = v.to_le_bytes();
}
