// KeyExpansion of AES-128 (FIPS 197, 5.2): the 44 words of a key. The definition is crate fips197's, specs/Key.antt. The key is a seed that
// all boxes share and may be an index.
#![tactic(auto)]

ghost use Rattle.std.specs.Prelude.{◌≡◌, ◌+◌, ◌-◌, ◌/◌, ◌%◌, ◌<◌, ◌≤◌, length};
ghost use Rattle.fips197.specs.Key.{power, key_expansion};
ghost use Rattle.aes_key.specs.Words.{words_bytes, sub_rot_of, next_of, word_at};

use aes_tables::Tables;

// The words of an expanded key.
pub const WORDS: usize = 44;

// A key's words, and the tables that they are used with.
#[derive(Clone, Copy)]
pub struct Key {
    pub tables: Tables,
    pub words: [u32; WORDS],
}

// The round constants' first bytes: x^0 to x^9.
const RCON: [u32; 10] = [1, 2, 4, 8, 16, 32, 64, 128, 0x1b, 0x36];

// Rcon[j] as a column.
fn round_constant(j: usize) -> u32
    requires { (1 ≤ j) × (j ≤ 10) }
    ensures { result ≡ power (j - 1) }
{
    RCON[j - 1]
}

// SubWord(RotWord(w)).
fn sub_rot(t: &Tables, w: u32) -> u32
    ensures { result ≡ sub_rot_of w }
{
    let b = w.to_le_bytes();
    u32::from_le_bytes([t.sub(b[1]), t.sub(b[2]), t.sub(b[3]), t.sub(b[0])])
}

// w[i], of those before it.
fn next_word(t: &Tables, w: &[u32; WORDS], i: usize) -> u32
    requires { (4 ≤ i) × (i < 44) }
    ensures { result ≡ next_of w.now i }
{
    let temp = w[i - 1];
    if i % 4 == 0 {
        w[i - 4] ^ (sub_rot(t, temp) ^ round_constant(i / 4))
    } else {
        w[i - 4] ^ temp
    }
}

// The four bytes at `at`.
fn load(s: &[u8], at: usize) -> u32
    requires { at + 4 ≤ length s.now }
    ensures { result ≡ word_at s.now at }
{
    u32::from_le_bytes([s[at], s[at + 1], s[at + 2], s[at + 3]])
}

impl Key {
    // The words of a key: its own four, and 40 more.
    #[inline(never)]
    pub fn expand(key: &[u8]) -> Key
        requires { length key.now ≡ 16 }
        ensures { words_bytes 44 result.words ≡ key_expansion key.now }
    {
        let tables = Tables::new();
        let mut words = [0u32; WORDS];
        for i in 0..4 {
            words[i] = load(key, i * 4);
        }
        for i in 4..WORDS {
            words[i] = next_word(&tables, &words, i);
        }
        Key { tables, words }
    }
}
