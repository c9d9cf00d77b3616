// AES-128's cipher (FIPS 197, 5.1) by tables: a round is 16 reads of crate aes_tables' words and 16 XORs, the State four columns in
// registers. The definition is crate fips197's, specs/Cipher.antt. Bytes of the State are indices: what is drawn from a seed is known to
// every box, and so is the seed (docs/SECURITY.md); nothing secret may be enciphered by this.
#![tactic(auto)]

ghost use Rattle.std.specs.Prelude.{◌≡◌, ◌≤◌};
ghost use Rattle.block.specs.Block.{bytes_of};
ghost use Rattle.fips197.specs.Cipher as C;
ghost use Rattle.aes_key.specs.Words.{words_bytes};
ghost use Rattle.aes.specs.Columns.{block_of, columns_of, column_of, last_of, state_of};

use aes_key::Key;
use aes_tables::{ENTRIES, Tables};
use block::Block;

// The State: four columns, the first byte of each lowest.
#[derive(Clone, Copy)]
pub struct Columns(pub u32, pub u32, pub u32, pub u32);

// A Block as the State.
impl From<Block> for Columns {
    ghost from_gives = { λ x s. s ≡ columns_of x };

    fn from(x: Block) -> Columns {
        Columns(
            (x.0 % 0x1_0000_0000) as u32,
            (x.0 >> 32) as u32,
            (x.1 % 0x1_0000_0000) as u32,
            (x.1 >> 32) as u32,
        )
    }
}

// And back.
impl From<Columns> for Block {
    ghost from_gives = { λ s x. x ≡ block_of s };

    fn from(s: Columns) -> Block {
        Block(
            s.1 as u64 * 0x1_0000_0000 + s.0 as u64,
            s.3 as u64 * 0x1_0000_0000 + s.2 as u64,
        )
    }
}

// A column after SubBytes, ShiftRows, MixColumns and AddRoundKey: its bytes come from the columns a, b, c and d, one of each, and k is
// the key's word.
pub fn column(t: &[u32; ENTRIES], a: u32, b: u32, c: u32, d: u32, k: u32) -> u32
    ensures { result ≡ column_of t.now a b c d k }
{
    t[(a % 256) as usize]
        ^ t[256 + ((b >> 8) % 256) as usize]
        ^ t[512 + ((c >> 16) % 256) as usize]
        ^ t[768 + ((d >> 24) % 256) as usize]
        ^ k
}

// A column of the last round, which has no MixColumns.
fn last_column(t: &Tables, a: u32, b: u32, c: u32, d: u32, k: u32) -> u32
    ensures { result ≡ last_of a b c d k }
{
    u32::from_le_bytes([
        t.sub((a % 256) as u8),
        t.sub(((b >> 8) % 256) as u8),
        t.sub(((c >> 16) % 256) as u8),
        t.sub(((d >> 24) % 256) as u8),
    ]) ^ k
}

// Round k of those that are alike.
pub fn round(key: &Key, k: usize, s: Columns) -> Columns
    requires { k ≤ 10 }
    ensures { state_of result ≡ C.add_round_key (words_bytes 44 key.now.words) k (C.mix_columns (C.shift_rows (C.sub_bytes (state_of s)))) }
{
    let t = &key.tables.words;
    let w = &key.words;
    let i = k * 4;
    Columns(
        column(t, s.0, s.1, s.2, s.3, w[i]),
        column(t, s.1, s.2, s.3, s.0, w[i + 1]),
        column(t, s.2, s.3, s.0, s.1, w[i + 2]),
        column(t, s.3, s.0, s.1, s.2, w[i + 3]),
    )
}

// The last round.
pub fn last_round(key: &Key, s: Columns) -> Columns
    ensures { state_of result ≡ C.add_round_key (words_bytes 44 key.now.words) 10 (C.shift_rows (C.sub_bytes (state_of s))) }
{
    let t = &key.tables;
    let w = &key.words;
    Columns(
        last_column(t, s.0, s.1, s.2, s.3, w[40]),
        last_column(t, s.1, s.2, s.3, s.0, w[41]),
        last_column(t, s.2, s.3, s.0, s.1, w[42]),
        last_column(t, s.3, s.0, s.1, s.2, w[43]),
    )
}

// The first AddRoundKey, and the nine rounds that are alike.
fn rounds(key: &Key, x: Block) -> Columns
    ensures { state_of result ≡ C.rounds (words_bytes 44 key.now.words) 9 (bytes_of x) }
{
    let w = &key.words;
    let b = Columns::from(x);
    let mut s = Columns(b.0 ^ w[0], b.1 ^ w[1], b.2 ^ w[2], b.3 ^ w[3]);
    for k in 1..10 {
        s = round(key, k, s);
    }
    s
}

// The Block x under a key whose words are w.
pub fn encrypt(key: &Key, x: Block) -> Block
    ensures { bytes_of result ≡ C.cipher (words_bytes 44 key.now.words) (bytes_of x) }
{
    Block::from(last_round(key, rounds(key, x)))
}
