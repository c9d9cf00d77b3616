// AES-128 of counters (FIPS 197): a number below 2^24 has three bytes that are not always zero. The first round puts each of them into one
// column, and the second adds up what the columns give, so after two rounds the State is the XOR of three parts, one for each byte: tables
// of 256 of them are made once for a key, and eight rounds of ten are left for each Block. Seed and counter are known to every box and may
// be indices (docs/SECURITY.md).
#![tactic(auto)]

ghost use Rattle.std.specs.Prelude.{◌≡◌, ◌<◌, ◌^◌, length};
ghost use Rattle.block.specs.Block.{bytes_of};
ghost use Rattle.fips197.specs.Key.{key_expansion};
ghost use Rattle.fips197.specs.Cipher as C;
ghost use Rattle.aes_key.specs.Words.{words_bytes};
ghost use Rattle.aes.specs.Columns.{state_of};
ghost use Rattle.aes_counter.specs.Starts.{pieces_of, rest_of, part_of, starts_of, begun};

use aes::Columns;
use aes_key::Key;
use aes_tables::Tables;
use block::Block;

// The words of the parts: two for each value of three bytes.
pub const PARTS: usize = 1536;

// A key, and the parts that counters begin with under it.
#[derive(Clone, Copy)]
pub struct Cipher {
    pub key: Key,
    pub parts: [u64; PARTS],
    pub ghost begun: { parts ≡ starts_of key.words },
}

// What the bytes of the column e add to columns of the next round.
fn pieces(t: &Tables, e: u32) -> Columns
    ensures { result ≡ pieces_of t.now.words e }
{
    Columns(
        t.words[(e % 256) as usize],
        t.words[256 + ((e >> 8) % 256) as usize],
        t.words[512 + ((e >> 16) % 256) as usize],
        t.words[768 + ((e >> 24) % 256) as usize],
    )
}

// What is the same for all counters: what column 1 adds, and the second round's key.
fn rest(key: &Key) -> Columns
    ensures { result ≡ rest_of key.now.tables.words key.now.words }
{
    let t = &key.tables;
    let w = &key.words;
    let q = pieces(t, aes::column(&t.words, w[1], w[2], w[3], w[0], w[5]));
    Columns(q.1 ^ w[8], q.0 ^ w[9], q.3 ^ w[10], q.2 ^ w[11])
}

// The part of byte p, where it is x.
fn part(key: &Key, z: Columns, p: usize, x: u32) -> Columns
    requires { (z ≡ rest_of key.now.tables.words key.now.words) × (x < 256) }
    ensures { result ≡ part_of key.now.tables.words key.now.words p x }
{
    let t = &key.tables;
    let w = &key.words;
    match p {
        0 => {
            let q = pieces(t, aes::column(&t.words, x ^ w[0], w[1], w[2], w[3], w[4]));
            Columns(q.0 ^ z.0, q.3 ^ z.1, q.2 ^ z.2, q.1 ^ z.3)
        }
        1 => {
            let q = pieces(
                t,
                aes::column(&t.words, w[3], (x * 0x100) ^ w[0], w[1], w[2], w[7]),
            );
            Columns(q.3, q.2, q.1, q.0)
        }
        _ => {
            let q = pieces(
                t,
                aes::column(&t.words, w[2], w[3], (x * 0x1_0000) ^ w[0], w[1], w[6]),
            );
            Columns(q.2, q.1, q.0, q.3)
        }
    }
}

// The parts, two words each: 256 for the lowest byte, then for the next, then for the third.
#[inline(never)]
pub fn starts(key: &Key) -> [u64; PARTS]
    ensures { result ≡ starts_of key.now.words }
{
    let z = rest(key);
    let mut out = [0u64; PARTS];
    for i in 0..768 {
        let b = Block::from(part(key, z, i / 256, (i % 256) as u32));
        out[i * 2] = b.0;
        out[i * 2 + 1] = b.1;
    }
    out
}

impl Cipher {
    // Under the key `seed`.
    #[inline(never)]
    pub fn new(seed: &[u8]) -> Cipher
        requires { length seed.now ≡ 16 }
        ensures { words_bytes 44 result.key.words ≡ key_expansion seed.now }
    {
        let key = Key::expand(seed);
        let parts = starts(&key);
        Cipher { key, parts }
    }

    // The State of c after two rounds.
    fn start(&self, c: u64) -> Columns
        requires { c < 2 ^ 24 }
        ensures { state_of result ≡ begun self.now.key.words c }
    {
        let a = (c % 256) as usize * 2;
        let b = 512 + (c / 0x100 % 256) as usize * 2;
        let d = 1024 + (c / 0x1_0000) as usize * 2;
        let parts = &self.parts;
        Columns::from(Block(
            parts[a] ^ parts[b] ^ parts[d],
            parts[a + 1] ^ parts[b + 1] ^ parts[d + 1],
        ))
    }

    // AES-128 of c and of d, a round of one and a round of the other in turn: each waits for its tables while the other goes on. The
    // rounds are written out: in a loop they are slower.
    pub fn encrypt_two(&self, c: u64, d: u64) -> (Block, Block)
        requires { (c < 2 ^ 24) × (d < 2 ^ 24) }
        ensures result_value { bytes_of result.0 ≡ C.cipher (words_bytes 44 self.now.key.words) (bytes_of (record { 0 = c; 1 = 0 })) }
        ensures result_value_2 { bytes_of result.1 ≡ C.cipher (words_bytes 44 self.now.key.words) (bytes_of (record { 0 = d; 1 = 0 })) }
    {
        let k = &self.key;
        let s = self.start(c);
        let r = self.start(d);
        let s3 = aes::round(k, 3, s);
        let r3 = aes::round(k, 3, r);
        let s4 = aes::round(k, 4, s3);
        let r4 = aes::round(k, 4, r3);
        let s5 = aes::round(k, 5, s4);
        let r5 = aes::round(k, 5, r4);
        let s6 = aes::round(k, 6, s5);
        let r6 = aes::round(k, 6, r5);
        let s7 = aes::round(k, 7, s6);
        let r7 = aes::round(k, 7, r6);
        let s8 = aes::round(k, 8, s7);
        let r8 = aes::round(k, 8, r7);
        let s9 = aes::round(k, 9, s8);
        let r9 = aes::round(k, 9, r8);
        (
            Block::from(aes::last_round(k, s9)),
            Block::from(aes::last_round(k, r9)),
        )
    }
}
