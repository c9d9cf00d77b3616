// ChaCha20's block function, from RFC 8439, 2.1 to 2.3, with its names.
//
// Speed: `columns` and `diagonals`, each half of `inner_block`, are small enough to be inlined where they are called, and the state then
// stays in registers.
#![tactic(auto)]

ghost use Rattle.std.specs.Prelude.{◌≡◌, ◌<◌, length};
ghost use Rattle.word.specs.Word.{word_list};
ghost use Rattle.chacha20.specs.ChaCha20 as C;

// The words of a block, and the bytes of a key, a nonce and a block.
pub const BLOCK_WORDS: usize = 16;

pub const KEY_LEN: usize = 32;

pub const NONCE_LEN: usize = 12;

pub const BLOCK_LEN: usize = 64;

const CONSTANTS: [u32; 4] = [0x61707865, 0x3320646e, 0x79622d32, 0x6b206574];

// How often `inner_block` is done.
const DOUBLE_ROUNDS: usize = 10;

// QUARTERROUND at the places x, y, z, w of the state.
pub fn qround(v: &mut [u32; 16], x: usize, y: usize, z: usize, w: usize)
    requires x_bound { x < 16 }
    requires y_bound { y < 16 }
    requires z_bound { z < 16 }
    requires w_bound { w < 16 }
    ensures { v.new ≡ C.qround x y z w v.old }
{
    let mut a = v[x];
    let mut b = v[y];
    let mut c = v[z];
    let mut d = v[w];
    a = a.wrapping_add(b);
    d = (d ^ a).rotate_left(16);
    c = c.wrapping_add(d);
    b = (b ^ c).rotate_left(12);
    a = a.wrapping_add(b);
    d = (d ^ a).rotate_left(8);
    c = c.wrapping_add(d);
    b = (b ^ c).rotate_left(7);
    v[x] = a;
    v[y] = b;
    v[z] = c;
    v[w] = d;
}

// The first half of `inner_block`.
pub fn columns(v: &mut [u32; 16])
    ensures { v.new ≡ C.columns v.old }
{
    qround(v, 0, 4, 8, 12);
    qround(v, 1, 5, 9, 13);
    qround(v, 2, 6, 10, 14);
    qround(v, 3, 7, 11, 15);
}

// The second half.
pub fn diagonals(v: &mut [u32; 16])
    ensures { v.new ≡ C.diagonals v.old }
{
    qround(v, 0, 5, 10, 15);
    qround(v, 1, 6, 11, 12);
    qround(v, 2, 7, 8, 13);
    qround(v, 3, 4, 9, 14);
}

// The state: constants | key | counter | nonce.
pub fn state(key: &[u32; 8], counter: u32, nonce: &[u32; 3]) -> [u32; 16]
    ensures { result ≡ C.state key.now counter nonce.now }
{
    let c = CONSTANTS;
    [
        c[0], c[1], c[2], c[3], key[0], key[1], key[2], key[3], key[4], key[5], key[6], key[7],
        counter, nonce[0], nonce[1], nonce[2],
    ]
}

// The state plus the initial one, word by word.
pub fn sums(v: &[u32; 16], s: &[u32; 16]) -> [u32; 16]
    ensures { result ≡ C.sums v.now s.now }
{
    std::array::from_fn(|i| v[i].wrapping_add(s[i]))
}

// The words of a block.
pub fn words(key: &[u32; 8], counter: u32, nonce: &[u32; 3]) -> [u32; 16]
    ensures { result ≡ C.words key.now counter nonce.now }
{
    let s = state(key, counter, nonce);
    let mut v = s;
    for _round in 0..DOUBLE_ROUNDS {
        columns(&mut v);
        diagonals(&mut v);
    }
    sums(&v, &s)
}

// The words of a key.
pub fn key_words(key: &[u8]) -> [u32; 8]
    requires { length key.now ≡ 32 }
    ensures { result ≡ word_list 8 key.now }
{
    word::words(key)
}

// The words of a nonce.
pub fn nonce_words(nonce: &[u8]) -> [u32; 3]
    requires { length nonce.now ≡ 12 }
    ensures { result ≡ word_list 3 nonce.now }
{
    word::words(nonce)
}

// The words one after another, low byte first.
fn serialize(out: &mut [u8], v: &[u32; 16])
    requires { length out.old ≡ 64 }
    ensures { out.new ≡ C.serialize v.now }
{
    for (i, x) in v.iter().enumerate() {
        let a = i * word::BYTES;
        word::store(&mut out[a..a + word::BYTES], *x);
    }
}

// The block function.
pub fn block(out: &mut [u8], key: &[u8], counter: u32, nonce: &[u8])
    requires out_len { length out.old ≡ 64 }
    requires key_len { length key.now ≡ 32 }
    requires nonce_len { length nonce.now ≡ 12 }
    ensures { out.new ≡ C.block key.now counter nonce.now }
{
    let k = key_words(key);
    let n = nonce_words(nonce);
    let v = words(&k, counter, &n);
    serialize(out, &v);
}

// For C: a block.
#[unsafe(no_mangle)]
pub extern "C" fn nuz_chacha20_block(
    out: &mut [u8; BLOCK_LEN],
    key: &[u8; KEY_LEN],
    counter: u32,
    nonce: &[u8; NONCE_LEN],
)
    ensures { out.new ≡ C.block key.now counter nonce.now }
{
    block(out, key, counter, nonce);
}
