// Messages written: the items of bincode legacy lists (document 01, "Messages"), each onto an exact part of the outgoing buffer, which the
// caller lends as `&mut out[a..e]`. Reading what was written gives back the value: specs/Kinds.antt, specs/Fields.antt. A loop that writes
// a count and then item after item leaves the list: specs/Stretch.antt. From src/utils/serde.rs of polytune.
#![tactic(auto)]

ghost use Rattle.std.specs.Prelude.{◌≡◌, ◌++◌, ℕ, ◌+◌, ◌*◌, ◌<◌, length};
ghost use Rattle.block.specs.Block.{le8, bytes_of};
ghost use Rattle.encode.specs.Encode as E;
ghost use Rattle.encode.specs.Bucket as B;

use block::Block;

// The count of a list.
pub fn put_count(out: &mut [u8], count: usize)
    requires { length out.old ≡ 8 }
    ensures { out.new ≡ le8 count }
{
    block::store64(out, count as u64);
}

// A list of `count` items, of which the bytes are lent.
pub fn put_list(out: &mut [u8], count: usize, items: &[u8])
    requires { length out.old ≡ 8 + length items.now }
    ensures { out.new ≡ le8 count ++ items.now }
{
    put_count(&mut out[0..8], count);
    fill::copy(&mut out[8..], items);
}

// A list of bytes: `RNG ver`, or a dm of `fashare ver`.
pub fn put_bytes(out: &mut [u8], s: &[u8])
    requires { length out.old ≡ 8 + length s.now }
    ensures { out.new ≡ E.dm_item s.now }
{
    put_list(out, s.len(), s);
}

// (bit, MAC) of `fabitn`, (e, u) of `flaand`.
pub fn put_bit_block(out: &mut [u8], b: bool, x: Block)
    requires { length out.old ≡ 17 }
    ensures { out.new ≡ E.bit_block b x }
{
    out[0] = block::bit_byte(b);
    block::store(&mut out[1..17], x);
}

// (h0, h1) of `haand`.
pub fn put_two_bits(out: &mut [u8], a: bool, b: bool)
    requires { length out.old ≡ 2 }
    ensures { out.new ≡ E.two_bits a b }
{
    out[0] = block::bit_byte(a);
    out[1] = block::bit_byte(b);
}

// (d, e, MAC of d, MAC of e) of `faand`.
pub fn put_bits_blocks(out: &mut [u8], d: bool, e: bool, x: Block, y: Block)
    requires { length out.old ≡ 34 }
    ensures { out.new ≡ E.two_bits_two_blocks d e x y }
{
    out[0] = block::bit_byte(d);
    out[1] = block::bit_byte(e);
    block::store(&mut out[2..18], x);
    block::store(&mut out[18..34], y);
}

// The two counts of a bucket of `dvalue`, of `due` d values and as many MACs.
pub fn put_dvalue_counts(out: &mut [u8], due: usize)
    requires { length out.old ≡ 16 + due * 17 }
    ensures { out.new ≡ B.counts due out.old }
{
    put_count(&mut out[0..8], due);
    let a = 8 + due;
    let e = a + 8;
    put_count(&mut out[a..e], due);
}

// d value k of such a bucket, and its MAC.
pub fn put_dvalue(out: &mut [u8], due: usize, k: usize, d: bool, x: Block)
    requires { (length out.old ≡ 16 + due * 17) × (k < due) }
    ensures { out.new ≡ B.dvalue_in due k d x out.old }
{
    out[8 + k] = block::bit_byte(d);
    let a = 16 + due + k * 16;
    let e = a + 16;
    block::store(&mut out[a..e], x);
}

// An entry of an echo: the hash of a list.
pub fn put_some(out: &mut [u8], hash: Block)
    requires { length out.old ≡ 17 }
    ensures { out.new ≡ E.some_item (bytes_of hash) }
{
    out[0] = 1;
    block::store(&mut out[1..17], hash);
}

// An absent entry of an echo.
pub fn put_none(out: &mut [u8])
    requires { length out.old ≡ 1 }
    ensures { out.new ≡ E.none_item }
{
    out[0] = 0;
}
