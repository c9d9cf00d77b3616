// ChaCha20 with a nonce of zero, four blocks at once, one in each lane.
//
// Speed: from_fn's loop over the lanes has no call left in it once `one` is inlined, and LLVM then turns it into vector code for the four.
// For that `one` has a single call, and its ten double rounds are written out: a loop in the loop would keep LLVM from it (the drawing of a
// permutation, bench/shuffle/run, then takes half as long again).
#![tactic(auto)]

ghost use Rattle.std.specs.Prelude.{◌≡◌, ◌+◌, ◌^◌, ◌≤◌};
ghost use Rattle.lists.specs.Over.{tab};
ghost use Rattle.chacha20_lanes.specs.Lanes as L;

use chacha20::{columns, diagonals};

// As many blocks as are made side by side.
pub const LANES: usize = 4;

// The words of a block.
#[derive(Clone, Copy)]
pub struct Lane(pub [u32; 16]);

// The block with this counter.
fn one(key: &[u32; 8], counter: u32) -> Lane
    ensures { result ≡ L.lane_of key.now counter }
{
    let nonce = [0u32; 3];
    let s = chacha20::state(key, counter, &nonce);
    let mut v = s;
    columns(&mut v);
    diagonals(&mut v);
    columns(&mut v);
    diagonals(&mut v);
    columns(&mut v);
    diagonals(&mut v);
    columns(&mut v);
    diagonals(&mut v);
    columns(&mut v);
    diagonals(&mut v);
    columns(&mut v);
    diagonals(&mut v);
    columns(&mut v);
    diagonals(&mut v);
    columns(&mut v);
    diagonals(&mut v);
    columns(&mut v);
    diagonals(&mut v);
    columns(&mut v);
    diagonals(&mut v);
    Lane(chacha20::sums(&v, &s))
}

// The four blocks from this counter on.
pub fn four(key: &[u32; 8], counter: u32) -> [Lane; LANES]
    requires { counter + 4 ≤ 2 ^ 32 }
    ensures { result ≡ tab L.LANES (λ t. L.lane_of key.now (counter + t)) }
{
    std::array::from_fn(|t| one(key, counter + t as u32))
}
