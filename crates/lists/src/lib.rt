// Lists and places in them: definitions and laws in specs/. Here: loops that many crates run, once for all of them.
#![tactic(auto)]

ghost use Rattle.std.specs.Prelude.{◌≡◌, Bool, List, ℕ, ◌*◌, ◌<◌, length};
ghost use Rattle.lists.specs.All.{all_of};
ghost use Rattle.lists.specs.Over.{cat};
ghost use Rattle.lists.specs.Calls.{TakesRow, LeavesRow};

// Whether a test holds of every number below n. All are tried, whatever one says.
pub fn all_of<F: Fn(usize) -> bool>(n: usize, test: F) -> bool
    requires { (k : ℕ) → k < n → F.pre test k }
    ensures { (t : ℕ → Bool) → ((k : ℕ) (r : Bool) → k < n → F.post test k r → r ≡ t k) → result ≡ all_of n t }
{
    let mut good = true;
    for k in 0..n {
        good = good & test(k);
    }
    good
}

// Writes `count` rows of `len` bytes, one after another.
pub fn write_rows<F: Fn(&mut [u8], usize)>(out: &mut [u8], count: usize, len: usize, put: F)
    requires out_len { length out.old ≡ count * len }
    requires put_pre { (k : ℕ) → k < count → TakesRow F.Fn put len k }
    ensures { (g : ℕ → List ℕ) → ((k : ℕ) → k < count → LeavesRow F.Fn put len k (g k)) → out.new ≡ cat count g }
{
    for k in 0..count {
        let a = k * len;
        let e = a + len;
        put(&mut out[a..e], k);
    }
}
