// The XOR algebra of the AND session: definitions and laws in specs/. Here: what is added, and sums over places and parties.
#![tactic(auto)]

ghost use Rattle.std.specs.Prelude.{◌≡◌, ◌≢◌, ℕ, ◌<◌};
ghost use Rattle.algebra.specs.Group.{XorGroup, bits};
ghost use Rattle.algebra.specs.Sum.{sum, others};

// What is added by XOR.
pub trait Xor: Copy {
    ghost group: { XorGroup Self };

    fn zero() -> Self
        ensures { result ≡ group.nil };

    fn xor(self, o: Self) -> Self
        ensures { result ≡ group.op self o };
}

impl Xor for bool {
    ghost group = { bits };

    fn zero() -> bool {
        false
    }

    fn xor(self, o: bool) -> bool {
        self ^ o
    }
}

// The sum of n terms.
pub fn sum<T: Xor, F: Fn(usize) -> T>(n: usize, term: F) -> T
    requires { (k : ℕ) → k < n → F.pre term k }
    ensures { (t : ℕ → T) → ((k : ℕ) (r : T) → k < n → F.post term k r → r ≡ t k) → result ≡ sum T.group n t }
{
    let mut all = T::zero();
    for j in 0..n {
        all = all.xor(term(j));
    }
    all
}

// The sum over every party of n but i.
pub fn sum_others<T: Xor, F: Fn(usize) -> T>(i: usize, n: usize, term: F) -> T
    requires { (k : ℕ) → k < n → i ≢ k → F.pre term k }
    ensures { (t : ℕ → T) → ((k : ℕ) (r : T) → k < n → i ≢ k → F.post term k r → r ≡ t k) → result ≡ others T.group i n t }
{
    let mut all = T::zero();
    for k in 0..n {
        if k != i {
            all = all.xor(term(k));
        }
    }
    all
}
