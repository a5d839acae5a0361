// Runs of bytes that pass one test.
ghost use Rattle.std.specs.Prelude.{ℕ, Bool, ◌≡◌, ◌≤◌, ◌<◌, min, length};
ghost use Rattle.text.specs.Words.{is_blank};
ghost use Rattle.text.specs.Lists.{scan, leading};

// The first index from `at` on whose byte does not pass the test, or the length.
pub fn scan<F: Fn(u8) -> bool>(test: F, bytes: &[u8], at: usize) -> usize
    requires { F.IsAlwaysCallable test }
    ensures within { (result ≤ length bytes.now) × (at ≤ length bytes.now → at ≤ result) × (min at (length bytes.now) ≤ result) }
    ensures value { (p : ℕ → Bool) → ((x : ℕ) (b : Bool) → x < 256 → F.post test x b → b ≡ p x) → result ≡ scan p bytes.now at }
{
    let from = at.min(bytes.len());
    from + leading(test, &bytes[from..])
}

// How many bytes stand before the first that does not pass the test.
fn leading<F: Fn(u8) -> bool>(test: F, bytes: &[u8]) -> usize
    requires { F.IsAlwaysCallable test }
    ensures within { result ≤ length bytes.now }
    ensures value { (p : ℕ → Bool) → ((x : ℕ) (b : Bool) → x < 256 → F.post test x b → b ≡ p x) → result ≡ leading p bytes.now }
{
    match bytes.iter().position(|b| !test(*b)) {
        Some(i) => i,
        None => bytes.len(),
    }
}

#[tactic(auto, unfolding(crate::specs::Words::is_blank))]
pub fn is_blank(b: u8) -> bool
    ensures { result ≡ is_blank b }
{
    matches!(b, b' ' | b'\t' | b'\r')
}
