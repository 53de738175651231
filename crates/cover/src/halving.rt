ghost use Rattle.std.specs.Prelude.{◌≡◌, Bool, true, ℕ, ◌≤◌, ◌<◌};
ghost use Rattle.lines.specs.Below.{first_below};

// The first number below n of which `holds` holds, found by halving, since it holds of all that come after; n where it holds of none.
pub fn first_true<F: Fn(usize) -> bool>(n: usize, holds: F) -> usize
    ghost test: { ℕ → Bool }
    requires asked { (i : ℕ) → i < n → F.pre holds i }
    requires told { (i : ℕ) (r : Bool) → i < n → F.post holds i r → r ≡ test i }
    requires stays { (j i : ℕ) → i ≤ j → j < n → test i ≡ true → test j ≡ true }
    ensures { result ≡ first_below n test }
{
    let mut low = 0;
    let mut high = n;
    // Both bounds move, so this goes over no range.
    while low < high {
        let middle = low + (high - low) / 2;
        if holds(middle) {
            high = middle;
        } else {
            low = middle + 1;
        }
    }
    low
}
