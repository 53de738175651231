// Chains that rise, in one array of fixed size: a link for each hash, and behind these one for each number. A link leads to the next number of its hash, and past the last number of all where there is none. An Option<u16> would take twice the room.
ghost use Rattle.std.specs.Prelude.{◌≡◌, ℕ, ◌+◌, ◌≤◌, ◌<◌, length, get_or, set, MatchOption};
ghost use Rattle.chains.specs.Hash.{hashes};
ghost use Rattle.chains.specs.Ahead.{link_at};

use crate::hash::HASHES;

// No number is in yet: each head leads past the last of n.
pub fn clear_ahead(links: &mut [u16], n: usize)
    requires { (hashes ≤ length links.old) × (n < 65536) }
    ensures { (h : ℕ) → h < hashes → get_or links.new h 0 ≡ n }
{
    links[..HASHES].fill(n as u16);
}

// The number to which the link at `at` leads, if it is one of the n numbers.
#[tactic(auto, unfolding(crate::specs::Ahead::link_at))]
pub fn next_ahead(links: &[u16], at: usize, n: usize) -> Option<usize>
    requires { at < length links.now }
    ensures { MatchOption result (n ≤ link_at links.now at) (λ j. (j ≡ link_at links.now at) × (j < n)) }
{
    let next = usize::from(links[at]);
    (next < n).then_some(next)
}

// Puts the number k, whose link stands in the slot `at`, in front of the chain of h.
pub fn enter_ahead(links: &mut [u16], h: usize, at: usize, k: usize)
    requires { (h < hashes) × (hashes + at < length links.old) × (k < 65536) }
    ensures { links.new ≡ set (set links.old (hashes + at) (get_or links.old h 0)) h k }
{
    let first = links[h];
    links[HASHES + at] = first;
    links[h] = k as u16;
}
