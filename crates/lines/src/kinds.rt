ghost use Rattle.std.specs.Prelude.{◌≡◌, ◌+◌, ◌^◌, ◌<◌};

use std::ops::Add;

// A fee without VAT, in 1/100 NOK. Nothing is added to it or compared with it.
#[derive(Clone, Copy)]
pub struct Net(pub u64);

// An amount with VAT, in 1/100 NOK.
#[derive(Clone, Copy, PartialEq, Eq)]
pub struct Gross(pub u64);

// A number of records or transactions.
#[derive(Clone, Copy, PartialEq, Eq)]
pub struct Count(pub u64);

impl Add for Gross {
    type Output = Gross;

    ghost can_add = { λ p q. p.0 + q.0 < 2 ^ 64 };

    ghost add_gives = { λ p q r. r.0 ≡ p.0 + q.0 };

    fn add(self, other: Gross) -> Gross {
        Gross(self.0 + other.0)
    }
}
