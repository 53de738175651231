ghost use Rattle.std.specs.Prelude.{◌≡◌};
ghost use Rattle.verdicts.specs.Verdict.{word_of, acceptance_of, verdict_of, InWord};

use cover::Place;

// What is said of a line: what it is accepted by, or what is wrong with it first. One enum, the form that the rules name.
#[derive(Clone, Copy)]
pub enum Verdict {
    // A debit, covered by a period of an agreement.
    Covered(Place),
    // A credit of an open debit, by that debit's number counted from 1.
    Credits(usize),
    WrongType,
    FieldOutOfForm,
    OtherActor,
    UnknownVehicle,
    PlateOutOfForm,
    RepeatedLine,
    NotCovered,
    NoDebit,
    UnknownStation,
}

// A verdict as one number. A function, since a From cannot ask that what the verdict carries fits the word.
pub fn word_of(v: Verdict) -> u64
    requires { InWord v }
    ensures { result ≡ word_of v }
{
    match v {
        Verdict::Covered(place) => place.agreement as u64 * 256 + place.period as u64 * 16777216,
        Verdict::Credits(debit) => debit as u64 * 256,
        Verdict::WrongType => 1,
        Verdict::FieldOutOfForm => 2,
        Verdict::OtherActor => 3,
        Verdict::UnknownVehicle => 4,
        Verdict::PlateOutOfForm => 5,
        Verdict::RepeatedLine => 6,
        Verdict::NotCovered => 7,
        Verdict::NoDebit => 8,
        Verdict::UnknownStation => 9,
    }
}

// The acceptance that a word with the number 0 is.
#[tactic(auto, unfolding(crate::specs::Verdict::acceptance_of))]
fn acceptance_of(word: u64) -> Verdict
    ensures { result ≡ acceptance_of word }
{
    let first = (word / 256 % 65536) as usize;
    match (word / 16777216) as usize {
        0 => Verdict::Credits(first),
        period => Verdict::Covered(Place {
            agreement: first,
            period,
        }),
    }
}

// The verdict that a word is.
impl From<u64> for Verdict {
    ghost from_gives = { λ word v. v ≡ verdict_of word };

    #[tactic(auto, unfolding(crate::specs::Verdict::verdict_of, lines::specs::FirstOf::first_of))]
    fn from(word: u64) -> Verdict {
        match word % 256 {
            1 => Verdict::WrongType,
            2 => Verdict::FieldOutOfForm,
            3 => Verdict::OtherActor,
            4 => Verdict::UnknownVehicle,
            5 => Verdict::PlateOutOfForm,
            6 => Verdict::RepeatedLine,
            7 => Verdict::NotCovered,
            8 => Verdict::NoDebit,
            9 => Verdict::UnknownStation,
            _ => acceptance_of(word),
        }
    }
}
