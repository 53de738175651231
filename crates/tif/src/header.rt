ghost use Rattle.std.specs.Prelude.{◌≡◌, length};
ghost use Rattle.tif.specs.Columns.{header_width};
ghost use Rattle.tif.specs.Header.{counts_agree};

use crate::columns::{
    CREATION_MOMENT, CURRENCY, HEADER_FILLER, HEADER_VERSION, RECEIVER, RECORDS, SENDER, SEQUENCE,
    TRANSACTIONS,
};
use crate::name::{NAME_IDENTITY, NAME_RECEIVER, NAME_SENDER, VERSION};
use crate::side::{is_sided, side_of};
use lines::{Class, Count, all_of, field, is_same, read_digits};
use moment::is_moment;

// How many records and transactions a header states.
#[derive(Clone, Copy)]
pub struct Counts {
    pub records: Count,
    pub transactions: Count,
}

// The bytes of a header.
#[derive(Clone, Copy)]
pub struct Header<'a> {
    pub bytes: &'a [u8],
    ghost long: { length bytes.now ≡ header_width },
}

// The one currency.
pub const NOK: [u8; 3] = *b"NOK";

impl Header<'_> {
    ghost use Rattle.tif.specs.Header.{names_file, header_formed, header_of_file};

    // Whether the header begins as one, and has sender, receiver and sequence as the file's name has them. A name without a receiver is that of none.
    #[tactic(auto, using(crate::specs::HeaderLaws::short_name), unfolding(crate::specs::Header::names_file, crate::specs::Every::every))]
    fn names_file(self, name: &[u8]) -> bool
        ensures { result ≡ names_file name.now self.entry.bytes.now }
    {
        self.bytes[0] == b'0'
            && name.len() >= NAME_RECEIVER.to
            && is_same(field(self.bytes, SENDER), field(name, NAME_SENDER))
            && is_same(field(self.bytes, RECEIVER), field(name, NAME_RECEIVER))
            && is_same(field(self.bytes, SEQUENCE), field(name, NAME_IDENTITY))
    }

    // Whether the columns of the header that name no file and no count are of the right form.
    #[tactic(auto, unfolding(crate::specs::Header::header_formed, crate::specs::Every::every))]
    fn is_formed(self) -> bool
        ensures { result ≡ header_formed self.entry.bytes.now }
    {
        is_same(field(self.bytes, CURRENCY), &NOK)
            && is_sided(side_of(self.bytes))
            && is_same(field(self.bytes, HEADER_VERSION), &VERSION)
            && is_moment(field(self.bytes, CREATION_MOMENT))
            && all_of(Class::Only(b'0'), field(self.bytes, HEADER_FILLER))
    }

    // The counts that a header states which is of the right form and is that of the named file. Its digit fields are taken by `let .. else`, as the rule of the form asks.
    #[tactic(auto, unfolding(crate::specs::Header::header_of_file, crate::specs::Header::header_sound, crate::specs::Every::every, lines::specs::Number::read_digits))]
    pub fn read(self, name: &[u8]) -> Option<Counts>
        ensures { result ≡ header_of_file name.now self.entry.bytes.now }
    {
        if !self.names_file(name) || !self.is_formed() {
            return None;
        }
        let Some(records) = read_digits(field(self.bytes, RECORDS)) else {
            return None;
        };
        let Some(transactions) = read_digits(field(self.bytes, TRANSACTIONS)) else {
            return None;
        };
        Some(Counts {
            records: Count(records),
            transactions: Count(transactions),
        })
    }
}

// Whether the counts are those of a file of so many lines: as many records, and as many transactions or none.
#[tactic(auto, unfolding(crate::specs::Header::counts_agree))]
pub fn counts_agree(counts: Counts, lines: Count) -> bool
    ensures { result ≡ counts_agree counts.records.0 counts.transactions.0 lines.0 }
{
    counts.records == lines && (counts.transactions == Count(0) || counts.transactions == lines)
}
