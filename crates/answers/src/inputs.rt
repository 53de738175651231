// What a call is lent for reading; marks, records and output are lent for writing.
#[derive(Clone, Copy)]
pub struct Inputs<'a> {
    // The name of the TIF.
    pub name: &'a [u8],
    // The reception moment.
    pub received: &'a [u8],
    // The code card.
    pub card: &'a [u8],
    // The names received before.
    pub names: &'a [u8],
    // The agreement book.
    pub book: &'a [u8],
    // The open debits.
    pub debits: &'a [u8],
    pub tif: &'a [u8],
    // The station table, empty where none is lent.
    pub tst: &'a [u8],
}
