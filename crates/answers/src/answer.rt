use lines::Gross;
use tif::{FileFault, Side};

// What is wrong with a call: E1 to E6, E8, E7.
#[derive(Clone, Copy)]
pub enum CallFault {
    FileName,
    ReceptionMoment,
    CodeCard,
    ReceivedNames,
    Book,
    OpenDebits,
    StationTable,
    Room,
}

// What becomes of the file: 00 to 05. No Result, since each of them, a refusal of the whole file too, has a summary and a TIC.
#[derive(Clone, Copy)]
pub enum FileAnswer {
    Accepted,
    PartlyAccepted,
    AlreadyReceived,
    CountsDiffer,
    TotalDiffers,
    OutOfForm,
}

// What a call that is answered tells.
#[derive(Clone, Copy)]
pub struct Summary {
    pub answer: FileAnswer,
    pub side: Side,
    pub lines: usize,
    pub accepted: usize,
    pub refused: usize,
    pub total: Gross,
    pub accepted_amount: Gross,
    pub refused_amount: Gross,
    pub length: usize,
}

// What a call is answered.
pub type Answer = Result<Summary, CallFault>;

// E1 to E8 by their number.
impl From<CallFault> for u64 {
    ghost use Rattle.std.specs.Prelude.{◌≡◌};
    ghost use Rattle.answers.specs.Answer.{fault_number};

    ghost from_gives = { λ fault number. number ≡ fault_number fault };

    fn from(fault: CallFault) -> u64 {
        match fault {
            CallFault::FileName => 1,
            CallFault::ReceptionMoment => 2,
            CallFault::CodeCard => 3,
            CallFault::ReceivedNames => 4,
            CallFault::Book => 5,
            CallFault::OpenDebits => 6,
            CallFault::StationTable => 8,
            CallFault::Room => 7,
        }
    }
}

// 00 to 05 by their number.
impl From<FileAnswer> for u64 {
    ghost use Rattle.std.specs.Prelude.{◌≡◌};
    ghost use Rattle.answers.specs.Answer.{answer_code};

    ghost from_gives = { λ answer code. code ≡ answer_code answer };

    fn from(answer: FileAnswer) -> u64 {
        match answer {
            FileAnswer::Accepted => 0,
            FileAnswer::PartlyAccepted => 1,
            FileAnswer::AlreadyReceived => 2,
            FileAnswer::CountsDiffer => 3,
            FileAnswer::TotalDiffers => 4,
            FileAnswer::OutOfForm => 5,
        }
    }
}

// A file that is refused as a whole, by what is wrong with it.
impl From<FileFault> for FileAnswer {
    ghost use Rattle.std.specs.Prelude.{◌≡◌, Err};
    ghost use Rattle.answers.specs.Told.{file_answer};

    ghost from_gives = { λ fault answer. answer ≡ file_answer (Err fault) 0 };

    fn from(fault: FileFault) -> FileAnswer {
        match fault {
            FileFault::AlreadyReceived => FileAnswer::AlreadyReceived,
            FileFault::OutOfForm => FileAnswer::OutOfForm,
            FileFault::CountsDiffer => FileAnswer::CountsDiffer,
            FileFault::TotalDiffers => FileAnswer::TotalDiffers,
        }
    }
}
