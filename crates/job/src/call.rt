ghost use Rattle.std.specs.Prelude.{true, ◌≡◌, ◌≤◌, length};
ghost use Rattle.judge.specs.Call.{call_with, answer_of};
ghost use Rattle.job_form.specs.Form.{is_job};
ghost use Rattle.job.specs.Printed.{records_lent, output_lent, blank_record, call_of_job, JudgedLent};

use answers::{Answer, Inputs};
use job_form::body_of;
use judge::judge;
use lines::{Gross, Net, put_bytes};
use verdicts::{Record, Verdict};

// What a record holds before a line is written into it.
fn blank_record() -> Record
    ensures { result ≡ blank_record }
{
    Record {
        number: 0,
        gross: Gross(0),
        verdict: Verdict::Credits(0),
        net: Net(0),
    }
}

// Judges with 128 records lent.
fn judge_lent(inputs: Inputs, marks: &mut [u8], out: &mut [u8]) -> Answer
    ensures { JudgedLent (call_with inputs.entry marks.old records_lent out.old) result marks.new out.new }
{
    let mut records = [blank_record(); 128];
    judge(inputs, marks, &mut records, out)
}

// Judges with the marks in a copy.
fn judge_copied(inputs: Inputs, marks: &[u8], copy: &mut [u8], out: &mut [u8]) -> Answer
    requires { (length marks.now ≤ length copy.old) × (length out.old ≡ 65536) }
    ensures { result ≡ answer_of (call_with inputs.entry marks.now records_lent output_lent) }
{
    let size = marks.len();
    put_bytes(copy, 0, marks);
    judge_lent(inputs, &mut copy[0..size], out)
}

// Judges in memory of its own.
fn judge_bodies(inputs: Inputs, marks: &[u8]) -> Answer
    requires { length marks.now ≤ 65536 }
    ensures { result ≡ answer_of (call_with inputs.entry marks.now records_lent output_lent) }
{
    // Arrays as long as a job, since the program has no heap.
    let mut copy = [0u8; 65536];
    let mut out = [0u8; 65536];
    judge_copied(inputs, marks, &mut copy, &mut out)
}

// Judges the call of a job, with no station table lent.
pub fn judge_job(job: &[u8]) -> Answer
    requires { is_job job.now ≡ true }
    ensures { result ≡ answer_of (call_of_job job.now) }
{
    let inputs = Inputs {
        name: body_of(job, 0),
        received: body_of(job, 1),
        card: body_of(job, 2),
        names: body_of(job, 3),
        book: body_of(job, 4),
        debits: body_of(job, 5),
        tif: body_of(job, 7),
        tst: &[],
    };
    judge_bodies(inputs, body_of(job, 6))
}
