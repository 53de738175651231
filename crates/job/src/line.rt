ghost use Rattle.std.specs.Prelude.{◌≡◌, ◌≤◌, length};
ghost use Rattle.lines.specs.Splice.{Put};
ghost use Rattle.job.specs.Printed.{text_of, printed_of};

use crate::call::judge_job;
use job_form::is_job;
use job_line::put_answer;
use lines::put_run;

// What a job is answered, without the line feed.
fn put_text(line: &mut [u8], job: &[u8]) -> usize
    requires { 132 ≤ length line.old }
    ensures { Put (text_of job.now) 0 line.old result line.new }
{
    if !is_job(job) {
        return put_run(line, 0, 1, b'J');
    }
    put_answer(line, 0, judge_job(job))
}

// From the bytes of a job to the bytes that are printed: they are written at the front of line, and their number is returned.
pub fn answer_job(line: &mut [u8], job: &[u8]) -> usize
    requires { 133 ≤ length line.old }
    ensures { Put (printed_of job.now) 0 line.old result line.new }
{
    let mid = put_text(line, job);
    put_run(line, mid, 1, b'\n')
}
