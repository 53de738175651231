ghost use Rattle.std.specs.Prelude.{true, ◌≡◌, ◌≤◌, ◌<◌, length};
ghost use Rattle.job_form.specs.Form.{body_place, is_job, body_of, LengthAt};

use lines::big_endian;

// The most bytes that a job has.
const MOST: usize = 65536;

// The length of body k, counted from 0.
#[tactic(auto, using(crate::specs::FormLaws::four_bytes), unfolding(crate::specs::Form::length_at))]
fn length_at(job: &[u8], k: usize) -> usize
    requires { (32 ≤ length job.now) × (k < 8) }
    ensures { LengthAt job.now k result }
{
    let at = 4 * k;
    let end = at + 4;
    big_endian(&job[at..end])
}

// Where body k begins; of k = 8 where the last one ends.
#[tactic(auto, using(crate::specs::FormLaws::place_zero, crate::specs::FormLaws::place_suc))]
fn body_place(job: &[u8], k: usize) -> usize
    requires { (32 ≤ length job.now) × (k ≤ 8) }
    ensures { result ≡ body_place job.now k }
{
    let mut at = 32;
    for i in 0..k {
        at += length_at(job, i);
    }
    at
}

// Whether the bytes are a job: not too many, not too few, and filled exactly by the lengths.
#[tactic(auto, using(crate::specs::FormLaws::too_long, crate::specs::FormLaws::too_short, crate::specs::FormLaws::is_filled))]
pub fn is_job(job: &[u8]) -> bool
    ensures { result ≡ is_job job.now }
{
    job.len() <= MOST && job.len() >= 32 && body_place(job, 8) == job.len()
}

// Body k of a job, counted from 0. By number, since the form of a job names none: what each body is stands where a call is made of them.
#[tactic(auto, using(crate::specs::FormLaws::not_long, crate::specs::FormLaws::not_short, crate::specs::FormLaws::body_within), unfolding(crate::specs::Form::body_of))]
pub fn body_of(job: &[u8], k: usize) -> &[u8]
    requires { (is_job job.now ≡ true) × (k < 8) }
    ensures { result.now ≡ body_of job.now k }
{
    let at = body_place(job, k);
    let end = at + length_at(job, k);
    &job[at..end]
}
