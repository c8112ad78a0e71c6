//! The sentences for faults and refusals, in an operator's words.

ghost use Rattle.std.specs.Prelude.{◌≡◌};
ghost use Rattle.crush_reasons.specs.Sentences.{job_sentence, reply_sentence, stale_sentence};

use crush_history::Reply;
use crush_script::JobFault;

/// The sentence for a guarded batch that was refused because the map has changed since the operator
/// looked at the map. A guarded batch begins with `begin at N`. N is the number of changes that the
/// operator has seen.
pub(crate) const STALE: &str =
    "the map has changed in the meantime: look at it again, and write `begin at` with the new number of changes";

/// Returns the sentence for a fault of a job. Returns an empty text if the sentence depends on the
/// job's text.
pub fn job_sentence(fault: JobFault) -> &'static str
    ensures { result.now ≡ job_sentence fault }
{
    match fault {
        JobFault::OpenBatch(_) => {
            "this batch is not ended: add `commit` before the next %operator line"
        }
        JobFault::TooManyOperators(_) => "a job has at most 16 operators",
        JobFault::DuplicateOperator(_) => "another operator above has this name",
        JobFault::BadLine { .. } | JobFault::NoSuchCommand(_) | JobFault::Text(_) => "",
        JobFault::OutOfMemory => "not enough memory for the job",
        JobFault::TooLong => "a job has at most 16777216 bytes",
        JobFault::TooManyCalls(_) => "a job has at most 65536 commands and batches",
    }
}

/// Returns the sentence for a reply that is a refusal. Returns an empty text for any other reply.
pub fn reply_sentence(reply: Reply) -> &'static str
    ensures { result.now ≡ reply_sentence reply }
{
    match reply {
        Reply::Done(_) => "",
        Reply::Dones(_) => "",
        Reply::Refused(refusal) => refusal.sentence(),
        Reply::BatchRefused(_, refusal) => refusal.sentence(),
        Reply::Stale(_) => STALE,
    }
}
