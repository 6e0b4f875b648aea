//! What is true of words.
ghost use Rattle.pm_words.specs.Words.{OneJobAtMost};

/// Words ask for at most one job.
#[tactic(auto, using(crate::proofs::Jobs::one_job_at_most))]
pub fn words_ask_for_one_job()
    ensures { OneJobAtMost }
{}
