//! What holds of the generated jobs: each clause is a law, and the bodies are empty.
ghost use Rattle.big_job.specs.Laws.{BigJobsAreJobs, BigJobsHave18Commands, BigJobsReadBack, BigJobsWriteFiveTrees};

/// The job of each number of 32 bits passes the checks of jobs, and its canonical text reads as that job.
pub fn big_jobs_read_back()
    ensures checks { BigJobsAreJobs }
    ensures text { BigJobsReadBack }
{}

/// Each has 18 commands, which write 5 trees.
pub fn big_jobs_are_of_one_size()
    ensures commands { BigJobsHave18Commands }
    ensures trees { BigJobsWriteFiveTrees }
{}
