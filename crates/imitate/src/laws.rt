ghost use Rattle.imitate.specs.Headline.{AcceptedIsRunnable, AcceptedRunsEndAsTheyMust};
ghost use Rattle.imitate.specs.Workload.{WorkloadIsDone};

/// Whatever bytes the readers accept as a graph, a job and a schedule, they say a lawful program, a job and a graph
/// within their limits, and lines that name sets of places.
pub fn accepted_is_runnable()
    ensures { AcceptedIsRunnable }
{}

/// The whole run of a graph, a job and a schedule that the readers accept ends as it must, for the program that the job
/// chooses, whatever places crash and however the events of the schedule interleave.
pub fn accepted_runs_end_as_they_must()
    ensures { AcceptedRunsEndAsTheyMust }
{}

/// The whole run of generated input is always done.
pub fn every_workload_is_done()
    ensures { WorkloadIsDone }
{}
