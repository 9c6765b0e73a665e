// A list of jobs, as the planner takes it.

// A horizon, and a release, a deadline and a volume for each job.
#[derive(Clone, Copy)]
pub struct List<'a> {
    pub h: u16,
    pub releases: &'a [u16],
    pub deadlines: &'a [u16],
    pub volumes: &'a [u16],
}
