/// What is asked of a run: which bit cannot be probed, how many probes there may be, and how many cycles each lasts.
#[derive(Clone, Copy, Debug)]
pub struct Query {
    pub clock: Option<u32>,
    pub order: u32,
    pub window: u32,
}
