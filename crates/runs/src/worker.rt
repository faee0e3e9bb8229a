// A worker (document 01, "Worker and round"): it holds a job, waits with a request on a named victim, or is idle.
#[derive(Clone, Copy)]
pub enum Worker {
    Idle,
    Holding(u8),
    Waiting { victim: u8, laid: u16 },
}
