// The requests that wait at a gate, as the walks over them are lent them.

// The first `count` rows of the waiting table, of the first `known` guests of the guest table, at a time. It promises nothing of them: each walk says
// what it asks.
#[derive(Clone, Copy)]
pub struct Queue<'a> {
    pub waiting: &'a [u64],
    pub count: usize,
    pub guests: &'a [u64],
    pub known: usize,
    pub time: u64,
}
