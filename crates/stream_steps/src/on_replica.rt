/// What a step on one replica answers, and which replica is next.
#[derive(Clone, Copy, Debug, PartialEq, Eq)]
pub struct OnReplica<A> {
    pub answer: A,
    /// The first replica behind it that has not failed, as the step left them.
    pub next: Option<u8>,
}
