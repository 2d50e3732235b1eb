/// A World that someone holds for a stream, in the hands of the worker that serves the stream.
#[derive(Drop)]
pub struct Steps<H, G> {
    pub holder: H,
    pub stream: u8,
    /// What the worker passes on its way, while it holds no World.
    pub gate: G,
    /// How many calls of the stream were answered here, modulo 2^64.
    pub ended: u64,
}
