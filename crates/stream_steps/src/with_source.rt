/// What a step answers, and the lowest replica that is read and written, as the step left them.
#[derive(Drop)]
pub struct WithSource<A: Drop> {
    pub answer: A,
    pub source: Option<u8>,
}
