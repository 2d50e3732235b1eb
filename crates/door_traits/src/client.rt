/// Who calls in a session: where its frames come from, and where the replies go.
#[derive(Debug, Drop)]
pub struct Client<I: Drop, O: Drop> {
    pub source: I,
    pub sink: O,
}
