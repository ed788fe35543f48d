/// The form in which a report is written.
#[derive(Clone, Copy)]
pub enum Form {
    /// Sentences, with lengths in millimetres.
    Words,
    /// A JSON document of facts, with lengths in nanometres.
    Json,
}
