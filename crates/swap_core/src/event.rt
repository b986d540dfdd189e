/// What happens between a writer and its readers. Readers are numbered from 0.
#[derive(Clone, Copy, Debug, PartialEq, Eq)]
pub enum Event {
    /// The writer publishes one update more.
    Publish,
    /// This reader enters what is published, and answers by it.
    Enter(u32),
    /// This reader is told of what is published.
    Learn(u32),
}
