/// Why a list of domains is refused.
#[derive(Clone, Copy, Debug, PartialEq, Eq)]
pub enum DomainRefusal {
    /// The entry at this place, from 0, is the first that is no domain.
    BadDomain(usize),
    /// Memory ran out.
    NoMemory,
}
