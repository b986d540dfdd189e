//! Header changes: what a rule may ask for, which of the changes that rules offer take effect, and the
//! headers after them.
//!
//! The definitions stand in `dnr_spec`, `specs/Headers.antt`.
#![tactic(auto)]

mod effects;
mod header_op;
mod laws;
mod planning;
mod standing;
mod table;
mod words;

pub use dnr_base::{Direction, Header, NoMemory, Offered, Operation};
pub use dnr_spec::HeaderRefusal;
pub use header_op::HeaderOp;
pub use laws::changes_read_again;
pub use planning::plan;
pub use table::apply;
pub use words::is_name;
