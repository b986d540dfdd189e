//! The plain types that every layer speaks of: texts, lists, the types of requests and sets of them, views
//! of URLs, and requests. What they keep is said by the types themselves, and no call but a copy takes
//! memory.
#![tactic(auto)]

mod candidate;
mod copied;
mod direction;
mod fault;
mod frame;
mod header;
mod items;
mod kind;
mod kind_set;
mod method;
mod method_set;
mod no_memory;
mod offered;
mod operation;
mod part;
mod plan;
mod query_pair;
mod query_transform;
mod rank;
mod redirect;
mod request;
mod rule_name;
mod scheme;
mod span;
mod steps;
mod text;
mod transform;
mod verb;
mod view;
mod winner;

pub use candidate::Candidate;
pub use copied::Copied;
pub use direction::Direction;
pub use fault::{Failed, count_fault};
pub use frame::Frame;
pub use header::Header;
pub use items::Items;
pub use kind::Kind;
pub use kind_set::KindSet;
pub use method::Method;
pub use method_set::MethodSet;
pub use no_memory::NoMemory;
pub use offered::Offered;
pub use operation::Operation;
pub use part::Part;
pub use plan::Plan;
pub use query_pair::QueryPair;
pub use query_transform::QueryTransform;
pub use rank::Rank;
pub use redirect::Redirect;
pub use request::Request;
pub use rule_name::RuleName;
pub use scheme::Scheme;
pub use span::Span;
pub use steps::Steps;
pub use text::Text;
pub use transform::Transform;
pub use verb::Verb;
pub use view::View;
pub use winner::Winner;
