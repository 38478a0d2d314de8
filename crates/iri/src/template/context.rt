//! The values of variables, told as an expansion asks for them.

pub use iri_template::context::Context;
pub use iri_template::dynamic_context::{DynamicContext, Fixed};
pub use iri_template::naive::{VisitValueNaive, visit_value_naive};
pub use iri_template::var_name::VarName;
pub use iri_template::visitor::{Phase, VisitPurpose, Visitor};
