//! How large the copies of methods are.
use crate::extent::Extent;
use da_calls::CallGraph;
use da_values::List;

/// The extents of the copies of methods, by the numbers of the methods.
#[derive(Drop)]
pub struct Copies<'g, 't> {
    pub graph: &'g CallGraph<'t>,
    pub extents: List<Extent>,
}
