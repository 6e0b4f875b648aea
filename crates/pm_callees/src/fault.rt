//! What is wrong with a caller port.
use pm_io::Text;

/// What is wrong with a caller port, with its name: the path of its instance, a dot and the port.
#[derive(Drop)]
pub enum CallerFault {
    /// No chain of connections leads from the port to a method.
    NoCallee(Text),
    /// Chains of connections lead from the port to two or more methods.
    TwoCallees(Text),
}
