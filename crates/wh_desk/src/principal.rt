// Who asks.

/// Asks something of a desk.
#[derive(Clone, Copy, Debug, PartialEq, Eq)]
pub enum Principal {
    /// Whoever runs the host.
    Operator,
    /// Whoever has instances on it, by a number.
    Tenant(u32),
}
