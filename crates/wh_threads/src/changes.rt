// What becomes of the value on which the holders of an agreement agree.

/// What becomes of the value on which the holders of an agreement agree.
pub trait Change<V> {
    /// The value afterwards, of the value before.
    ghost after: { Self → V → V };
}
