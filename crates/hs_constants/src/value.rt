//! Values of conditions.

/// The value of an expression of a condition, of type long or unsigned long (X3.159-1989 3.8.1).
#[derive(Clone, Copy)]
pub struct Value {
    /// The 32 bits, of a signed number in two's complement.
    pub bits: u32,
    pub unsigned: bool,
    /// The evaluation divides by 0.
    pub fails: bool,
}
