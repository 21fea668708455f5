//! What is known at an operation.

ghost use Rattle.std.specs.Prelude.{◌≡◌, ◌≤◌, ◌&&◌, length};
ghost use Rattle.hs_flow.specs.Given.{Given};

use hs_tree::Variable;

/// What is known at one operation of a function. All answers are those of one record. A handle name is given by its place in the list of handle names
/// of the function, and a place of the stack is counted from 0 at the bottom of the call's own part.
pub trait Around {
    ghost given: { Self → Given };

    /// The number of the function.
    fn function(&self) -> u32
        ensures { result ≡ (given self.now).function };

    /// How many values are on the stack before the operation.
    fn places(&self) -> u32
        ensures { result ≡ (given self.now).places };

    /// Lends the handle names of the function.
    fn names(&self) -> &[Variable]
        ensures names { result.now ≡ (given self.now).names }
        ensures few { length result.now ≤ 4294967295 };

    /// Whether two names are known to have no handles of one block.
    fn distinct(&self, a: u32, b: u32) -> bool
        ensures { result ≡ (given self.now).distinct a b };

    /// Whether the block of the handle in a name is known to be locked, or to hold nothing.
    fn locked(&self, h: u32) -> bool
        ensures { result ≡ (given self.now).locked h };

    /// Whether a name is known to have no handle that was disposed of.
    fn live(&self, h: u32) -> bool
        ensures { result ≡ (given self.now).live h };

    /// Whether a slot is known to have a state byte that was read from the handle in a name.
    fn saved(&self, slot: Variable, h: u32) -> bool
        ensures { result ≡ (given self.now).saved slot h };

    /// Whether a place is known to have the value of a name, and the block of its handle to be locked.
    fn with_lock(&self, place: u32, h: u32) -> bool
        ensures { result ≡ ((given self.now).with place h && (given self.now).locked h) };

    /// Whether a place is known to have the value of a name.
    fn with(&self, place: u32, h: u32) -> bool
        ensures { result ≡ (given self.now).with place h };

    /// Whether the operation puts back a state byte that was read from its handle.
    fn restores(&self) -> bool
        ensures { result ≡ (given self.now).restores };
}
