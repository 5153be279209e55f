// Values, the cells that hold them, and the faults of bodies.
use thiserror::Error;

// `undefined`, or a 64-bit IEEE 754 number, all NaN patterns being one value.
// Not an `Option`: `undefined` is a value, and what an empty cell holds is none.
#[derive(Clone, Copy, Debug)]
pub enum Value {
    Undefined,
    Number(f64),
}

// A module's variable: empty until the module's body stores to it.
pub type Cell = Option<Value>;

// Not an `Option`: reading what is not there is a cause, as throwing is.
#[derive(Clone, Copy, Debug, Error)]
pub enum FaultCause {
    // an undeclared name, or an empty cell, was read
    #[error("reference")]
    Reference,
    #[error("throw {0}")]
    Thrown(Value),
}

// What a body ended in: the cause, and the byte of the name or of `throw` in the module's payload.
// A struct beside `LoadFault`: one generic in the cause would have no method that serves both.
#[derive(Clone, Copy)]
pub struct Fault {
    pub cause: FaultCause,
    pub byte: usize,
}
