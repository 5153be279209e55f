// Values and denials as people read them.
use crate::denial::Denial;
use crate::value::Value;
use std::fmt;

impl fmt::Display for Value {
    fn fmt<W: fmt::Write>(&self, f: &mut fmt::Formatter<W>) -> fmt::Result {
        match self {
            Value::Undefined => f.write_str("undefined"),
            Value::Number(f64::INFINITY) => f.write_str("Infinity"),
            Value::Number(f64::NEG_INFINITY) => f.write_str("-Infinity"),
            Value::Number(x) => write!(f, "{x}"),
        }
    }
}

// `denied 13 place - byte 5 (malformed bundle or rows)`; written out, since the number and the place may be missing
impl fmt::Display for Denial {
    fn fmt<W: fmt::Write>(&self, f: &mut fmt::Formatter<W>) -> fmt::Result {
        let Some(number) = self.cause.number() else {
            return write!(f, "denied: {}", self.cause);
        };
        write!(f, "denied {number} place ")?;
        match self.place {
            Some(place) => write!(f, "{place}")?,
            None => f.write_str("-")?,
        }
        write!(f, " byte {} ({})", self.byte, self.cause)
    }
}
