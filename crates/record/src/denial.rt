// Denials: which cause, at which place, at which byte.
ghost use Rattle.std.specs.Prelude.{◌≡◌, Some};
ghost use Rattle.record.specs.Denials.{number, malformed_at};
ghost use Rattle.record.specs.declared.denial.Denial.{Denial};

use crate::value::FaultCause;
use thiserror::Error;

// Why a call is denied. Each has a number but want of memory, which arises only where something is made.
#[derive(Clone, Copy, Debug, Error)]
pub enum Cause {
    #[error("no such key")]
    UnknownKey,
    #[error("the specifier leads nowhere")]
    UnresolvedSpecifier,
    #[error("outside the grammar")]
    OutsideGrammar,
    #[error("name declared, imported or exported again")]
    RepeatedName,
    #[error("exported name neither declared nor imported")]
    UndeclaredExport,
    #[error("over a limit")]
    OverLimit,
    #[error("malformed list")]
    MalformedList,
    #[error("no binding for the import or re-export here")]
    NoBinding,
    #[error("several bindings for the import or re-export here")]
    SeveralBindings,
    #[error("no module is loaded here")]
    NoModule,
    #[error("not linked")]
    NotLinked,
    #[error("{0}")]
    BodyFault(FaultCause),
    #[error("malformed bundle or rows")]
    MalformedBundle,
    #[error("the cell is still empty")]
    EmptyCell,
    #[error("out of memory")]
    OutOfMemory,
}

impl Cause {
    // By hand, for `as u8` takes no enum that holds a value, as `BodyFault` does; and want of memory has no number.
    pub fn number(&self) -> Option<u8>
        ensures { result ≡ number self.now }
    {
        Some(match self {
            Cause::UnknownKey => 1,
            Cause::UnresolvedSpecifier => 2,
            Cause::OutsideGrammar => 3,
            Cause::RepeatedName => 4,
            Cause::UndeclaredExport => 5,
            Cause::OverLimit => 6,
            Cause::MalformedList => 7,
            Cause::NoBinding => 8,
            Cause::SeveralBindings => 9,
            Cause::NoModule => 10,
            Cause::NotLinked => 11,
            Cause::BodyFault(_) => 12,
            Cause::MalformedBundle => 13,
            Cause::EmptyCell => 14,
            Cause::OutOfMemory => return None,
        })
    }
}

// A refusal: its cause, the module's place if it names one, and a byte of that module's payload or of the bundle.
#[derive(Clone, Copy, Debug, Error)]
pub struct Denial {
    pub cause: Cause,
    pub place: Option<usize>,
    pub byte: usize,
}

impl Denial {
    // Of a bundle, or of a host's keys or rows, at this byte or number.
    pub fn malformed(byte: usize) -> Denial
        ensures { result ≡ malformed_at byte }
    {
        Denial {
            cause: Cause::MalformedBundle,
            place: None,
            byte,
        }
    }
}

// What a payload is refused with, before it is known at which place it stands.
#[derive(Clone, Copy)]
pub struct LoadFault {
    pub cause: Cause,
    pub byte: usize,
}

impl LoadFault {
    // The denial of the module at this place.
    pub fn at(self, place: usize) -> Denial
        ensures { result ≡ record { cause = self.cause; place = Some place; byte = self.byte } }
    {
        Denial {
            cause: self.cause,
            place: Some(place),
            byte: self.byte,
        }
    }
}
