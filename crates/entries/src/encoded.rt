// What the code has for the entries of a format.
ghost use Rattle.std.specs.Prelude.{◌≡◌, ◌<◌, length, IfSome};
ghost use Rattle.entries.specs.Entries.{Format};
ghost use Rattle.entries.specs.Reading.{TakesFirst, first_contents};

// An entry that can be read from bytes.
pub trait Encoded<'a>: Copy {
    // What an entry is by its contents.
    ghost Contents: { Type 0 };

    ghost contents: { Self → Contents };

    ghost format: { Format Contents };

    // The well-formed entry in front of these bytes, and what stands behind it, if one stands there.
    fn first(bytes: &'a [u8]) -> Option<(Self, &'a [u8])>
        ensures takes { TakesFirst format bytes.now (first_contents contents result) }
        ensures shorter { IfSome result (λ x. length x.1.now < length bytes.now) };

    fn name(&self) -> &'a [u8]
        ensures { result.now ≡ format.name (contents self.now) };
}
