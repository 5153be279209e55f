// A host that holds the key `a` at place 0, whose module may follow `./a` to itself.
ghost use Rattle.record_tests.specs.OneKey.{hosting, lawful_hosting};

use record::Host;

#[derive(Clone, Copy)]
pub struct OneKey;

impl Host for OneKey {
    ghost meaning = { λ _. hosting };

    ghost lawful = { λ _. lawful_hosting };

    fn seek(&self, key: &[u8]) -> Option<usize> {
        (key == b"a".as_slice()).then_some(0)
    }

    fn follow(&self, place: usize, specifier: &[u8]) -> Option<usize> {
        (place == 0 && specifier == b"./a".as_slice()).then_some(0)
    }
}
