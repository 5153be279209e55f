// Hosts: where keys and specifiers lead.
ghost use Rattle.std.specs.Prelude.{◌≡◌};
ghost use Rattle.record.specs.Meanings.{Hosting, LawfulHost};

// A place is a number from 0 to 31, at which a module may stand.
pub trait Host {
    ghost meaning: { Self → Hosting };

    ghost lawful: { (h : Self) → LawfulHost (meaning h) };

    // The place of a key, or none.
    fn seek(&self, key: &[u8]) -> Option<usize>
        ensures { result ≡ (meaning self.now).seek key.now };

    // Where a specifier in the module at a place leads, or none.
    fn follow(&self, place: usize, specifier: &[u8]) -> Option<usize>
        ensures { result ≡ (meaning self.now).follow place specifier.now };
}
