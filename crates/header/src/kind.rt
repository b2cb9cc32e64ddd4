ghost use Rattle.std.specs.Prelude.{◌≡◌};
ghost use Rattle.header.specs.Laws.{Kind, Laws};

use packet::{Packet, Test};

/// A header kind, on the record of its patterns.
pub trait HeaderKind: Copy {
    /// What the kind says of tests and patterns.
    ghost kind: { Kind Self };

    /// Whether the kind carries a test, that is, has a pattern for it.
    fn carries(test: &Test) -> bool
        ensures { result ≡ kind.carried test.now };

    /// The pattern of a carried test; of any other test, a pattern of which no law speaks.
    fn of_test(test: &Test) -> Self
        ensures { result ≡ kind.pattern test.now };

    /// The pattern that every packet hits.
    fn all() -> Self
        ensures { result ≡ kind.all };

    /// Whether a packet hits the pattern.
    fn hits(&self, packet: &Packet) -> bool
        ensures { result ≡ kind.hit self.now packet.now };

    /// The pattern of the packets that hit both, or none where there is no such packet.
    fn meet(&self, other: &Self) -> Option<Self>
        ensures { result ≡ kind.meeting self.now other.now };

    /// Whether every packet that hits `other` hits this pattern.
    fn covers(&self, other: &Self) -> bool
        ensures { result ≡ kind.covering self.now other.now };

    /// The four laws, which each kind proves.
    ghost keeps: { Laws kind };
}
