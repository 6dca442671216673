// What the lock asks of the value that it guards.
ghost use Rattle.std.specs.Prelude.{◌≡◌, ℕ, ◌<◌, List, Option, length};
ghost use Rattle.turn_lock.specs.Growth.{Grows};

use std::alloc::Global;
use std::sync::Wait;

/// A value with a list of entries, which one act after another may lengthen. Each entry names its maker by a number.
///
/// An act leaves the list, or adds one entry at its end, whose maker is the number that the act names. An act that
/// names no number leaves the list.
pub trait Booked {
    /// What no act changes.
    type Root;

    type Entry;

    type Act;

    /// What an act answers.
    type Done;

    ghost root: { Self → Self.Root };

    ghost entries: { Self → List Self.Entry };

    // The number that an entry names as its maker's.
    ghost maker: { Self.Entry → ℕ };

    // The number that an act names, if it names one.
    ghost by: { Self.Act → Option ℕ };

    // What is true of the root and the list of every value.
    ghost legal: { Self.Root → List Self.Entry → Type 0 };

    // Which acts a root allows.
    ghost may: { Self.Root → Self.Act → Type 0 };

    // What the root, the list before, the act, its answer and the list after have to do with each other.
    ghost did: { Self.Root → List Self.Entry → Self.Act → Self.Done → List Self.Entry → Type 0 };

    // The same for the whole value before and after.
    ghost step: { Self → Self.Act → Self.Done → Self → Type 0 };

    /// The number of entries, which is always below 4294967295.
    fn length(&self) -> u32
        ensures counted { result ≡ length (entries self.now) }
        ensures roomy { result < 4294967295 }
        ensures legal { legal (root self.now) (entries self.now) };

    /// Acts on the value. What memory it takes comes from `alloc`.
    fn act<R: Wait>(&mut self, rt: &R, alloc: Global, act: Self::Act) -> Self::Done
        requires { may (root self.old) act }
        ensures root { root self.new ≡ root self.old }
        ensures grows { Grows maker (by act) (entries self.old) (entries self.new) }
        ensures did { did (root self.old) (entries self.old) act result (entries self.new) }
        ensures step { step self.old act result self.new };
}
