//! Files.
ghost use Rattle.std.specs.Prelude.{◌≡◌, ◌≤◌, Some, IfSome, IfOk};
ghost use Rattle.outside.specs.Counts.{count_after};
ghost use Rattle.outside.specs.Changes.{has_failed};
ghost use Rattle.outside.specs.ToldStates.{FilesTold};

use crate::faults::Fault;

/// Something that gives the bytes of a file by its name.
pub trait Files {
    /// What they tell: their contents, and how many reads have failed.
    ghost told: { Self → FilesTold };

    /// Reads a whole file. Where the contents are told, a name that isn't there fails.
    fn read(&mut self, name: &str) -> Result<Vec<u8>, Fault>
        ensures same { (told self.new).contents ≡ (told self.old).contents }
        ensures given { let contents = (told self.old).contents in
            IfOk result (λ bytes. IfSome contents (λ named. named name.now ≡ Some bytes.items)) }
        ensures counted { (told self.new).faults ≡ count_after (has_failed result) (told self.old).faults }
        ensures counts { (told self.old).faults ≤ (told self.new).faults };
}
