ghost use Rattle.std.specs.Prelude.{◌≡◌, ◌+◌, ◌^◌, ◌<◌, [], IsTrue, IfSome, is_some};
ghost use Rattle.gr_outside.specs.Files.{FilesSeen};
ghost use Rattle.gr_outside.specs.FileCalls.{Loads, Begins, Extends};

use crate::{FileFault, LoadFault};
use std::alloc::Global;

/// Named files: whole ones are loaded, and one at a time is begun and extended.
///
/// Each kind of fault is counted, so that a caller's contract can name its cause: `Failed` comes
/// only from a call in which its count rose. A count is at most 2^64 - 1, and stays there.
pub trait Files {
    /// What the files hold, where they tell it, whether one is begun, and how often each kind of
    /// fault came.
    ghost seen: { Self → FilesSeen };

    /// Reads a whole file of at most `limit` bytes into `into`, in time linear in what is read.
    ///
    /// `TooLong` where the file has more bytes: `into` then has the first `limit + 1` of them.
    /// `Failed` where the file is absent or cannot be read. After each error `into` has a first
    /// part of the file.
    fn load(
        &mut self,
        alloc: Global,
        name: &str,
        limit: usize,
        into: &mut Vec<u8>,
    ) -> Result<(), LoadFault>
        requires empty { into.old.items ≡ [] }
        requires limit { limit + 1 < 2 ^ 64 }
        ensures { Loads (seen self.old) (seen self.new) name.now limit into.new.items result };

    /// Makes a file empty, and from then on the one that `append` extends.
    ///
    /// `Failed` where it cannot be made. After each error no file is begun, and all but the named
    /// one are as before.
    fn begin(&mut self, alloc: Global, name: &str) -> Result<(), FileFault>
        ensures { Begins (seen self.old) (seen self.new) name.now result };

    /// Adds some of the first bytes to the file that is begun, at least one where there is one, and
    /// answers how many.
    ///
    /// `Failed` where it takes none of them. After each error the files are as before.
    fn append(&mut self, alloc: Global, bytes: &[u8]) -> Result<usize, FileFault>
        requires { IsTrue (seen self.old).is_begun }
        ensures { Extends (seen self.old) (seen self.new) bytes.now result };

    /// Where content is told, a name is told as begun exactly where a file is begun.
    ghost begun_told: { (f : Self) → IfSome (seen f).told (λ t. is_some t.begun ≡ (seen f).is_begun) };
}
