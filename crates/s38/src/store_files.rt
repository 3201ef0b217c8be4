//! The file of the store: it is opened by its path, and no other run gets it as long as one looks at it.
ghost use Rattle.std.specs.Prelude.{ℕ, List, IfNone, IfSome};
ghost use Rattle.s38.specs.StoreFiles.{IsAttached, IsRefused};

use s38_disk::FileDisk;

/// The files of a system, each a disk as soon as it is open.
pub trait StoreFiles<D> {
    /// No block of the disk was written or synced, and none of its calls has failed.
    ghost is_fresh: { D → Type 0 };

    /// The disk is over the file of that path.
    ghost is_of: { D → List ℕ → Type 0 };

    /// Nobody else gets the lock of its file as long as the disk is there; or its file system has no locks.
    ghost is_held: { D → Type 0 };

    /// The file of that path can't be opened.
    ghost is_shut: { List ℕ → Type 0 };

    /// Another has the lock of the file of that path.
    ghost is_taken: { List ℕ → Type 0 };

    /// Opens the file of a path, which is made, and empty, where there is none. No block is read.
    fn open(&self, path: &str) -> Option<D>
        ensures fresh { IfSome result is_fresh }
        ensures named { IfSome result (λ disk. is_of disk path.now) }
        ensures shut { IfNone result (is_shut path.now) };

    /// Asks for the lock of a file that is open. No block is read.
    fn hold(&self, disk: D) -> Option<D>
        ensures held { IfSome result is_held }
        ensures fresh { IfSome result (λ kept. is_fresh disk → is_fresh kept) }
        ensures named { IfSome result (λ kept. (path : List ℕ) → is_of disk path → is_of kept path) }
        ensures taken { IfNone result ((path : List ℕ) → is_of disk path → is_taken path) };
}

/// Those of the system. It tells nothing of them: that the file of the path is opened, that the lock is that of this file, and
/// that no other run gets it, is trusted, and tried by tests.
#[derive(Drop)]
pub struct SystemFiles<'a> {
    pub rt: &'a HostRuntime,
}

impl<'a> StoreFiles<FileDisk> for SystemFiles<'a> {
    ghost use Rattle.std.specs.Prelude.{◌≡◌};
    ghost use Rattle.s38.specs.StoreFiles.{fresh_store};

    ghost is_fresh = { λ disk. disk ≡ fresh_store };

    ghost is_of = { λ disk path. Unit {0} };

    ghost is_held = { λ disk. Unit {0} };

    ghost is_shut = { λ path. Unit {0} };

    ghost is_taken = { λ path. Unit {0} };

    fn open(&self, path: &str) -> Option<FileDisk> {
        match FileDisk::attach(self.rt, path) {
            Err(_) => None,
            Ok(disk) => Some(disk),
        }
    }

    fn hold(&self, disk: FileDisk) -> Option<FileDisk> {
        if disk.try_lock() { Some(disk) } else { None }
    }
}

/// The disk over the file of a path, which is held where the store is looked at. None where the file can't be opened, or is to
/// be held and another has it. No block is read: the files are not known to be disks here.
pub fn attach<D, F: StoreFiles<D>>(files: &F, path: &str, looks: bool) -> Option<D>
    ensures attached { IfSome result (IsAttached F.is_fresh F.is_of F.is_held looks path.now) }
    ensures refused { IfNone result (IsRefused F.is_shut F.is_taken looks path.now) }
{
    let disk = files.open(path)?;
    if looks { files.hold(disk) } else { Some(disk) }
}
