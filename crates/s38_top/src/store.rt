//! The commands that are about a store alone.
ghost use Rattle.std.specs.Prelude.{◌≡◌, Some};
ghost use Rattle.s38_top.specs.Ends.{IsSafeOf};
ghost use Rattle.s38_top.specs.Causes.{OfStore};
ghost use Rattle.s38_top.specs.Answered.{refused};

use crate::outcome::Outcome;
use s38_command::Command;
use s38_disk::Disk;
use s38_machine::installed;
use s38_store_file::{OpenStore, StoreRefusal, install, open};
use std::alloc::Global;

/// What was decided, and the disk that was handed in.
#[derive(Drop)]
pub struct Decided<D> {
    pub outcome: Outcome,
    pub disk: D,
}

/// What a store that is refused comes to.
pub fn refused(refusal: StoreRefusal) -> Outcome
    ensures { result ≡ refused refusal }
{
    match refusal {
        StoreRefusal::Bad(bad) => Outcome::Refused(bad),
        StoreRefusal::Failed => Outcome::DiskFault,
        StoreRefusal::NoMemory => Outcome::NoMemory,
    }
}

/// A store is made.
pub fn of_install<D: Disk>(alloc: Global, disk: D) -> Decided<D>
    ensures comes { OfStore Command.Install (D.view disk) (D.view result.disk) result.outcome }
    ensures safe { IsSafeOf (Some Command.Install) (D.view disk) (D.view result.disk) result.outcome }
{
    let Ok(objects) = installed(alloc) else {
        return Decided {
            outcome: Outcome::NoMemory,
            disk,
        };
    };
    match install(alloc, disk, &objects) {
        Ok(disk) => Decided {
            outcome: Outcome::Installed,
            disk,
        },
        Err((disk, refusal)) => Decided {
            outcome: refused(refusal),
            disk,
        },
    }
}

/// The objects of a store are listed.
pub fn of_list<D: Disk>(alloc: Global, disk: D) -> Decided<D>
    ensures comes { OfStore Command.List (D.view disk) (D.view result.disk) result.outcome }
    ensures safe { IsSafeOf (Some Command.List) (D.view disk) (D.view result.disk) result.outcome }
{
    match open(alloc, disk) {
        Ok(
            OpenStore {
                vault,
                objects,
                room: _room,
            },
        ) => Decided {
            outcome: Outcome::Listed(objects),
            disk: vault.release(),
        },
        Err((disk, refusal)) => Decided {
            outcome: refused(refusal),
            disk,
        },
    }
}
