// A restart opens the journal again.
ghost use Rattle.std.specs.Prelude.{◌≡◌};
ghost use Rattle.sp_tape.specs.Serves.{ReadiesOrStops};

use crate::entry::Kind;
use sp_disk::disk::Disk;
use sp_journal::journal::OpenError;
use sp_store::store::Store;
use std::alloc::Global;

/// The store in which an entry of a kind is carried out: a restart closes it, and opens it again from its
/// disk.
pub fn ready<D: Disk>(
    alloc: Global,
    store: Store<D>,
    most: u64,
    kind: Kind,
) -> Result<Store<D>, (D, OpenError)>
    requires { store.max ≡ most }
    ensures { ReadiesOrStops D.tells D.content D.may_leave D.moment D.left_since D.faults kind store result }
{
    match kind {
        Kind::Restart => Store::open(alloc, store.into_disk(), most),
        Kind::Flow => Ok(store),
        Kind::Http => Ok(store),
        Kind::Rdp => Ok(store),
    }
}
