// What is to go out of a world.
ghost use Rattle.std.specs.Prelude.{◌≡◌, OnOk, OnErr};
ghost use Rattle.mesh_house_book.specs.Changes.{delete_snapshot, forget_version};
ghost use Rattle.mesh_house.specs.Gone.{MayGo, nothing_gone, settled, thinned};

use crate::outside::{may_wait, thin};
use crate::world::World;
use mesh_base::Ref;
use mesh_base_values::Name;
use mesh_house_book::Book;
use mesh_list::{Duplicate, Memory, Sorted};
use std::alloc::Global;

/// The keys of snapshots, versions and objects that are to go.
pub(crate) struct Gone {
    pub snapshots: Sorted<Ref>,
    pub versions: Sorted<Name>,
    pub objects: Sorted<Name>,
}

impl Drop for Gone {
    fn drop(self) {
        let Gone {
            snapshots: _,
            versions: _,
            objects: _,
        } = self;
    }
}

impl Gone {
    /// Nothing is to go. It takes no memory.
    pub fn new(alloc: Global) -> Gone
        ensures { result ≡ nothing_gone }
    {
        Gone {
            snapshots: Sorted::new(alloc),
            versions: Sorted::new(alloc),
            objects: Sorted::new(alloc),
        }
    }
}

// The book loses what is to go of it.
fn thin_out(book: &mut Book, gone: &Gone)
    ensures { book.new ≡ thinned book.old gone.now }
{
    thin(&mut book.snapshots, gone.snapshots.as_slice());
    thin(&mut book.versions, gone.versions.as_slice());
}

/// Takes out what is to go, with one pass over each list that loses items, and without memory.
pub(crate) fn settle(world: &mut World, gone: &mut Gone)
    ensures world { world.new ≡ settled world.old gone.old }
    ensures gone { gone.new ≡ nothing_gone }
{
    thin_out(&mut world.book, gone);
    world.objects.remove_all(gone.objects.as_slice());
    *gone = Gone::new(gone.objects.alloc());
}

/// The version goes, now or later. At `Err` nothing has changed.
pub(crate) fn version_goes(book: &mut Book, gone: &mut Gone, object: &Name) -> Result<(), Memory>
    requires { MayGo book.old gone.old }
    ensures ok { OnOk result (thinned book.new gone.new ≡ forget_version (thinned book.old gone.old) object.now) }
    ensures err { OnErr result (thinned book.new gone.new ≡ thinned book.old gone.old) }
    ensures kept { MayGo book.new gone.new }
    ensures objects { gone.new.objects ≡ gone.old.objects }
{
    let versions = book.versions.as_slice();
    if may_wait(gone.versions.as_slice(), versions) {
        return gone.versions.place(object.copy()?);
    }
    book.forget_version(object);
    Ok(())
}

/// The snapshot goes, now or later. At `Err` nothing has changed.
pub(crate) fn snapshot_goes(
    book: &mut Book,
    gone: &mut Gone,
    name: &Name,
    fingerprint: &[u8; 32],
) -> Result<(), Memory>
    requires { MayGo book.old gone.old }
    ensures ok { OnOk result (thinned book.new gone.new ≡ delete_snapshot (thinned book.old gone.old) (record { name = name.now; fingerprint = fingerprint.now })) }
    ensures err { OnErr result (thinned book.new gone.new ≡ thinned book.old gone.old) }
    ensures kept { MayGo book.new gone.new }
    ensures objects { gone.new.objects ≡ gone.old.objects }
{
    let key = Ref {
        name: name.copy()?,
        fingerprint: *fingerprint,
    };
    let snapshots = book.snapshots.as_slice();
    if may_wait(gone.snapshots.as_slice(), snapshots) {
        return gone.snapshots.place(key);
    }
    book.delete_snapshot(&key);
    Ok(())
}
