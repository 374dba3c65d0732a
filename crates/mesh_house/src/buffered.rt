// A world that leaves what goes for later, so that much of it goes in one pass.
ghost use Rattle.std.specs.Prelude.{◌≡◌, IfOk, OnOk, OnErr};
ghost use Rattle.mesh_house_book.specs.Changes.{delete_snapshot, forget_version};
ghost use Rattle.mesh_house.specs.World.{head, body, view, book};
ghost use Rattle.mesh_house.specs.Step.{drop_object, step, with_book, write_range};

use crate::copies::some_copied;
use crate::gone::{Gone, snapshot_goes, version_goes};
use crate::latest::{Latest, settle_known, step, write};
use crate::objects::Body;
use crate::sources::SourceTables;
use crate::world::{Change, World};
use mesh_base_values::{Columns, Name, Rows, Str};
use mesh_house_book::Book;
use mesh_list::{Duplicate, Memory};
use std::alloc::Global;
use std::marker::Model;

/// A world, of which some snapshots, versions and objects are gone already that still lie there.
pub(crate) struct Buffered {
    world: World,
    gone: Gone,
    latest: Option<Latest>,
}

impl Drop for Buffered {
    fn drop(self) {
        let Buffered {
            world: _,
            gone: _,
            latest: _,
        } = self;
    }
}

impl Model for Buffered {
    ghost use Rattle.std.specs.Coded.{codes};
    ghost use Rattle.mesh_base.specs.contracts.expressions.Expr as expr;
    ghost use Rattle.mesh_house.specs.declared.world.World.{World};
    ghost use Rattle.std.specs.Prelude.{◌≡◌, true};
    ghost use Rattle.mesh_house.specs.Gone.{MayGo, settled};
    ghost use Rattle.mesh_house.specs.Latest.{is_known};

    ghost Value = { World };

    ghost coded = { Prim.hlevel (codes, expr.the_row.coded) };

    ghost view = { λ a. settled a.world a.gone };

    ghost invariant = { λ a. MayGo a.world.book a.gone × (is_known a.world a.latest ≡ true) };
}

impl Buffered {
    /// This world. It takes no memory.
    pub fn new(alloc: Global, world: World) -> Buffered
        ensures { result ≡ world }
    {
        Buffered {
            world,
            gone: Gone::new(alloc),
            latest: None,
        }
    }

    /// The world as it stands, where nothing is left to go.
    #[tactic(auto, using(crate::proofs::Settled::settled_nothing))]
    pub fn look(&mut self) -> &World
        ensures { result.now ≡ self.old }
    {
        settle_known(&mut self.world, &mut self.gone, &mut self.latest);
        &self.world
    }

    pub fn sources(&self) -> &SourceTables
        ensures { result.now ≡ self.now.sources }
    {
        &self.world.sources
    }

    pub fn view(&self, name: &Name) -> Result<Option<Name>, Memory>
        ensures { IfOk result (λ target. target ≡ view self.now name.now) }
    {
        match self.world.views.find(name) {
            Some(view) => some_copied(&view.target),
            None => Ok(None),
        }
    }

    #[tactic(auto, using(crate::proofs::Settled::settled_nothing))]
    pub fn head(&mut self, name: &Name) -> Result<Option<Columns>, Memory>
        ensures value { IfOk result (λ columns. columns ≡ head self.old name.now) }
        ensures same { self.new ≡ self.old }
    {
        settle_known(&mut self.world, &mut self.gone, &mut self.latest);
        self.world.head(name)
    }

    #[tactic(auto, using(crate::proofs::Settled::settled_nothing))]
    pub fn body(&mut self, name: &Name) -> Result<Option<Body>, Memory>
        ensures value { IfOk result (λ kept. kept ≡ body self.old name.now) }
        ensures same { self.new ≡ self.old }
    {
        settle_known(&mut self.world, &mut self.gone, &mut self.latest);
        self.world.body(name)
    }

    #[tactic(auto, using(crate::proofs::Settled::settled_nothing))]
    pub fn book(&mut self) -> Result<Book, Memory>
        ensures value { IfOk result (λ made. made ≡ book self.old) }
        ensures same { self.new ≡ self.old }
    {
        settle_known(&mut self.world, &mut self.gone, &mut self.latest);
        self.world.book.copy()
    }

    // The version goes. At `Err` nothing has changed.
    fn forget_version(&mut self, object: &Name) -> Result<(), Memory>
        ensures ok { OnOk result (self.new ≡ with_book self.old (forget_version self.old.book object.now)) }
        ensures err { OnErr result (self.new ≡ self.old) }
    {
        version_goes(&mut self.world.book, &mut self.gone, object)
    }

    // The snapshot goes. At `Err` nothing has changed.
    fn delete_snapshot(&mut self, name: &Name, fingerprint: &[u8; 32]) -> Result<(), Memory>
        ensures ok { OnOk result (self.new ≡ with_book self.old (delete_snapshot self.old.book (record { name = name.now; fingerprint = fingerprint.now }))) }
        ensures err { OnErr result (self.new ≡ self.old) }
    {
        let book = &mut self.world.book;
        snapshot_goes(book, &mut self.gone, name, fingerprint)
    }

    // The object goes. At `Err` nothing has changed.
    fn drop_object(&mut self, object: &Name) -> Result<(), Memory>
        ensures ok { OnOk result (self.new ≡ drop_object self.old object.now) }
        ensures err { OnErr result (self.new ≡ self.old) }
    {
        let _objects = self.world.objects.as_slice();
        self.gone.objects.place(object.copy()?)
    }

    // Writes a table's rows of these seconds. At `Err` nothing has changed.
    #[tactic(auto, using(crate::proofs::Settled::settled_nothing))]
    fn write_range(
        &mut self,
        alloc: Global,
        object: &Name,
        time: &Str,
        start: i64,
        end: i64,
        rows: &Rows,
    ) -> Result<(), Memory>
        ensures ok { OnOk result (self.new ≡ write_range self.old object.now time.now start end rows.now) }
        ensures err { OnErr result (self.new ≡ self.old) }
    {
        settle_known(&mut self.world, &mut self.gone, &mut self.latest);
        write(
            &mut self.world,
            &mut self.latest,
            alloc,
            object,
            time,
            start,
            end,
            rows,
        )
    }

    // Makes the change where nothing is left to go. At `Err` nothing has changed.
    #[tactic(auto, using(crate::proofs::Settled::settled_nothing))]
    fn settled_step(&mut self, alloc: Global, change: &Change) -> Result<(), Memory>
        ensures ok { OnOk result (self.new ≡ step self.old change.now) }
        ensures err { OnErr result (self.new ≡ self.old) }
    {
        settle_known(&mut self.world, &mut self.gone, &mut self.latest);
        step(&mut self.world, &mut self.latest, alloc, change)
    }

    /// Makes the change. At `Err` nothing has changed.
    pub fn step(&mut self, alloc: Global, change: &Change) -> Result<(), Memory>
        ensures ok { OnOk result (self.new ≡ step self.old change.now) }
        ensures err { OnErr result (self.new ≡ self.old) }
    {
        match change {
            Change::ForgetVersion { object } => self.forget_version(object),
            Change::DropObject { object } => self.drop_object(object),
            Change::DeleteSnapshot { name, fingerprint } => self.delete_snapshot(name, fingerprint),
            Change::WriteRange {
                object,
                time,
                start,
                end,
                rows,
            } => self.write_range(alloc, object, time, *start, *end, rows),
            _ => self.settled_step(alloc, change),
        }
    }
}
