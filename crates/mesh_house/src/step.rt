// What a change makes of a world.
ghost use Rattle.std.specs.Prelude.{◌≡◌, [], ◌++◌, true, IfOk, OnOk, OnErr, IsOk, IsTrue};
ghost use Rattle.std.specs.Option.{option_copied};
ghost use Rattle.mesh_house_book.specs.Changes.{at_version, put_snapshot, record_marks, set_pending, delete_snapshot};
ghost use Rattle.mesh_time_days.specs.seconds.Rows.{are_before, rewritten};
ghost use Rattle.mesh_house.specs.Booked.{booked, put_back};
ghost use Rattle.mesh_house.specs.Latest.{ends_body, ends_object};
ghost use Rattle.mesh_house.specs.Objects.{is_physical};
ghost use Rattle.mesh_house.specs.World.{empty_world, object_at, version_of};
ghost use Rattle.mesh_house.specs.Step.{with_object, with_book, kept_rows, load, make_table, make_view, replace_rows, written_object, write_range, point_view, drop_view, drop_object, step};

use crate::copies::{object_of, query_of, some_copied, table_of};
use crate::objects::{Body, Object, Objects};
use crate::sources::SourceTables;
use crate::world::{Change, ViewOf, World};
use mesh_base::{Input, Marks, Own, Ref, Refs, Snapshot};
use mesh_base_values::{Column, Columns, Name, Pairs, Rows, Str, has_two_underscores};
use mesh_house_book::moves::{forget_units, migrate};
use mesh_house_book::{Book, Version};
use mesh_list::{Duplicate, Memory, Seq, Sorted, both, together};
use mesh_time_days::seconds::{add, rewrite};
use std::alloc::Global;
use std::mem::drop;

// A view that stores a query.
fn stored_query(
    name: &Name,
    columns: &Columns,
    own: &Own,
    targets: &Pairs,
) -> Result<Object, Memory>
    ensures { IfOk result (λ made. made ≡ record { name = name.now; columns = columns.now; body = Body.Stored own.now targets.now }) }
{
    object_of(both(name, columns), query_of(own, targets))
}

// A table with these rows.
fn filled_table(name: &Name, columns: &Columns, rows: &Rows) -> Result<Object, Memory>
    ensures { IfOk result (λ made. made ≡ record { name = name.now; columns = columns.now; body = Body.Rows rows.now }) }
{
    object_of(both(name, columns), table_of(rows))
}

// A table that has no rows yet.
fn empty_table(alloc: Global, name: &Name, columns: &Columns) -> Result<Object, Memory>
    ensures { IfOk result (λ made. made ≡ record { name = name.now; columns = columns.now; body = Body.Rows [] }) }
{
    let rows = Seq::new(alloc);
    filled_table(name, columns, &rows)
}

// What stands at a table's place while it is written.
fn blank_table(alloc: Global, name: &Name) -> Result<Object, Memory>
    ensures { IfOk result (λ made. made.name ≡ name.now) }
{
    let columns = Seq::new(alloc);
    empty_table(alloc, name, &columns)
}

// One list of rows after another.
fn joined(front: Rows, back: Rows) -> Result<Rows, Memory>
    ensures { IfOk result (λ all. all ≡ front ++ back) }
{
    let mut all = front.into_vec();
    let mut more = back.into_vec();
    all.append(&mut more)?;
    Ok(Seq::from_vec(all))
}

// A source's rows, where there is one and they are kept.
fn kept_rows(alloc: Global, keep: bool, source: Option<&Input>) -> Result<Rows, Memory>
    ensures { IfOk result (λ rows. rows ≡ kept_rows keep (option_copied source.entry)) }
{
    match source {
        None => Ok(Seq::new(alloc)),
        Some(source) => {
            if keep {
                source.rows.copy()
            } else {
                Ok(Seq::new(alloc))
            }
        }
    }
}

// A source's rows that are kept, and others after them.
fn loaded_rows(
    alloc: Global,
    keep: bool,
    source: Option<&Input>,
    rows: &Rows,
) -> Result<Rows, Memory>
    ensures { IfOk result (λ all. all ≡ kept_rows keep (option_copied source.entry) ++ rows.now) }
{
    let (kept, more) = together(kept_rows(alloc, keep, source), rows.copy())?;
    joined(kept, more)
}

// A source with these rows, after those that are kept.
fn loaded(
    alloc: Global,
    keep: bool,
    source: Option<&Input>,
    name: &Name,
    columns: &Columns,
    rows: &Rows,
) -> Result<Input, Memory>
    ensures { IfOk result (λ made. made ≡ record { name = name.now; columns = columns.now; rows = kept_rows keep (option_copied source.entry) ++ rows.now }) }
{
    let rows = loaded_rows(alloc, keep, source, rows);
    let ((name, columns), rows) = together(both(name, columns), rows)?;
    Ok(Input {
        name,
        columns,
        rows,
    })
}

// Rows that lie in the range go, and others come after the rest. Where all are known to be before `start`, they are not
// looked at. At `Err` nothing has changed.
fn write_rows(
    old: &mut Rows,
    rows: Rows,
    columns: &[Column],
    time: &Str,
    start: i64,
    end: i64,
    behind: bool,
) -> Result<(), Memory>
    requires { IsTrue behind → are_before columns.now time.now start old.old ≡ true }
    ensures ok { OnOk result (old.new ≡ rewritten columns.now time.now start end rows old.old) }
    ensures err { OnErr result (old.new ≡ old.old) }
{
    if behind {
        add(old, rows, columns, time, start, end)
    } else {
        rewrite(old, rows, columns, time, start, end)
    }
}

fn put_snapshot(book: &mut Book, snapshot: &Snapshot) -> Result<(), Memory>
    ensures ok { OnOk result (book.new ≡ put_snapshot book.old snapshot.now) }
    ensures err { OnErr result (book.new ≡ book.old) }
{
    book.put_snapshot(snapshot.copy()?)
}

fn record_marks(book: &mut Book, object: &Name, marks: &Marks) -> Result<(), Memory>
    ensures ok { OnOk result (book.new ≡ record_marks book.old object.now marks.now) }
    ensures err { OnErr result (book.new ≡ book.old) }
{
    book.record_marks(object, marks.copy()?)
}

fn set_pending(book: &mut Book, env: &Str, list: &Refs, expires: &Option<i64>) -> Result<(), Memory>
    ensures ok { OnOk result (book.new ≡ set_pending book.old env.now list.now expires.now) }
    ensures err { OnErr result (book.new ≡ book.old) }
{
    let (env, list) = both(env, list)?;
    book.set_pending(env, list, *expires)
}

fn delete_snapshot(book: &mut Book, name: &Name, fingerprint: &[u8; 32]) -> Result<(), Memory>
    ensures ok { OnOk result (book.new ≡ delete_snapshot book.old (record { name = name.now; fingerprint = fingerprint.now })) }
    ensures err { OnErr result (book.new ≡ book.old) }
{
    let key = Ref {
        name: name.copy()?,
        fingerprint: *fingerprint,
    };
    book.delete_snapshot(&key);
    Ok(())
}

// Makes a change of the book. Changes of tables and views leave it as it is. At `Err` nothing has changed.
fn change_book(book: &mut Book, change: &Change) -> Result<(), Memory>
    ensures ok { OnOk result (book.new ≡ booked book.old change.now) }
    ensures err { OnErr result (book.new ≡ book.old) }
{
    match change {
        Change::Moment { t } => {
            book.raise_moment(*t);
            Ok(())
        }
        Change::PutSnapshot { snapshot } => put_snapshot(book, snapshot),
        Change::RecordRange { object, start, end } => book.record_range(object, *start, *end),
        Change::RecordMarks { object, marks } => record_marks(book, object, marks),
        Change::SetPending { env, list, expires } => set_pending(book, env, list, expires),
        Change::Finalize { env } => book.finalize(env),
        Change::Expire { env } => book.expire(env),
        Change::ForgetVersion { object } => {
            book.forget_version(object);
            Ok(())
        }
        Change::DeleteSnapshot { name, fingerprint } => delete_snapshot(book, name, fingerprint),
        Change::DeleteEnv { env } => {
            book.delete_env(env);
            Ok(())
        }
        Change::ForgetUnits { list } => forget_units(book, list.as_slice()),
        Change::Migrate { map } => migrate(book, map.as_slice()),
        _ => Ok(()),
    }
}

impl Object {
    // The same of a table's rows; a stored query stays.
    fn rewrite(
        &mut self,
        rows: Rows,
        time: &Str,
        start: i64,
        end: i64,
        behind: bool,
    ) -> Result<(), Memory>
        requires { IsTrue behind → ends_body self.old.columns time.now start self.old.body ≡ true }
        ensures ok { OnOk result (self.new ≡ written_object self.old time.now start end rows) }
        ensures err { OnErr result (self.new ≡ self.old) }
    {
        let columns = self.columns.as_slice();
        match &mut self.body {
            Body::Rows(old) => write_rows(old, rows, columns, time, start, end, behind),
            Body::Stored { .. } => Ok(()),
        }
    }
}

impl World {
    /// The world that has nothing, which takes no memory.
    pub fn new(alloc: Global) -> World
        ensures { result ≡ empty_world }
    {
        World {
            sources: SourceTables::new(alloc),
            objects: Objects::new(alloc),
            views: Sorted::new(alloc),
            book: Book::new(alloc),
        }
    }

    /// The object of that name, whose schema has two underscores that adjoin.
    pub fn object_at(&self, name: &Name) -> Option<&Object>
        ensures { option_copied result ≡ object_at self.now name.now }
    {
        if has_two_underscores(name.schema.as_slice()) {
            self.objects.find(name)
        } else {
            None
        }
    }

    fn load(
        &mut self,
        alloc: Global,
        name: &Name,
        columns: &Columns,
        rows: &Rows,
        keep: bool,
    ) -> Result<(), Memory>
        ensures ok { OnOk result (self.new ≡ load self.old name.now columns.now rows.now keep) }
        ensures err { OnErr result (self.new ≡ self.old) }
    {
        if has_two_underscores(name.schema.as_slice()) {
            return Ok(());
        }
        let source = loaded(alloc, keep, self.sources.find(name), name, columns, rows)?;
        self.sources.place(source)
    }

    // The version of an object, where there is one.
    fn version_of(&self, object: &Name) -> Result<Option<Version>, Memory>
        ensures { IfOk result (λ version. version ≡ version_of self.now.book object.now) }
    {
        match self.book.versions.find(object) {
            Some(version) => some_copied(version),
            None => Ok(None),
        }
    }

    // Puts an object at its place. At `Err` the version that was there before is put back.
    fn put_made(&mut self, object: Object, before: Option<Version>) -> Result<(), Memory>
        requires { is_physical object.name ≡ true }
        ensures ok { OnOk result (self.new ≡ with_object self.old object) }
        ensures err { OnErr result (self.new ≡ with_book self.old (at_version before (λ v. v) self.old.book)) }
    {
        match self.objects.place(object) {
            Ok(()) => Ok(()),
            Err(refused) => {
                if let Some(version) = before {
                    self.book.versions.exchange(version);
                }
                Err(refused)
            }
        }
    }

    // The same where the book was changed. Where it wasn't, nothing changes.
    fn put_where(
        &mut self,
        done: Result<(), Memory>,
        object: Object,
        before: Option<Version>,
    ) -> Result<(), Memory>
        requires { is_physical object.name ≡ true }
        ensures ok { OnOk result (IsOk done × (self.new ≡ with_object self.old object)) }
        ensures err { OnErr result (self.new ≡ put_back done before self.old) }
    {
        match done {
            Ok(()) => self.put_made(object, before),
            Err(refused) => Err(refused),
        }
    }

    fn make_table(&mut self, alloc: Global, object: &Name, columns: &Columns) -> Result<(), Memory>
        ensures ok { OnOk result (self.new ≡ make_table self.old object.now columns.now) }
        ensures err { OnErr result (self.new ≡ self.old) }
    {
        if !has_two_underscores(object.schema.as_slice()) {
            return Ok(());
        }
        let made = empty_table(alloc, object, columns);
        let (made, before) = together(made, self.version_of(object))?;
        let done = self.book.make_table(object);
        self.put_where(done, made, before)
    }

    fn make_view(
        &mut self,
        object: &Name,
        columns: &Columns,
        own: &Own,
        targets: &Pairs,
    ) -> Result<(), Memory>
        ensures ok { OnOk result (self.new ≡ make_view self.old object.now columns.now own.now targets.now) }
        ensures err { OnErr result (self.new ≡ self.old) }
    {
        if !has_two_underscores(object.schema.as_slice()) {
            return Ok(());
        }
        let made = stored_query(object, columns, own, targets);
        let (made, before) = together(made, self.version_of(object))?;
        let done = self.book.make_view(object);
        self.put_where(done, made, before)
    }

    fn replace_rows(&mut self, object: &Name, rows: &Rows) -> Result<(), Memory>
        ensures ok { OnOk result (self.new ≡ replace_rows self.old object.now rows.now) }
        ensures err { OnErr result (self.new ≡ self.old) }
    {
        let Some(old) = self.object_at(object) else {
            return Ok(());
        };
        let Body::Rows(_) = &old.body else {
            return Ok(());
        };
        let filled = filled_table(object, &old.columns, rows)?;
        self.objects.place(filled)
    }

    /// The table's rows that lie in the range go, and others come after the rest. Where all that are there are known to
    /// be before `start`, they are not looked at. At `Err` nothing has changed.
    pub(crate) fn write_range(
        &mut self,
        alloc: Global,
        object: &Name,
        time: &Str,
        start: i64,
        end: i64,
        rows: &Rows,
        behind: bool,
    ) -> Result<(), Memory>
        requires { IsTrue behind → ends_object (object_at self.old object.now) time.now start ≡ true }
        ensures ok { OnOk result (self.new ≡ write_range self.old object.now time.now start end rows.now) }
        ensures err { OnErr result (self.new ≡ self.old) }
    {
        if !has_two_underscores(object.schema.as_slice()) {
            return Ok(());
        }
        let (more, blank) = together(rows.copy(), blank_table(alloc, object))?;
        match self.objects.exchange(blank) {
            None => Ok(()),
            Some(mut old) => {
                let done = old.rewrite(more, time, start, end, behind);
                drop(self.objects.exchange(old));
                done
            }
        }
    }

    fn point_view(&mut self, view: &Name, target: &Name) -> Result<(), Memory>
        ensures ok { OnOk result (self.new ≡ point_view self.old view.now target.now) }
        ensures err { OnErr result (self.new ≡ self.old) }
    {
        let (view, target) = both(view, target)?;
        self.views.place(ViewOf { view, target })
    }

    fn drop_view(&mut self, view: &Name)
        ensures { self.new ≡ drop_view self.old view.now }
    {
        let _ = self.views.remove(view);
    }

    fn drop_object(&mut self, object: &Name)
        ensures { self.new ≡ drop_object self.old object.now }
    {
        drop(self.objects.remove(object));
    }

    /// Makes the change. At `Err` nothing has changed.
    pub fn step(&mut self, alloc: Global, change: &Change) -> Result<(), Memory>
        ensures ok { OnOk result (self.new ≡ step self.old change.now) }
        ensures err { OnErr result (self.new ≡ self.old) }
    {
        match change {
            Change::Load {
                name,
                columns,
                rows,
                keep,
            } => self.load(alloc, name, columns, rows, *keep),
            Change::MakeTable { object, columns } => self.make_table(alloc, object, columns),
            Change::MakeView {
                object,
                columns,
                own,
                targets,
            } => self.make_view(object, columns, own, targets),
            Change::ReplaceRows { object, rows } => self.replace_rows(object, rows),
            Change::WriteRange {
                object,
                time,
                start,
                end,
                rows,
            } => self.write_range(alloc, object, time, *start, *end, rows, false),
            Change::PointView { view, target } => self.point_view(view, target),
            Change::DropView { view } => {
                self.drop_view(view);
                Ok(())
            }
            Change::DropObject { object } => {
                self.drop_object(object);
                Ok(())
            }
            _ => change_book(&mut self.book, change),
        }
    }
}
