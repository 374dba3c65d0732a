// What each kind of change makes of a book. At `Err` the book is as it was.
ghost use Rattle.std.specs.Prelude.{◌≡◌, IfOk, OnErr, OnOk, if◌then◌else◌};
ghost use Rattle.std.specs.Option.{option_copied};
ghost use Rattle.mesh_list.specs.Keyed.{exchanged, found, placed, without};
ghost use Rattle.mesh_base_values.specs.Names.{name_cmp};
ghost use Rattle.mesh_base.specs.Keys.{ref_cmp, ref_itself, snapshot_ref};
ghost use Rattle.mesh_house_book.specs.Changes.{delete_env, delete_snapshot, empty_book, expire, finalize, forget_version, joined, make_table, make_view, new_version, previous_of, put, put_snapshot, raise_moment, record_marks, record_range, set_pending, version_object, with_refs, with_version};

use crate::book::{BOOK_VERSION, Book};
use crate::versions::{Version, Versions};
use mesh_base::{Env, Marks, Ref, Refs, Snapshot};
use mesh_base_values::{Name, Str};
use mesh_list::{Duplicate, Keyed, Memory, Register, Seq, both, together};
use mesh_time::Ranges;
use std::alloc::Global;
use std::mem::drop;

impl Book {
    /// The book that has nothing, which takes no memory.
    pub fn new(alloc: Global) -> Book
        ensures { result ≡ empty_book }
    {
        Book {
            version: BOOK_VERSION,
            moment: 0,
            snapshots: Register::new(alloc),
            versions: Register::new(alloc),
            environments: Register::new(alloc),
        }
    }

    /// The moment is raised to this one. It never goes back.
    pub fn raise_moment(&mut self, moment: i64)
        ensures { self.new ≡ raise_moment self.old moment }
    {
        self.moment = self.moment.max(moment);
    }

    /// The snapshot takes the place of the one with its name and fingerprint, or joins the others. Its object has a
    /// version from now on: a new one isn't made yet.
    pub fn put_snapshot(&mut self, snapshot: Snapshot) -> Result<(), Memory>
        ensures ok { OnOk result (self.new ≡ put_snapshot self.old snapshot) }
        ensures err { OnErr result (self.new ≡ self.old) }
    {
        match key_and_object(&snapshot) {
            Ok((key, object)) => self.put_under(&key, &object, snapshot),
            Err(refused) => {
                drop(snapshot);
                Err(refused)
            }
        }
    }

    // The same for a snapshot whose key and object are copied already.
    fn put_under(&mut self, key: &Ref, object: &Name, snapshot: Snapshot) -> Result<(), Memory>
        requires key { key.now ≡ snapshot_ref snapshot }
        requires object { object.now ≡ snapshot.object }
        ensures ok { OnOk result (self.new ≡ put_snapshot self.old snapshot) }
        ensures err { OnErr result (self.new ≡ self.old) }
    {
        match add_version(&mut self.versions, object) {
            Ok(added) => {
                let done = put(&mut self.snapshots, key, snapshot);
                take_back(&mut self.versions, object, added && done.is_err());
                done
            }
            Err(refused) => {
                drop(snapshot);
                Err(refused)
            }
        }
    }

    /// The object is a new table: its version, where there is one, is made and has no ranges and no marks.
    pub fn make_table(&mut self, object: &Name) -> Result<(), Memory>
        ensures ok { OnOk result (self.new ≡ make_table self.old object.now) }
        ensures err { OnErr result (self.new ≡ self.old) }
    {
        let had = blank_at(&mut self.versions, object)?;
        match had {
            None => Ok(()),
            Some(mut version) => {
                version.made = true;
                version.ranges = Ranges::new(object.schema.alloc());
                version.marks = None;
                drop(self.versions.exchange(version));
                Ok(())
            }
        }
    }

    /// The object stores a query: its version, where there is one, is made, without marks. Its ranges stay.
    pub fn make_view(&mut self, object: &Name) -> Result<(), Memory>
        ensures ok { OnOk result (self.new ≡ make_view self.old object.now) }
        ensures err { OnErr result (self.new ≡ self.old) }
    {
        let had = blank_at(&mut self.versions, object)?;
        match had {
            None => Ok(()),
            Some(mut version) => {
                version.made = true;
                version.marks = None;
                drop(self.versions.exchange(version));
                Ok(())
            }
        }
    }

    /// The version's ranges gain the seconds that are at least `start` and below `end`.
    pub fn record_range(&mut self, object: &Name, start: i64, end: i64) -> Result<(), Memory>
        ensures ok { OnOk result (self.new ≡ record_range self.old object.now start end) }
        ensures err { OnErr result (self.new ≡ self.old) }
    {
        if start >= end {
            return Ok(());
        }
        let had = blank_at(&mut self.versions, object)?;
        match had {
            None => Ok(()),
            Some(mut version) => {
                let recorded = version.ranges.add(start, end);
                drop(self.versions.exchange(version));
                recorded
            }
        }
    }

    /// The version's marks are these.
    pub fn record_marks(&mut self, object: &Name, marks: Marks) -> Result<(), Memory>
        ensures ok { OnOk result (self.new ≡ record_marks self.old object.now marks) }
        ensures err { OnErr result (self.new ≡ self.old) }
    {
        let had = blank_at(&mut self.versions, object)?;
        match had {
            None => Ok(()),
            Some(mut version) => {
                version.marks = Some(marks);
                drop(self.versions.exchange(version));
                Ok(())
            }
        }
    }

    /// The environment is pending, with this list and this expiry. It keeps what it listed before as its previous list.
    pub fn set_pending(&mut self, name: Str, list: Refs, expires: Option<i64>) -> Result<(), Memory>
        ensures ok { OnOk result (self.new ≡ set_pending self.old name list expires) }
        ensures err { OnErr result (self.new ≡ self.old) }
    {
        let previous = previous_of(name.alloc(), self.environments.find(&name));
        let (key, previous) = together(name.copy(), previous)?;
        let env = Env {
            name,
            pending: true,
            list,
            previous,
            expires,
        };
        put(&mut self.environments, &key, env)
    }

    /// The environment is no longer pending, and its previous list is empty.
    pub fn finalize(&mut self, name: &Str) -> Result<(), Memory>
        ensures ok { OnOk result (self.new ≡ finalize self.old name.now) }
        ensures err { OnErr result (self.new ≡ self.old) }
    {
        let blank = blank_env(name)?;
        match self.environments.exchange(blank) {
            None => Ok(()),
            Some(mut env) => {
                env.pending = false;
                env.previous = Seq::new(name.alloc());
                drop(self.environments.exchange(env));
                Ok(())
            }
        }
    }

    /// The environment's expiry is 0.
    pub fn expire(&mut self, name: &Str) -> Result<(), Memory>
        ensures ok { OnOk result (self.new ≡ expire self.old name.now) }
        ensures err { OnErr result (self.new ≡ self.old) }
    {
        let blank = blank_env(name)?;
        match self.environments.exchange(blank) {
            None => Ok(()),
            Some(mut env) => {
                env.expires = Some(0);
                drop(self.environments.exchange(env));
                Ok(())
            }
        }
    }

    /// Takes the version of this object out, where there is one.
    pub fn forget_version(&mut self, object: &Name)
        ensures { self.new ≡ forget_version self.old object.now }
    {
        drop(self.versions.remove(object));
    }

    /// Takes the snapshot of this key out, where there is one.
    pub fn delete_snapshot(&mut self, key: &Ref)
        ensures { self.new ≡ delete_snapshot self.old key.now }
    {
        drop(self.snapshots.remove(key));
    }

    /// Takes the environment of this name out, where there is one.
    pub fn delete_env(&mut self, name: &Str)
        ensures { self.new ≡ delete_env self.old name.now }
    {
        drop(self.environments.remove(name));
    }
}

fn put<T: Keyed>(list: &mut Register<T>, key: &T::Key, item: T) -> Result<(), Memory>
    requires { key.now ≡ T.key item }
    ensures ok { OnOk result (list.new ≡ put T.order T.key item list.old) }
    ensures err { OnErr result (list.new ≡ list.old) }
{
    if list.find(key).is_some() {
        list.exchange(item);
        return Ok(());
    }
    list.place(item)?;
    Ok(())
}

// A snapshot's key, and its object.
fn key_and_object(snapshot: &Snapshot) -> Result<(Ref, Name), Memory>
    ensures { IfOk result (λ made. made ≡ (snapshot_ref snapshot.now, snapshot.now.object)) }
{
    let (name, object) = both(&snapshot.name, &snapshot.object)?;
    Ok((
        Ref {
            name,
            fingerprint: snapshot.fingerprint,
        },
        object,
    ))
}

// Gives the object a version where it has none, and answers whether it did. Without that version the versions are as
// before.
fn add_version(versions: &mut Versions, object: &Name) -> Result<bool, Memory>
    ensures ok { OnOk result (versions.new ≡ with_version (found name_cmp version_object object.now versions.old) object.now versions.old) }
    ensures back { IfOk result (λ added. (if added then without name_cmp version_object object.now versions.new else versions.new) ≡ versions.old) }
    ensures err { OnErr result (versions.new ≡ versions.old) }
{
    if versions.find(object).is_some() {
        return Ok(false);
    }
    versions.place(unmade(object.copy()?))?;
    Ok(true)
}

// Takes the object's version out, if that is wanted.
fn take_back(versions: &mut Versions, object: &Name, wanted: bool)
    ensures { versions.new ≡ (if wanted then without name_cmp version_object object.now versions.old else versions.old) }
{
    if wanted {
        versions.remove(object);
    }
}

fn unmade(object: Name) -> Version
    ensures { result ≡ new_version object }
{
    let alloc = object.schema.alloc();
    Version {
        object,
        made: false,
        ranges: Ranges::new(alloc),
        marks: None,
    }
}

// Puts a version that isn't made in the place of the object's, where it has one, and answers that.
fn blank_at(versions: &mut Versions, object: &Name) -> Result<Option<Version>, Memory>
    ensures value { IfOk result (λ had. had ≡ found name_cmp version_object object.now versions.old) }
    ensures rest { OnOk result (versions.new ≡ exchanged name_cmp version_object (new_version object.now) versions.old) }
    ensures err { OnErr result (versions.new ≡ versions.old) }
{
    let blank = unmade(object.copy()?);
    Ok(versions.exchange(blank))
}

// What stands for an environment while it is changed.
fn blank_env(name: &Str) -> Result<Env, Memory>
    ensures { IfOk result (λ e. e.name ≡ name.now) }
{
    Ok(Env {
        name: name.copy()?,
        pending: false,
        list: Seq::new(name.alloc()),
        previous: Seq::new(name.alloc()),
        expires: None,
    })
}

fn add_ref(r: &Ref, all: &mut Register<Ref>) -> Result<(), Memory>
    ensures { OnOk result (all.new ≡ placed ref_cmp ref_itself r.now all.old) }
{
    all.place(r.copy()?)
}

fn add_refs(refs: &[Ref], all: &mut Register<Ref>) -> Result<(), Memory>
    ensures { OnOk result (all.new ≡ with_refs all.old refs.now) }
{
    for r in refs {
        add_ref(r, all)?;
    }
    Ok(())
}

fn joined(list: &Refs, previous: &Refs) -> Result<Refs, Memory>
    ensures { IfOk result (λ all. all ≡ joined list.now previous.now) }
{
    let mut all = Register::new(list.alloc());
    add_refs(list.as_slice(), &mut all)?;
    add_refs(previous.as_slice(), &mut all)?;
    Ok(Seq::from_vec(all.into_vec()))
}

fn previous_of(alloc: Global, env: Option<&Env>) -> Result<Refs, Memory>
    ensures { IfOk result (λ refs. refs ≡ previous_of (option_copied env.entry)) }
{
    match env {
        None => Ok(Seq::new(alloc)),
        Some(env) if env.pending => joined(&env.list, &env.previous),
        Some(env) => env.list.copy(),
    }
}
