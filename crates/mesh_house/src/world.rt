// What a warehouse has, and the changes that can be made to it.
ghost use Rattle.mesh_base_values.specs.Names.{name_cmp};
ghost use Rattle.mesh_base_values.specs.NameOrder.{names_exact, names_total};

use crate::objects::Objects;
use crate::sources::SourceTables;
use mesh_base::{Forgets, Marks, Own, Refs, Renames, Snapshot};
use mesh_base_values::{Columns, Name, Pairs, Rows, Str};
use mesh_house_book::Book;
use mesh_list::{Keyed, Seq, Sorted};
use std::cmp::Ordering;

/// A view, and the object that it points at.
pub struct ViewOf {
    pub view: Name,
    pub target: Name,
}

impl Drop for ViewOf {
    fn drop(self) {
        let ViewOf { view: _, target: _ } = self;
    }
}

/// All that a warehouse has, each list in strictly ascending order of its names. The schemas of objects have two
/// underscores that adjoin somewhere, and those of sources have none.
pub struct World {
    pub sources: SourceTables,
    pub objects: Objects,
    pub views: Sorted<ViewOf>,
    pub book: Book,
}

impl Drop for World {
    fn drop(self) {
        let World {
            sources: _,
            objects: _,
            views: _,
            book: _,
        } = self;
    }
}

/// One change of a world. Where the world lacks what a change needs, nothing in it changes. Seconds count from
/// 1970-01-01T00:00:00 UTC.
pub enum Change {
    /// The book's moment is this second from now on, unless it is a later one.
    Moment {
        t: i64,
    },
    /// The source has these columns and rows from now on, after its old rows where `keep` says so. A schema where two
    /// underscores adjoin is no source's.
    Load {
        name: Name,
        columns: Columns,
        rows: Rows,
        keep: bool,
    },
    /// The snapshot is in the book, instead of one of its name and fingerprint, and its object has a version.
    PutSnapshot {
        snapshot: Snapshot,
    },
    /// An empty table is put at its place, and its version is made. Its schema has to have two underscores that adjoin.
    MakeTable {
        object: Name,
        columns: Columns,
    },
    /// A stored query is put at its place, and its version is made. The same holds of its schema.
    MakeView {
        object: Name,
        columns: Columns,
        own: Own,
        targets: Pairs,
    },
    /// The rows of a table that is there are these from now on.
    ReplaceRows {
        object: Name,
        rows: Rows,
    },
    /// The rows of a table whose column `time` lies in the seconds from `start` up to `end`, which is not one of them,
    /// go, and these come after the rest.
    WriteRange {
        object: Name,
        time: Str,
        start: i64,
        end: i64,
        rows: Rows,
    },
    /// The version has the rows of these seconds from now on.
    RecordRange {
        object: Name,
        start: i64,
        end: i64,
    },
    /// The version's rows were computed for these last ticks.
    RecordMarks {
        object: Name,
        marks: Marks,
    },
    /// The environment is to have this list from now on, and keeps what it had until it is finalized.
    SetPending {
        env: Str,
        list: Refs,
        expires: Option<i64>,
    },
    /// The view points at this object from now on.
    PointView {
        view: Name,
        target: Name,
    },
    /// The view goes.
    DropView {
        view: Name,
    },
    /// The environment has its list and nothing else.
    Finalize {
        env: Str,
    },
    /// The environment may go.
    Expire {
        env: Str,
    },
    /// The version goes.
    ForgetVersion {
        object: Name,
    },
    /// The object goes, with what it keeps.
    DropObject {
        object: Name,
    },
    /// The snapshot goes.
    DeleteSnapshot {
        name: Name,
        fingerprint: [u8; 32],
    },
    /// The environment goes.
    DeleteEnv {
        env: Str,
    },
    /// What is recorded of units and marks goes, so that their rows are computed again.
    ForgetUnits {
        list: Forgets,
    },
    /// The snapshots that the map names have their new fingerprints from now on, wherever the book speaks of them,
    /// and the book is of the new version. Nothing else in the world changes.
    Migrate {
        map: Renames,
    },
}

impl Drop for Change {
    fn drop(self) {
        match self {
            Change::Moment { t: _ }
            | Change::Load {
                name: _,
                columns: _,
                rows: _,
                keep: _,
            }
            | Change::PutSnapshot { snapshot: _ }
            | Change::MakeTable {
                object: _,
                columns: _,
            }
            | Change::MakeView {
                object: _,
                columns: _,
                own: _,
                targets: _,
            }
            | Change::ReplaceRows { object: _, rows: _ }
            | Change::WriteRange {
                object: _,
                time: _,
                start: _,
                end: _,
                rows: _,
            }
            | Change::RecordRange {
                object: _,
                start: _,
                end: _,
            }
            | Change::RecordMarks {
                object: _,
                marks: _,
            }
            | Change::SetPending {
                env: _,
                list: _,
                expires: _,
            }
            | Change::PointView { view: _, target: _ }
            | Change::DropView { view: _ }
            | Change::Finalize { env: _ }
            | Change::Expire { env: _ }
            | Change::ForgetVersion { object: _ }
            | Change::DropObject { object: _ }
            | Change::DeleteSnapshot {
                name: _,
                fingerprint: _,
            }
            | Change::DeleteEnv { env: _ }
            | Change::ForgetUnits { list: _ }
            | Change::Migrate { map: _ } => {}
        }
    }
}

/// Changes in the order in which they are made.
pub type Changes = Seq<Change>;

impl Keyed for ViewOf {
    type Key = Name;

    ghost key = { λ v. v.view };

    ghost order = { name_cmp };

    ghost total = { names_total };

    ghost exact = { names_exact };

    fn compare(&self, other: &Name) -> Ordering {
        self.view.compare(other)
    }

    fn against(&self, other: &ViewOf) -> Ordering {
        self.view.compare(&other.view)
    }
}
