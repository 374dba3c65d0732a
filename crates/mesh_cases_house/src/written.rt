// How a world and a book are written: a word or a number for each thing in it.
use mesh_base::{Env, Input, Ref, Refs, Snapshot};
use mesh_base_values::{Cell, Columns, Name, Pair, Row, Rows};
use mesh_cases::Pen;
use mesh_house::{Body, Object, ViewOf, World};
use mesh_house_book::{Book, Version};

fn put_next(pen: &mut Pen, number: i64) {
    pen.put(b" ");
    pen.number(number);
}

fn begin(pen: &mut Pen, word: &[u8], name: &Name) {
    pen.put(b";");
    pen.word(word);
    put_name(pen, name);
}

pub fn put_name(pen: &mut Pen, name: &Name) {
    pen.word(name.schema.as_slice());
    pen.put(b".");
    pen.put(name.model.as_slice());
}

pub fn put_columns(pen: &mut Pen, columns: &Columns) {
    for column in columns.as_slice() {
        pen.word(column.name.as_slice());
    }
}

/// The number at the end of a row.
fn put_row(pen: &mut Pen, row: &Row) {
    if let Some(Cell::Int(number)) = row.get(1) {
        put_next(pen, *number);
    }
}

pub fn put_rows(pen: &mut Pen, rows: &Rows) {
    for row in rows.as_slice() {
        put_row(pen, row);
    }
}

fn put_targets(pen: &mut Pen, targets: &[Pair]) {
    for target in targets {
        put_name(pen, &target.first);
        put_name(pen, &target.second);
    }
}

pub fn put_body(pen: &mut Pen, body: &Body) {
    match body {
        Body::Rows(rows) => put_rows(pen, rows),
        Body::Stored { own, targets } => {
            pen.word(b"stores");
            put_name(pen, &own.name);
            put_targets(pen, targets.as_slice());
        }
    }
}

fn put_sources(pen: &mut Pen, sources: &[Input]) {
    for source in sources {
        begin(pen, b"source", &source.name);
        put_columns(pen, &source.columns);
        put_rows(pen, &source.rows);
    }
}

fn put_objects(pen: &mut Pen, objects: &[Object]) {
    for object in objects {
        begin(pen, b"object", &object.name);
        put_columns(pen, &object.columns);
        put_body(pen, &object.body);
    }
}

fn put_views(pen: &mut Pen, views: &[ViewOf]) {
    for view in views {
        begin(pen, b"view", &view.view);
        put_name(pen, &view.target);
    }
}

fn put_numbers(pen: &mut Pen, numbers: &[i64]) {
    for number in numbers {
        put_next(pen, *number);
    }
}

fn put_version(pen: &mut Pen, version: &Version) {
    begin(pen, b"version", &version.object);
    pen.word(if version.made { b"made" } else { b"new" });
    for span in version.ranges.spans().as_slice() {
        put_next(pen, span.start);
        put_next(pen, span.end);
    }
    if let Some(marks) = &version.marks {
        pen.word(b"marks");
        put_numbers(pen, marks.as_slice());
    }
}

fn put_refs(pen: &mut Pen, word: &[u8], refs: &Refs) {
    pen.word(word);
    for r in refs.as_slice() {
        put_name(pen, &r.name);
    }
}

fn put_env(pen: &mut Pen, env: &Env) {
    pen.put(b"; environment");
    pen.word(env.name.as_slice());
    pen.word(if env.pending { b"pending" } else { b"final" });
    put_refs(pen, b"list", &env.list);
    put_refs(pen, b"previous", &env.previous);
    if let Some(expires) = env.expires {
        put_next(pen, expires);
    }
}

fn put_reference(pen: &mut Pen, name: &Name, fingerprint: &[u8; 32]) {
    put_name(pen, name);
    pen.put(b"/");
    pen.number(i64::from(fingerprint[0]));
}

fn put_references(pen: &mut Pen, word: &[u8], refs: &[Ref]) {
    pen.word(word);
    for r in refs {
        put_reference(pen, &r.name, &r.fingerprint);
    }
}

fn put_snapshot_references(pen: &mut Pen, snapshots: &[Snapshot]) {
    for snapshot in snapshots {
        pen.put(b"; snapshot");
        put_reference(pen, &snapshot.name, &snapshot.fingerprint);
        put_references(pen, b"parents", snapshot.parents.as_slice());
    }
}

fn put_env_references(pen: &mut Pen, environments: &[Env]) {
    for env in environments {
        pen.put(b"; environment");
        pen.word(env.name.as_slice());
        put_references(pen, b"list", env.list.as_slice());
        put_references(pen, b"previous", env.previous.as_slice());
    }
}

/// The version of a book, and each reference in it with its fingerprint.
pub fn put_fingerprints(pen: &mut Pen, book: &Book) {
    put_next(pen, i64::from(book.version));
    put_snapshot_references(pen, book.snapshots.as_slice());
    put_env_references(pen, book.environments.as_slice());
}

fn put_snapshots(pen: &mut Pen, snapshots: &[Snapshot]) {
    for snapshot in snapshots {
        begin(pen, b"snapshot", &snapshot.name);
        put_next(pen, i64::from(snapshot.rank));
    }
}

fn put_versions(pen: &mut Pen, versions: &[Version]) {
    for version in versions {
        put_version(pen, version);
    }
}

fn put_envs(pen: &mut Pen, environments: &[Env]) {
    for env in environments {
        put_env(pen, env);
    }
}

/// The snapshots, the versions and the environments of a book.
pub fn put_book(pen: &mut Pen, book: &Book) {
    put_snapshots(pen, book.snapshots.as_slice());
    put_versions(pen, book.versions.as_slice());
    put_envs(pen, book.environments.as_slice());
}

fn count_of_spans(versions: &[Version]) -> usize {
    let mut spans = 0usize;
    for version in versions {
        spans = spans.saturating_add(version.ranges.spans().len());
    }
    spans
}

/// How many snapshots a book has, and how many spans its versions.
pub fn put_counts(pen: &mut Pen, book: &Book) {
    pen.put(b"snapshots ");
    pen.count(book.snapshots.as_slice().len() as u64);
    pen.put(b", spans ");
    pen.count(count_of_spans(book.versions.as_slice()) as u64);
}

/// The moment, and then all that a world has.
pub fn put_world(pen: &mut Pen, world: &World) {
    pen.number(world.book.moment);
    put_sources(pen, world.sources.as_slice());
    put_objects(pen, world.objects.as_slice());
    put_views(pen, world.views.as_slice());
    put_book(pen, &world.book);
}
