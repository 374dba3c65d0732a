// How names and categories are shown.
use mesh_base::rules::Project;
use mesh_base::{Categories, Category, Node, Reading};
use mesh_base_values::{Name, Pair};
use mesh_cases::Pen;

fn put_name(pen: &mut Pen, name: &Name) {
    pen.put(name.schema.as_slice());
    pen.put(b".");
    pen.put(name.model.as_slice());
}

/// Adds a line of its own, which begins with four blanks.
fn put_begin(pen: &mut Pen) {
    pen.put(b"\n    ");
}

fn put_reading(pen: &mut Pen, reading: &Reading) {
    put_begin(pen);
    put_name(pen, &reading.relation);
    pen.word(reading.column.as_slice());
}

pub fn put_readings(pen: &mut Pen, readings: &[Reading]) {
    for reading in readings {
        put_reading(pen, reading);
    }
}

fn put_pair(pen: &mut Pen, pair: &Pair) {
    put_begin(pen);
    put_name(pen, &pair.first);
    pen.put(b" reads ");
    put_name(pen, &pair.second);
}

pub fn put_pairs(pen: &mut Pen, pairs: &[Pair]) {
    for pair in pairs {
        put_pair(pen, pair);
    }
}

fn word_of(category: Category) -> &'static [u8] {
    match category {
        Category::Unchanged => b"unchanged",
        Category::Added => b"added",
        Category::Breaking => b"breaking",
        Category::NonBreaking => b"non-breaking",
        Category::IndirectBreaking => b"indirect-breaking",
        Category::IndirectNonBreaking => b"indirect-non-breaking",
    }
}

fn put_category(pen: &mut Pen, node: &Node, category: Category) {
    put_begin(pen);
    pen.put(word_of(category));
    pen.put(b" ");
    put_name(pen, &node.own.name);
}

fn put_removed(pen: &mut Pen, name: &Name) {
    put_begin(pen);
    pen.put(b"removed ");
    put_name(pen, name);
}

/// Adds the category of each model, and the models that are gone.
pub fn put_categories(pen: &mut Pen, nodes: &[Node], found: &Categories) {
    for (node, category) in nodes.iter().zip(found.of.as_slice()) {
        put_category(pen, node, *category);
    }
    for name in found.removed.as_slice() {
        put_removed(pen, name);
    }
}

/// Whether one of these models has the name and the fingerprint of this one.
fn is_there(nodes: &[Node], node: &Node) -> bool {
    for other in nodes {
        if other.own.name.compare(&node.own.name).is_eq() {
            return other.fingerprint == node.fingerprint;
        }
    }
    false
}

fn is_as_before(base: Option<&Project>, node: &Node) -> bool {
    match base {
        Some(base) => is_there(base.as_slice(), node),
        None => false,
    }
}

/// Adds the models that the project before doesn't have with the same fingerprint.
pub fn put_changed(pen: &mut Pen, nodes: &[Node], base: Option<&Project>) {
    for node in nodes {
        if !is_as_before(base, node) {
            put_begin(pen);
            put_name(pen, &node.own.name);
        }
    }
}

fn count_of(found: &Categories, wanted: Category) -> u64 {
    let mut count = 0u64;
    for category in found.of.as_slice() {
        if *category == wanted {
            count = count.saturating_add(1);
        }
    }
    count
}

const ALL: [Category; 6] = [
    Category::Unchanged,
    Category::Added,
    Category::Breaking,
    Category::NonBreaking,
    Category::IndirectBreaking,
    Category::IndirectNonBreaking,
];

/// Adds how many models of each category there are.
pub fn put_counts(pen: &mut Pen, found: &Categories) {
    for category in ALL {
        put_begin(pen);
        pen.put(word_of(category));
        pen.put(b" ");
        pen.count(count_of(found, category));
    }
}
