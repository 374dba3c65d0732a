// The properties of statements and of models in print, each behind a blank.
use crate::query::put_query;
use crate::tokens::put_each;
use mesh_base_values::{ColType, Columns, Cron, Kind, Name, Str, Unit};
use mesh_cases::Pen;
use mesh_model_statement::Parts;
use mesh_model_statement::model::ModelText;
use mesh_query_tokens::Tokens;

fn put_name(pen: &mut Pen, name: &Name) {
    pen.word(name.schema.as_slice());
    pen.put(b".");
    pen.put(name.model.as_slice());
}

fn put_kind(pen: &mut Pen, kind: &Kind, path: &Option<Str>, path_at: u64) {
    match kind {
        Kind::Full => pen.word(b"full"),
        Kind::View => pen.word(b"view"),
        Kind::Seed => pen.word(b"seed"),
        Kind::Incremental { time, lookback } => {
            pen.word(b"by");
            pen.word(time.as_slice());
            put_count(pen, b"back", u64::from(*lookback));
        }
    }
    if let Some(path) = path {
        pen.word(path.as_slice());
        put_count(pen, b"at", path_at);
    }
}

fn put_count(pen: &mut Pen, word: &[u8], count: u64) {
    pen.word(word);
    pen.put(b" ");
    pen.count(count);
}

fn put_cron(pen: &mut Pen, cron: &Cron) {
    put_count(pen, b"hours", u64::from(cron.hour));
}

fn put_unit(pen: &mut Pen, unit: Unit) {
    pen.word(if unit == Unit::Hour { b"hour" } else { b"day" });
}

fn put_start(pen: &mut Pen, start: Option<i32>) {
    if let Some(day) = start {
        pen.word(b"from ");
        pen.number(i64::from(day));
    }
}

fn put_columns(pen: &mut Pen, columns: &Columns) {
    for column in columns.as_slice() {
        pen.word(column.name.as_slice());
        pen.word(match column.kind {
            ColType::Int => b"I",
            ColType::Text => b"T",
            ColType::Date => b"D",
            ColType::Bool => b"B",
        });
    }
}

fn put_audits(pen: &mut Pen, audits: &Tokens) {
    if !audits.is_empty() {
        pen.word(b"audits");
        put_each(pen, audits);
    }
}

/// The properties that are there.
pub fn put_parts(pen: &mut Pen, parts: &Parts, end: u64, rest: usize) {
    if let Some(name) = &parts.name {
        put_name(pen, name);
    }
    if let Some(kind) = &parts.kind {
        put_kind(pen, &kind.kind, &kind.path, kind.path_at);
    }
    if let Some(cron) = &parts.cron {
        put_cron(pen, cron);
    }
    if let Some(unit) = parts.unit {
        put_unit(pen, unit);
    }
    put_start(pen, parts.start);
    put_columns(pen, &parts.columns);
    put_audits(pen, &parts.audits);
    put_count(pen, b"to", end);
    put_count(pen, b"left", rest as u64);
}

pub fn put_model(pen: &mut Pen, model: &ModelText) {
    put_name(pen, &model.name);
    put_kind(pen, &model.kind, &model.path, model.path_at);
    put_cron(pen, &model.cron);
    put_unit(pen, model.unit);
    put_start(pen, model.start);
    put_columns(pen, &model.columns);
    put_audits(pen, &model.audits);
    if let Some(query) = &model.query {
        put_count(pen, b"query", query.at);
        pen.put(b" ");
        put_query(pen, query);
    }
}
