// Definitions, written, and lists of texts.
ghost use Rattle.std.specs.Prelude.{◌≡◌, ◌++◌, codes, IfOk, OnOk};
ghost use Rattle.std.specs.List.{flat_map};
ghost use Rattle.hex.specs.Hex.{encode_lower};
ghost use Rattle.mesh_canon_text.specs.Text.{◌·◌, body_text, cron_text, kind_by, list_of, list_text, lookback_by, node_text, own_by, own_text, own_text_old, parent_text, source_text, start_text, text_of, time_text, unit_word};

use crate::cron_text::put_cron;
use crate::form::Form;
use crate::number_text::{put, put_between, put_number, put_signed, put_text, put_text_behind};
use crate::query_text::put_query;
use crate::value_text::put_name_between;
use crate::written::{Written, put_list, put_list_then};
use mesh_base::{Decl, Defn, Own, Ref, Refs};
use mesh_base_values::{Kind, Str, Strs, Unit};
use mesh_list::{Memory, Seq};
use std::alloc::Global;

// The lookback behind a time column, where it is said.
#[tactic(auto, unfolding(crate::specs::Text::lookback_by))]
fn put_lookback(out: &mut Vec<u8>, form: Form, lookback: u32) -> Result<(), Memory>
    ensures { OnOk result (out.new.items ≡ out.old.items ++ lookback_by form lookback) }
{
    match form {
        Form::Former => Ok(()),
        Form::Current => {
            out.push(b' ')?;
            put_number(out, u64::from(lookback))
        }
    }
}

// The node of an incremental kind.
fn put_incremental(out: &mut Vec<u8>, form: Form, time: &[u8], lookback: u32) -> Result<(), Memory>
    ensures { OnOk result (out.new.items ≡ out.old.items ++ (codes "(incremental " · text_of time.now · lookback_by form lookback · codes ")")) }
{
    put_text_behind(out, b"(incremental ", time)?;
    put_lookback(out, form, lookback)?;
    put(out, b")")
}

#[tactic(auto, unfolding(crate::specs::Text::kind_by))]
fn put_kind(out: &mut Vec<u8>, form: Form, kind: &Kind) -> Result<(), Memory>
    ensures { OnOk result (out.new.items ≡ out.old.items ++ kind_by form kind.now) }
{
    match kind {
        Kind::Full => put(out, b"(full)"),
        Kind::View => put(out, b"(view)"),
        Kind::Seed => put(out, b"(seed)"),
        Kind::Incremental { time, lookback } => put_incremental(
            out,
            form,
            time.as_slice(),
            *lookback,
        ),
    }
}

fn unit_word(unit: Unit) -> &'static [u8]
    ensures { result.now ≡ unit_word unit }
{
    match unit {
        Unit::Hour => b"hour",
        Unit::Day => b"day",
    }
}

// A day, or `none`.
#[tactic(auto, unfolding(crate::specs::Text::start_text))]
fn put_start(out: &mut Vec<u8>, start: Option<i32>) -> Result<(), Memory>
    ensures { OnOk result (out.new.items ≡ out.old.items ++ start_text start) }
{
    match start {
        None => put(out, b"none"),
        Some(day) => put_signed(out, i64::from(day)),
    }
}

// A text, or `none`.
#[tactic(auto, unfolding(crate::specs::Text::time_text))]
fn put_time(out: &mut Vec<u8>, time: &Option<Str>) -> Result<(), Memory>
    ensures { OnOk result (out.new.items ≡ out.old.items ++ time_text time.now) }
{
    match time {
        None => put(out, b"none"),
        Some(time) => put_text(out, time.as_slice()),
    }
}

impl Written for Decl {
    ghost text = { source_text };

    #[tactic(auto, unfolding(crate::specs::Text::source_text))]
    fn put(&self, out: &mut Vec<u8>) -> Result<(), Memory> {
        put_name_between(out, b"(source ", &self.name, b" ")?;
        put_list_then(out, self.columns.as_slice(), b" ")?;
        put_time(out, &self.time)?;
        put(out, b")")
    }
}

#[tactic(auto, unfolding(crate::specs::Text::body_text))]
fn put_body(out: &mut Vec<u8>, body: &Defn) -> Result<(), Memory>
    ensures { OnOk result (out.new.items ≡ out.old.items ++ body_text body.now) }
{
    match body {
        Defn::Seed { columns, rows } => {
            put(out, b"(seed ")?;
            put_list_then(out, columns.as_slice(), b" ")?;
            put_list_then(out, rows.as_slice(), b")")
        }
        Defn::Sql(query) => put_query(out, query),
    }
}

#[tactic(auto, unfolding(crate::specs::Text::own_by))]
fn put_own(alloc: Global, out: &mut Vec<u8>, form: Form, m: &Own) -> Result<(), Memory>
    ensures { OnOk result (out.new.items ≡ out.old.items ++ own_by form m.now) }
{
    put_head(out, form, m)?;
    put_times(alloc, out, m)?;
    put_rest(out, m)
}

// The name and the kind.
fn put_head(out: &mut Vec<u8>, form: Form, m: &Own) -> Result<(), Memory>
    ensures { OnOk result (out.new.items ≡ out.old.items ++ (codes "(own " · text_of m.now.name.schema · codes " " · text_of m.now.name.model · codes " " · kind_by form m.now.kind · codes " ")) }
{
    put_name_between(out, b"(own ", &m.name, b" ")?;
    put_kind(out, form, &m.kind)?;
    put(out, b" ")
}

// The cron, the unit and the start.
fn put_times(alloc: Global, out: &mut Vec<u8>, m: &Own) -> Result<(), Memory>
    ensures { OnOk result (out.new.items ≡ out.old.items ++ (cron_text m.now.cron · codes " " · unit_word m.now.unit · codes " " · start_text m.now.start · codes " ")) }
{
    put_cron(alloc, out, &m.cron)?;
    put_between(out, b" ", unit_word(m.unit), b" ")?;
    put_start(out, m.start)?;
    put(out, b" ")
}

// The sources and the body.
fn put_rest(out: &mut Vec<u8>, m: &Own) -> Result<(), Memory>
    ensures { OnOk result (out.new.items ≡ out.old.items ++ (list_of source_text m.now.sources · codes " " · body_text m.now.defn · codes ")")) }
{
    put_list_then(out, m.sources.as_slice(), b" ")?;
    put_body(out, &m.defn)?;
    put(out, b")")
}

// The line of a parent. A fingerprint is 64 hexadecimal digits of lower case.
#[tactic(auto, unfolding(crate::specs::Text::parent_text))]
fn put_parent(out: &mut Vec<u8>, parent: &Ref) -> Result<(), Memory>
    ensures { OnOk result (out.new.items ≡ out.old.items ++ parent_text parent.now) }
{
    put_name_between(out, b"(parent ", &parent.name, b" ")?;
    put_fingerprint(out, &parent.fingerprint)?;
    put(out, b")\n")
}

fn put_fingerprint(out: &mut Vec<u8>, fingerprint: &[u8; 32]) -> Result<(), Memory>
    ensures { OnOk result (out.new.items ≡ out.old.items ++ encode_lower fingerprint.now) }
{
    let mut digits = [0u8; 64];
    if let Ok(()) = hex::encode_to_slice(*fingerprint, &mut digits) {
        out.extend_from_slice(&digits)?;
    }
    Ok(())
}

fn put_parents(out: &mut Vec<u8>, parents: &[Ref]) -> Result<(), Memory>
    ensures { OnOk result (out.new.items ≡ out.old.items ++ flat_map parent_text parents.now) }
{
    for parent in parents {
        put_parent(out, parent)?;
    }
    Ok(())
}

/// The text of a definition in one form or the other.
pub fn own_by(alloc: Global, form: Form, m: &Own) -> Result<Str, Memory>
    ensures { IfOk result (λ text. text ≡ own_by form m.now) }
{
    let mut out = Vec::new(alloc);
    put_own(alloc, &mut out, form, m)?;
    Ok(Seq::from_vec(out))
}

/// The canonical text of a definition.
pub fn own_text(alloc: Global, m: &Own) -> Result<Str, Memory>
    ensures { IfOk result (λ text. text ≡ own_text m.now) }
{
    own_by(alloc, Form::Current, m)
}

/// The text that a definition had before its kind said a lookback. Stored warehouses of that time have it.
pub fn own_text_old(alloc: Global, m: &Own) -> Result<Str, Memory>
    ensures { IfOk result (λ text. text ≡ own_text_old m.now) }
{
    own_by(alloc, Form::Former, m)
}

/// The text that a model's fingerprint is made of, with the parents in the order given.
#[tactic(auto, unfolding(crate::specs::Text::node_text))]
pub fn node_text(alloc: Global, m: &Own, parents: &Refs) -> Result<Str, Memory>
    ensures { IfOk result (λ text. text ≡ node_text m.now parents.now) }
{
    let mut out = Vec::new(alloc);
    put_own(alloc, &mut out, Form::Current, m)?;
    out.push(b'\n')?;
    put_parents(&mut out, parents.as_slice())?;
    Ok(Seq::from_vec(out))
}

/// The list of these texts, each with its length.
pub fn list_text(alloc: Global, parts: &Strs) -> Result<Str, Memory>
    ensures { IfOk result (λ text. text ≡ list_text parts.now) }
{
    let mut out = Vec::new(alloc);
    put_list(&mut out, parts.as_slice())?;
    Ok(Seq::from_vec(out))
}
