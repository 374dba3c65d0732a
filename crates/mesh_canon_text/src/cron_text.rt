// Crons, written.
ghost use Rattle.std.specs.Prelude.{◌≡◌, ◌++◌, ◌+◌, ◌≤◌, ◌<◌, ◌^◌, ◌==◌, codes, OnOk};
ghost use Rattle.mesh_canon_text.specs.Text.{◌·◌, behind_commas, commas, cron_text, field_text, fields_text, places};

use crate::number_text::{put, put_number, put_text};
use mesh_base_values::Cron;
use mesh_list::Memory;
use std::alloc::Global;

const EACH_MINUTE: u64 = 0xfff_ffff_ffff_ffff;

const EACH_HOUR: u32 = 0xff_ffff;

const EACH_MONTH: u16 = 0x1ffe;

/// A text of the five fields.
#[tactic(auto, unfolding(crate::specs::Text::cron_text))]
pub(crate) fn put_cron(alloc: Global, out: &mut Vec<u8>, cron: &Cron) -> Result<(), Memory>
    ensures { OnOk result (out.new.items ≡ out.old.items ++ cron_text cron.now) }
{
    let mut fields = Vec::new(alloc);
    put_fields(&mut fields, cron)?;
    put_text(out, fields.as_slice())
}

#[tactic(auto, unfolding(crate::specs::Text::fields_text))]
fn put_fields(out: &mut Vec<u8>, cron: &Cron) -> Result<(), Memory>
    ensures { OnOk result (out.new.items ≡ out.old.items ++ fields_text cron.now) }
{
    put_hours(out, cron)?;
    put_days(out, cron)
}

// The minute and the hour.
fn put_hours(out: &mut Vec<u8>, cron: &Cron) -> Result<(), Memory>
    ensures { OnOk result (out.new.items ≡ out.old.items ++ (field_text (cron.now.minute == 0xfff_ffff_ffff_ffff) 60 cron.now.minute · codes " " · field_text (cron.now.hour == 0xff_ffff) 24 cron.now.hour · codes " ")) }
{
    put_field_then(out, cron.minute == EACH_MINUTE, 60, cron.minute)?;
    put_field_then(out, cron.hour == EACH_HOUR, 24, u64::from(cron.hour))
}

// The day of the month, the month and the day of the week.
fn put_days(out: &mut Vec<u8>, cron: &Cron) -> Result<(), Memory>
    ensures { OnOk result (out.new.items ≡ out.old.items ++ (field_text cron.now.dom_star 32 cron.now.dom · codes " " · field_text (cron.now.month == 0x1ffe) 13 cron.now.month · codes " " · field_text cron.now.dow_star 7 cron.now.dow)) }
{
    put_field_then(out, cron.dom_star, 32, u64::from(cron.dom))?;
    put_field_then(out, cron.month == EACH_MONTH, 13, u64::from(cron.month))?;
    put_field(out, cron.dow_star, 7, u64::from(cron.dow))
}

// A field and a space.
fn put_field_then(out: &mut Vec<u8>, star: bool, count: u32, set: u64) -> Result<(), Memory>
    requires { count ≤ 60 }
    ensures { OnOk result (out.new.items ≡ out.old.items ++ (field_text star count set ++ codes " ")) }
{
    put_field(out, star, count, set)?;
    put(out, b" ")
}

// `*`, or the ascending values of a set with a comma between.
#[tactic(auto, unfolding(crate::specs::Text::field_text))]
fn put_field(out: &mut Vec<u8>, star: bool, count: u32, set: u64) -> Result<(), Memory>
    requires { count ≤ 60 }
    ensures { OnOk result (out.new.items ≡ out.old.items ++ field_text star count set) }
{
    if star {
        put(out, b"*")
    } else {
        put_values(out, count, 0, set)
    }
}

// The places of the digits that are 1, from a place on, with a comma between.
#[tactic(auto, using(crate::proofs::Places::no_places, crate::proofs::Places::first_place, crate::proofs::Places::no_place))]
fn put_values(out: &mut Vec<u8>, count: u32, from: u32, digits: u64) -> Result<(), Memory>
    requires { count + from ≤ 60 }
    ensures { OnOk result (out.new.items ≡ out.old.items ++ commas (places count from digits)) }
{
    if count == 0 {
        return Ok(());
    }
    if digits % 2 == 1 {
        put_number(out, u64::from(from))?;
        return put_more(out, count - 1, from + 1, digits / 2);
    }
    put_values(out, count - 1, from + 1, digits / 2)
}

// The same, each behind a comma.
#[tactic(auto, using(crate::proofs::Places::no_more, crate::proofs::Places::next_place, crate::proofs::Places::not_next))]
fn put_more(out: &mut Vec<u8>, count: u32, from: u32, digits: u64) -> Result<(), Memory>
    requires { count + from ≤ 60 }
    ensures { OnOk result (out.new.items ≡ out.old.items ++ behind_commas (places count from digits)) }
{
    if count == 0 {
        return Ok(());
    }
    if digits % 2 == 1 {
        out.push(b',')?;
        put_number(out, u64::from(from))?;
        return put_more(out, count - 1, from + 1, digits / 2);
    }
    put_more(out, count - 1, from + 1, digits / 2)
}
