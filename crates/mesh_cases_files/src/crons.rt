// Crons and their ticks.
use crate::answers::put_count;
use mesh_base_values::{Cron, CronFault, Unit};
use mesh_cases::{Pen, Trouble, front_word, halves, number_of};
use mesh_time::{floor, read_cron, ticks_at, unit_of};

/// The last second of 9999-12-31.
const LAST: i64 = 253_402_300_799;

fn put_set(pen: &mut Pen, name: &[u8], set: u64, star: bool) {
    put_count(pen, name, set);
    pen.put(if star { b"*, " } else { b", " });
}

fn put_cron(pen: &mut Pen, cron: &Cron) {
    put_set(pen, b"minute", cron.minute, false);
    put_set(pen, b"hour", u64::from(cron.hour), false);
    put_set(pen, b"day", u64::from(cron.dom), cron.dom_star);
    put_set(pen, b"month", u64::from(cron.month), false);
    put_set(pen, b"weekday", u64::from(cron.dow), cron.dow_star);
    pen.put(match unit_of(cron) {
        Unit::Hour => b"each hour",
        Unit::Day => b"each day",
    });
}

fn put_fault(pen: &mut Pen, fault: CronFault) {
    match fault {
        CronFault::BadField { field } => put_count(pen, b"field", u64::from(field)),
        CronFault::TooFine => pen.put(b"too fine"),
        CronFault::NoTick => pen.put(b"no tick"),
    }
}

fn read(text: &[u8], pen: &mut Pen) {
    match read_cron(text) {
        Ok(cron) => put_cron(pen, &cron),
        Err(fault) => put_fault(pen, fault),
    }
}

fn put_floor(text: &[u8], pen: &mut Pen) -> Result<(), Trouble> {
    let (cron, moment) = halves(text)?;
    let moment = number_of(moment)?;
    let Ok(cron) = read_cron(cron) else {
        return Err(Trouble::Case);
    };
    if moment < 0 || moment > LAST {
        return Err(Trouble::Case);
    }
    pen.number(floor(&cron, moment));
    pen.put_if(ticks_at(&cron, moment), b", tick");
    Ok(())
}

/// The sum of the last ticks of a cron up to so many moments, which begin with 1970 and are a step apart.
fn sum_of_floors(cron: &Cron, step: i64, count: i64) -> Result<i64, Trouble> {
    let mut sum = 0i64;
    for number in 0..count {
        let moment = number.saturating_mul(step);
        if moment < 0 || moment > LAST {
            return Err(Trouble::Case);
        }
        sum = sum.wrapping_add(floor(cron, moment));
    }
    Ok(sum)
}

fn put_floors(text: &[u8], pen: &mut Pen) -> Result<(), Trouble> {
    let (cron, moments) = halves(text)?;
    let (step, count) = front_word(moments);
    let Ok(cron) = read_cron(cron) else {
        return Err(Trouble::Case);
    };
    let sum = sum_of_floors(&cron, number_of(step)?, number_of(count)?)?;
    pen.number(sum);
    Ok(())
}

/// Makes the call of a word, if it is one of these.
pub fn call(word: &[u8], text: &[u8], pen: &mut Pen) -> Result<bool, Trouble> {
    if word == b"cron".as_slice() {
        read(text, pen);
    } else if word == b"floor".as_slice() {
        put_floor(text, pen)?;
    } else if word == b"floors".as_slice() {
        put_floors(text, pen)?;
    } else {
        return Ok(false);
    }
    Ok(true)
}
