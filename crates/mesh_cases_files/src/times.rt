// Days and moments.
use mesh_cases::{Pen, Trouble, cell_of, number_of};
use mesh_time_days::casts::is_day_number;
use mesh_time_days::{day_of, day_text, moment_of, moment_text, time_value};

/// Adds a number, or that there is none.
pub fn put_found(pen: &mut Pen, found: Option<i64>) {
    match found {
        Some(number) => pen.number(number),
        None => pen.put(b"none"),
    }
}

fn put_day(pen: &mut Pen, number: &[u8]) -> Result<(), Trouble> {
    let Ok(day) = i32::try_from(number_of(number)?) else {
        return Err(Trouble::Case);
    };
    if !is_day_number(day as i64) {
        return Err(Trouble::Case);
    }
    pen.put(&day_text(day));
    Ok(())
}

fn put_moment(pen: &mut Pen, number: &[u8]) -> Result<(), Trouble> {
    let number = number_of(number)?;
    if number < -62_135_596_800 || number > 253_402_300_799 {
        return Err(Trouble::Case);
    }
    pen.put(&moment_text(number));
    Ok(())
}

fn put_value(pen: &mut Pen, text: &[u8]) -> Result<(), Trouble> {
    let cell = cell_of(pen.alloc(), text)?;
    put_found(pen, time_value(&cell));
    Ok(())
}

/// Makes the call of a word, if it is one of these.
pub fn call(word: &[u8], text: &[u8], pen: &mut Pen) -> Result<bool, Trouble> {
    if word == b"day".as_slice() {
        put_found(pen, day_of(text).map(i64::from));
    } else if word == b"day-text".as_slice() {
        put_day(pen, text)?;
    } else if word == b"moment".as_slice() {
        put_found(pen, moment_of(text));
    } else if word == b"moment-text".as_slice() {
        put_moment(pen, text)?;
    } else if word == b"value".as_slice() {
        put_value(pen, text)?;
    } else {
        return Ok(false);
    }
    Ok(true)
}
