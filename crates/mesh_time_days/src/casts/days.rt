// Days and their texts, as functions of one another.
ghost use Rattle.std.specs.Prelude.{◌≡◌, IsTrue};
ghost use Rattle.mesh_time_days.specs.Moments.{IsDayNumber};
ghost use Rattle.mesh_time_days.specs.casts.Dates.{day_named, day_text, is_day_number};

/// The day that a text `YYYY-MM-DD` is, counted from 1970-01-01.
pub fn day_named(text: &[u8]) -> Option<i32>
    ensures { result ≡ day_named text.now }
{
    crate::day_of(text)
}

/// The text `YYYY-MM-DD` of a day.
pub(crate) fn day_written(day: i32) -> [u8; 10]
    requires { IsDayNumber day }
    ensures { result ≡ day_text day }
{
    crate::day_text(day)
}

/// Whether a number is that of a day from 0001-01-01 to 9999-12-31.
pub fn is_day_number(n: i64) -> bool
    ensures value { result ≡ is_day_number n }
    ensures bounds { IsTrue result → IsDayNumber n }
{
    -719_162 <= n && n <= 2_932_896
}
