// A cron as the sets of its five fields, and why a text is none.
ghost use Rattle.std.specs.Prelude.{◌≡◌, ◌↔◌, IfOk, IsTrue, true};
ghost use Rattle.mesh_base_values.specs.Crons.{is_cron};

use mesh_list::{Duplicate, Memory, Same};
use std::marker::Model;

/// The moments that a crontab's five fields name, by POSIX crontab. A set has bit K where the field matches K: minutes
/// 0 to 59, hours 0 to 23, days of the month 1 to 31, months 1 to 12 and days of the week 0 (Sunday) to 6.
#[derive(Clone, Copy, PartialEq, Eq)]
pub struct Cron {
    pub minute: u64,
    pub hour: u32,
    pub dom: u32,
    pub month: u16,
    pub dow: u8,
    pub dom_star: bool,
    pub dow_star: bool,
}

impl Model for Cron {
    ghost use Rattle.std.specs.Prelude.{IsTrue};
    ghost use Rattle.mesh_base_values.specs.Crons.{CronSets, is_cron};

    ghost Value = { CronSets };

    ghost view = { λ a. record { minute = a.minute; hour = a.hour; dom = a.dom; month = a.month; dow = a.dow; dom_star = a.dom_star; dow_star = a.dow_star } };

    ghost inverse = { λ d. record { minute = d.minute; hour = d.hour; dom = d.dom; month = d.month; dow = d.dow; dom_star = d.dom_star; dow_star = d.dow_star } };

    ghost invariant = { λ a. IsTrue (is_cron (record { minute = a.minute; hour = a.hour; dom = a.dom; month = a.month; dow = a.dow; dom_star = a.dom_star; dow_star = a.dow_star })) };
}

impl Cron {
    /// Each field matches within its bounds, one minute matches, and some day does.
    pub fn rule(&self)
        ensures { IsTrue (is_cron self.now) }
    {
        let _ = &self.hour;
    }
}

/// Why a text is no cron: a field, counted from 1, can't be read (0: there aren't five fields), two minutes match or
/// more, or no day ever matches.
#[derive(Clone, Copy, PartialEq, Eq)]
pub enum CronFault {
    BadField { field: u8 },
    TooFine,
    NoTick,
}

impl Duplicate for Cron {
    fn copy(&self) -> Result<Cron, Memory> {
        Ok(*self)
    }
}

impl Same for Cron {
    fn same(&self, other: &Cron) -> bool {
        self == other
    }
}
