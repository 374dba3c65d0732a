//! What the views of a world that is kept well show, each the contract of a function with an empty body: each of them
//! shows rows, whatever is in doubt; so does each model of an apply once all are made; the models of a plan look at
//! nothing but themselves and models before them; and a sweep leaves the views of each environment that stays, at
//! every exit.

mod laws;

pub use laws::{
    every_view_shows_rows, executed_plans_show_rows, plans_are_apart, sweeps_leave_other_views,
};
