// The word and its seats, and the three kinds of step.
ghost use Rattle.std.specs.Prelude.{◌≡◌, ◌++◌, ◌∷◌, [], ◌<◌, IfOk};
ghost use Rattle.mesh_exec_wave.specs.claims.Claims.{Claims, AreAll, held, drew, told, kept_half, given_half, joined};

use crate::claims::claimed::Claimed;
use atomic_table::{Join, Play, Seat, Split, Table, TableRule};
use std::alloc::{AllocError, Global};

/// The rule of the word, and the step that draws.
#[derive(Clone, Copy)]
pub struct Drawn;

impl TableRule<(), Claimed, ()> for Drawn {
    ghost holds = { λ _ s. Claims s.words s.views };

    ghost first = { λ _. held 64 [] };
}

impl Play<(), Claimed> for Drawn {
    ghost then = { drew };
}

impl Split<Claimed> for Drawn {
    ghost left = { kept_half };

    ghost right = { given_half };
}

impl Join<Claimed> for Drawn {
    ghost both = { joined };

    ghost spent = { held 0 [] };
}

/// The step that reads the word for a seat that has all parts.
pub struct Told;

impl Play<(), Claimed> for Told {
    ghost then = { told };
}

/// The word: the number that is drawn next, modulo 2^64.
pub type ClaimTable = Table<(), Claimed, (), Drawn, Global>;

/// What a worker draws with.
pub type ClaimSeat = Seat<(), Claimed>;

/// A word from which nothing was drawn, and the one seat, which has all its parts.
pub fn table(alloc: Global) -> Result<(ClaimTable, ClaimSeat), AllocError>
    ensures { IfOk result (λ t. (t.0.shared.table_id.words ≡ 1) × (t.1.table_id ≡ t.0.shared.table_id) × (t.1.me ≡ (held 64 [], []))) }
{
    ClaimTable::of_words(alloc, &[0], &())
}

/// Draws the next number: one `fetch_add` of 1, modulo 2^64.
pub fn draw(claims: &ClaimTable, seat: &mut ClaimSeat) -> u64
    requires fits { seat.old.table_id ≡ claims.now.shared.table_id }
    requires word { claims.now.shared.table_id.words ≡ 1 }
    requires some_part { 0 < seat.old.me.0.parts }
    ensures drawn { seat.new.me.0 ≡ held seat.old.me.0.parts (seat.old.me.0.drawn ++ result ∷ []) }
    ensures same { (seat.new.table_id ≡ seat.old.table_id) × (seat.new.id ≡ seat.old.id) × (seat.new.me.1 ≡ seat.old.me.1) }
{
    claims.shared.fetch_add::<Drawn>(seat, 0, 1)
}

/// Makes another seat, which gets half of the parts and no number.
pub fn another(claims: &ClaimTable, seat: &mut ClaimSeat) -> ClaimSeat
    requires fits { seat.old.table_id ≡ claims.now.shared.table_id }
    requires word { claims.now.shared.table_id.words ≡ 1 }
    ensures new { (result.table_id ≡ seat.old.table_id) × (result.me ≡ (given_half seat.old.me.0, [])) }
    ensures same { (seat.new.table_id ≡ seat.old.table_id) × (seat.new.me ≡ (kept_half seat.old.me.0, seat.old.me.1)) }
{
    claims.shared.split_seat::<Drawn>(seat)
}

/// Takes another seat in, with its parts and its numbers.
pub fn absorb(claims: &ClaimTable, seat: &mut ClaimSeat, other: ClaimSeat)
    requires fits { (seat.old.table_id ≡ claims.now.shared.table_id) × (other.table_id ≡ claims.now.shared.table_id) }
    requires word { claims.now.shared.table_id.words ≡ 1 }
    requires empty { other.me.1 ≡ [] }
    ensures both { seat.new.me.0 ≡ joined seat.old.me.0 other.me.0 }
    ensures same { (seat.new.table_id ≡ seat.old.table_id) × (seat.new.me.1 ≡ seat.old.me.1) }
{
    claims.shared.join_seat::<Drawn>(seat, other);
}

/// How many numbers were drawn, modulo 2^64. A seat that has all parts has drawn them all.
pub fn drawn_so_far(claims: &ClaimTable, seat: &mut ClaimSeat) -> u64
    requires fits { seat.old.table_id ≡ claims.now.shared.table_id }
    requires word { claims.now.shared.table_id.words ≡ 1 }
    requires all { seat.old.me.0.parts ≡ 64 }
    ensures all { AreAll result seat.new.me.0.drawn }
    ensures same { (seat.new.table_id ≡ seat.old.table_id) × (seat.new.me ≡ seat.old.me) }
{
    claims.shared.load::<Told>(seat, 0)
}
