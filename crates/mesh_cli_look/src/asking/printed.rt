// Rows as they are printed.
ghost use Rattle.std.specs.Prelude.{◌≡◌, IfOk};
ghost use Rattle.mesh_spec_changes.specs.Changes.{ascending};
ghost use Rattle.mesh_layer.specs.Asked.{asked, lost_asked};
ghost use Rattle.mesh_base.specs.Outputs.{select_columns};
ghost use Rattle.mesh_cli_print.specs.printed.Records.{rows_text};
ghost use Rattle.mesh_cli_look.specs.asking.Looks.{Looks, of_show, printed};

use mesh_base::Query;
use mesh_base_columns::select_columns;
use mesh_base_values::{Column, Rows, Str};
use mesh_cli_print::printed::{Refusal, rows_text};
use mesh_exec_wave::wave::ascending_rows;
use mesh_house::Warehouse;
use mesh_house_book::Book;
use mesh_layer::{ShowFault, ask};
use mesh_list::Memory;
use std::alloc::Global;

/// The text of rows, in ascending order.
pub(crate) fn text_of(alloc: Global, columns: &[Column], rows: Rows) -> Result<Str, Memory>
    ensures { IfOk result (λ text. text ≡ rows_text columns.now (ascending rows)) }
{
    let rows = ascending_rows(rows)?;
    rows_text(alloc, columns, rows.as_slice())
}

fn query_text(alloc: Global, q: &Query, rows: Rows) -> Result<Str, Memory>
    ensures { IfOk result (λ text. text ≡ rows_text (select_columns q.now.selects) (ascending rows)) }
{
    let columns = select_columns(alloc, q.selects.as_slice())?;
    text_of(alloc, columns.as_slice(), rows)
}

/// Why nothing is shown, as a refusal.
pub(crate) fn of_show(fault: ShowFault) -> Refusal
    ensures { result ≡ of_show fault }
{
    match fault {
        ShowFault::Dangling { object } => Refusal::ObjectMissing { object },
        ShowFault::Warehouse => Refusal::Warehouse,
        ShowFault::Memory => Refusal::Memory,
    }
}

/// The text of the rows of a query over an environment's models.
pub(crate) fn asked_text<W: Warehouse>(
    alloc: Global,
    house: &mut W,
    b: &Book,
    env: &Str,
    q: &Query,
) -> Result<Str, Refusal>
    ensures { Looks (λ w. printed (select_columns q.now.selects) (asked b.now env.now q.now w) (lost_asked b.now env.now q.now w))
        (W.told house.old) (W.told house.new) result }
{
    match ask(alloc, house, b, env, q) {
        Err(fault) => Err(of_show(fault)),
        Ok(rows) => {
            let text = query_text(alloc, q, rows)?;
            Ok(text)
        }
    }
}
