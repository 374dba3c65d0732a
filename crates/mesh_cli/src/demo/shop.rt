// The shop project, as the files of a folder.
ghost use Rattle.std.specs.Prelude.{◌≡◌, ◌<◌, ◌++◌, ◌∷◌, [], IfOk, OnOk};
ghost use Rattle.mesh_cli.specs.demo.Shop.{daily, file, order_line, orders, shop, twice_file, two_digits};

use mesh_base_values::Str;
use mesh_cli_print::faults::{put, put_number};
use mesh_io::{File, Files};
use mesh_list::{Duplicate, Memory, Seq};
use std::alloc::Global;

const EXTERNALS: &[u8] =
    b"name,column,type,role\nraw.orders,id,INT,\nraw.orders,day,DATE,time\nraw.orders,qty,INT,\n";

const TOTALS: &[u8] =
    b"MODEL (name shop.totals, kind FULL);\nSELECT day, SUM(qty) AS total, COUNT(*) AS n FROM shop.daily GROUP BY 1\n";

/// A text of its own.
pub(crate) fn text(alloc: Global, bytes: &[u8]) -> Result<Str, Memory>
    ensures { IfOk result (λ text. text ≡ bytes.now) }
{
    u8::copy_items(alloc, bytes)
}

/// A number below a hundred, with two digits.
fn put_two_digits(out: &mut Vec<u8>, number: u64) -> Result<(), Memory>
    requires { number < 100 }
    ensures { OnOk result (out.new.items ≡ out.old.items ++ two_digits number) }
{
    put(
        out,
        &[b'0' + (number / 10) as u8, b'0' + (number % 10) as u8],
    )
}

/// One order, by its number from 0 on.
fn put_order(out: &mut Vec<u8>, k: u32) -> Result<(), Memory>
    ensures { OnOk result (out.new.items ≡ out.old.items ++ order_line k) }
{
    let k = k as u64;
    put_number(out, k + 1)?;
    put(out, b",2024-01-")?;
    put_two_digits(out, k % 10 + 1)?;
    put(out, b",")?;
    put_number(out, 7 * k % 13 + 1)?;
    put(out, b"\n")
}

/// So many orders, as a CSV file.
fn orders(alloc: Global, n: u32) -> Result<Str, Memory>
    ensures { IfOk result (λ text. text ≡ orders n) }
{
    let mut out = Vec::from_slice(alloc, b"id,day,qty\n")?;
    for k in 0..n {
        put_order(&mut out, k)?;
    }
    Ok(Seq::from_vec(out))
}

/// The model of each day's orders, with some items more.
fn daily(alloc: Global, more: &[u8]) -> Result<Str, Memory>
    ensures { IfOk result (λ text. text ≡ daily more.now) }
{
    let mut out = Vec::from_slice(
        alloc,
        b"MODEL (name shop.daily, kind INCREMENTAL_BY_TIME_RANGE (time_column day), start '2024-01-01');\nSELECT id, day, qty",
    )?;
    put(&mut out, more)?;
    put(
        &mut out,
        b" FROM raw.orders WHERE day BETWEEN @start_ds AND @end_ds\n",
    )?;
    Ok(Seq::from_vec(out))
}

fn put_file(files: &mut Files, path: &[u8], bytes: Str) -> Result<(), Memory>
    ensures { OnOk result (files.new ≡ files.old ++ file path.now bytes ∷ []) }
{
    let path = text(files.alloc(), path)?;
    files.push(File { path, bytes })
}

/// The files of the project, with so many orders.
pub(crate) fn shop(alloc: Global, n: u32) -> Result<Files, Memory>
    ensures { IfOk result (λ files. files ≡ shop n) }
{
    let mut files = Seq::new(alloc);
    put_file(&mut files, b"external_models.csv", text(alloc, EXTERNALS)?)?;
    put_file(&mut files, b"models/daily.sql", daily(alloc, b"")?)?;
    put_file(&mut files, b"models/totals.sql", text(alloc, TOTALS)?)?;
    put_file(&mut files, b"orders.csv", orders(alloc, n)?)?;
    Ok(files)
}

/// The model of each day's orders with one column more.
pub(crate) fn twice_file(alloc: Global) -> Result<File, Memory>
    ensures { IfOk result (λ made. made ≡ twice_file) }
{
    let path = text(alloc, b"models/daily.sql")?;
    let bytes = daily(alloc, b", qty * 2 AS twice")?;
    Ok(File { path, bytes })
}
