// What is wrong, in words. Each function has a share of the kinds.
ghost use Rattle.std.specs.Prelude.{◌≡◌, ◌++◌, codes, OnOk};
ghost use Rattle.std.specs.Fmt.{decimal};
ghost use Rattle.hex.specs.Hex.{encode_lower};
ghost use Rattle.mesh_cli_print.specs.faults.Lines.{◌·◌, name_text, names_text, cron_fault_text, kind_text};

use crate::faults::pieces::{put, put_both, put_fingerprint, put_name, put_names, put_number};
use mesh_base_values::{CronFault, Name};
use mesh_list::Memory;
use mesh_query_tokens::FaultKind;

fn put_cron_fault(out: &mut Vec<u8>, fault: &CronFault) -> Result<(), Memory>
    ensures { OnOk result (out.new.items ≡ out.old.items ++ cron_fault_text fault.now) }
{
    match fault {
        CronFault::BadField { field } => {
            put(out, b"bad field ")?;
            put_number(out, u64::from(*field))
        }
        CronFault::TooFine => put(out, b"too fine"),
        CronFault::NoTick => put(out, b"no tick"),
    }
}

fn put_limit(out: &mut Vec<u8>, what: &[u8], limit: u64) -> Result<(), Memory>
    ensures { OnOk result (out.new.items ≡ out.old.items ++ (codes "M2 " · what.now · codes " exceeds " · decimal limit)) }
{
    put(out, b"M2 ")?;
    put(out, what)?;
    put(out, b" exceeds ")?;
    put_number(out, limit)
}

fn put_row(out: &mut Vec<u8>, row: u64, field: u64) -> Result<(), Memory>
    ensures { OnOk result (out.new.items ≡ out.old.items ++ (codes "M16 record " · decimal row · codes " field " · decimal field)) }
{
    put(out, b"M16 record ")?;
    put_number(out, row)?;
    put(out, b" field ")?;
    put_number(out, field)
}

// A source and what is wrong with it.
fn put_source(out: &mut Vec<u8>, name: &Name, what: &[u8]) -> Result<(), Memory>
    ensures { OnOk result (out.new.items ≡ out.old.items ++ (codes "M17 source " · name_text name.now · what.now)) }
{
    put(out, b"M17 source ")?;
    put_name(out, name)?;
    put(out, what)
}

fn put_clash(out: &mut Vec<u8>, stored: &[u8; 32], given: &[u8; 32]) -> Result<(), Memory>
    ensures { OnOk result (out.new.items ≡ out.old.items ++ (codes "M19 clash " · encode_lower stored.now · codes " " · encode_lower given.now)) }
{
    put(out, b"M19 clash ")?;
    put_fingerprint(out, stored)?;
    put(out, b" ")?;
    put_fingerprint(out, given)
}

fn put_model(out: &mut Vec<u8>, name: &Name) -> Result<(), Memory>
    ensures { OnOk result (out.new.items ≡ out.old.items ++ (codes "M5 duplicate model " · name_text name.now)) }
{
    put(out, b"M5 duplicate model ")?;
    put_name(out, name)
}

fn put_cycle(out: &mut Vec<u8>, names: &[Name]) -> Result<(), Memory>
    ensures { OnOk result (out.new.items ≡ out.old.items ++ (codes "M12 cycle" · names_text names.now)) }
{
    put(out, b"M12 cycle")?;
    put_names(out, names)
}

fn put_cron(out: &mut Vec<u8>, fault: &CronFault) -> Result<(), Memory>
    ensures { OnOk result (out.new.items ≡ out.old.items ++ (codes "M13 cron " · cron_fault_text fault.now)) }
{
    put(out, b"M13 cron ")?;
    put_cron_fault(out, fault)
}

/// What is wrong.
#[tactic(auto, unfolding(crate::specs::faults::Lines::kind_text))]
pub(crate) fn put_kind(out: &mut Vec<u8>, kind: &FaultKind) -> Result<(), Memory>
    ensures { OnOk result (out.new.items ≡ out.old.items ++ kind_text kind.now) }
{
    match kind {
        FaultKind::Syntax => put(out, b"M1 syntax"),
        FaultKind::TooLarge { what, limit } => put_limit(out, what.as_slice(), *limit),
        FaultKind::UnknownProperty { name } => {
            put_both(out, b"M3 unknown property ", name.as_slice())
        }
        FaultKind::BadProperty { name } => put_both(out, b"M4 bad property ", name.as_slice()),
        FaultKind::DuplicateModel { name } => put_model(out, name),
        FaultKind::UnknownRelation { name } => {
            put_both(out, b"M6 unknown relation ", name.as_slice())
        }
        FaultKind::UnknownColumn { name } => put_both(out, b"M7 unknown column ", name.as_slice()),
        FaultKind::Ambiguous { name } => put_both(out, b"M8 ambiguous column ", name.as_slice()),
        FaultKind::TypeMismatch => put(out, b"M9 type mismatch"),
        FaultKind::Duplicate { name } => put_both(out, b"M10 duplicate column ", name.as_slice()),
        FaultKind::NotGrouped => put(out, b"M11 not grouped"),
        FaultKind::Cycle { names } => put_cycle(out, names.as_slice()),
        FaultKind::BadCron { fault } => put_cron(out, fault),
        FaultKind::NoStart => put(out, b"M14 no start"),
        FaultKind::TimeColumn { name } => put_both(out, b"M15 time column ", name.as_slice()),
        FaultKind::BadRow { row, field } => put_row(out, *row, *field),
        FaultKind::SourceMissing { name } => put_source(out, name, b" is missing"),
        FaultKind::SourceShape { name } => put_source(out, name, b" has another shape"),
        FaultKind::BadMacro { name } => put_both(out, b"M18 macro ", name.as_slice()),
        FaultKind::FingerprintClash { stored, given } => put_clash(out, stored, given),
        FaultKind::Outside { name } => put_both(out, b"M20 outside ", name.as_slice()),
    }
}
