// The changes that lines say.
use crate::line::{Line, Named, columns, pair};
use mesh_base::{Own, Ref, Snapshot};
use mesh_cases::Trouble;
use mesh_house::Change;
use mesh_list::Duplicate;

fn own_at(line: &Line, owns: &[Named], at: usize) -> Result<Own, Trouble> {
    Ok(line.own(owns, at)?.copy()?)
}

/// The snapshot that a line says from its second word on.
pub fn snapshot(line: &Line, owns: &[Named]) -> Result<Snapshot, Trouble> {
    let (rank, expires) = pair(line.rank(3), line.number(5))?;
    let ((key, object), (parents, own)) = pair(
        pair(line.reference(1), line.name(4)),
        pair(line.refs(b"parents"), own_at(line, owns, 2)),
    )?;
    let Ref { name, fingerprint } = key;
    Ok(Snapshot {
        name,
        fingerprint,
        own,
        parents,
        rank,
        object,
        expires,
    })
}

fn load(line: &Line) -> Result<Change, Trouble> {
    let (name, (columns, rows)) = pair(line.name(1), pair(columns(line.alloc()), line.all(3)))?;
    Ok(Change::Load {
        name,
        columns,
        rows,
        keep: line.is(2, b"keep"),
    })
}

fn make_view(line: &Line, owns: &[Named]) -> Result<Change, Trouble> {
    let ((object, columns), (own, targets)) = pair(
        pair(line.name(1), columns(line.alloc())),
        pair(own_at(line, owns, 2), line.all(3)),
    )?;
    Ok(Change::MakeView {
        object,
        columns,
        own,
        targets,
    })
}

fn write_range(line: &Line) -> Result<Change, Trouble> {
    let (start, end) = pair(line.number(3), line.number(4))?;
    let (object, (time, rows)) = pair(line.name(1), pair(line.text(2), line.all(5)))?;
    Ok(Change::WriteRange {
        object,
        time,
        start,
        end,
        rows,
    })
}

fn record_range(line: &Line) -> Result<Change, Trouble> {
    let (start, end) = pair(line.number(2), line.number(3))?;
    let object = line.name(1)?;
    Ok(Change::RecordRange { object, start, end })
}

fn set_pending(line: &Line) -> Result<Change, Trouble> {
    let expires = line.expiry(2)?;
    let (env, list) = pair(line.text(1), line.refs(b"list"))?;
    Ok(Change::SetPending { env, expires, list })
}

fn make_table(line: &Line) -> Result<Change, Trouble> {
    let (object, columns) = pair(line.name(1), columns(line.alloc()))?;
    Ok(Change::MakeTable { object, columns })
}

fn replace_rows(line: &Line) -> Result<Change, Trouble> {
    let (object, rows) = pair(line.name(1), line.all(2))?;
    Ok(Change::ReplaceRows { object, rows })
}

fn record_marks(line: &Line) -> Result<Change, Trouble> {
    let (object, marks) = pair(line.name(1), line.all(2))?;
    Ok(Change::RecordMarks { object, marks })
}

fn point_view(line: &Line) -> Result<Change, Trouble> {
    let (view, target) = pair(line.name(1), line.name(2))?;
    Ok(Change::PointView { view, target })
}

fn delete_snapshot(line: &Line) -> Result<Change, Trouble> {
    let Ref { name, fingerprint } = line.reference(1)?;
    Ok(Change::DeleteSnapshot { name, fingerprint })
}

fn table_change(line: &Line, owns: &[Named]) -> Result<Change, Trouble> {
    if line.is(0, b"load") {
        load(line)
    } else if line.is(0, b"make_table") {
        make_table(line)
    } else if line.is(0, b"make_view") {
        make_view(line, owns)
    } else if line.is(0, b"replace_rows") {
        replace_rows(line)
    } else if line.is(0, b"write_range") {
        write_range(line)
    } else if line.is(0, b"point_view") {
        point_view(line)
    } else {
        book_change(line, owns)
    }
}

fn book_change(line: &Line, owns: &[Named]) -> Result<Change, Trouble> {
    if line.is(0, b"put_snapshot") {
        let snapshot = snapshot(line, owns)?;
        Ok(Change::PutSnapshot { snapshot })
    } else if line.is(0, b"record_range") {
        record_range(line)
    } else if line.is(0, b"record_marks") {
        record_marks(line)
    } else if line.is(0, b"set_pending") {
        set_pending(line)
    } else if line.is(0, b"delete_snapshot") {
        delete_snapshot(line)
    } else {
        change_of_many(line)
    }
}

fn change_of_many(line: &Line) -> Result<Change, Trouble> {
    if line.is(0, b"forget_units") {
        let list = line.all(1)?;
        Ok(Change::ForgetUnits { list })
    } else if line.is(0, b"migrate") {
        let map = line.all(1)?;
        Ok(Change::Migrate { map })
    } else {
        change_of_env(line)
    }
}

fn change_of_env(line: &Line) -> Result<Change, Trouble> {
    let env = line.text(1)?;
    if line.is(0, b"finalize") {
        Ok(Change::Finalize { env })
    } else if line.is(0, b"expire") {
        Ok(Change::Expire { env })
    } else if line.is(0, b"delete_env") {
        Ok(Change::DeleteEnv { env })
    } else {
        change_of_object(line)
    }
}

fn change_of_object(line: &Line) -> Result<Change, Trouble> {
    let object = line.name(1)?;
    if line.is(0, b"drop_view") {
        Ok(Change::DropView { view: object })
    } else if line.is(0, b"forget_version") {
        Ok(Change::ForgetVersion { object })
    } else if line.is(0, b"drop_object") {
        Ok(Change::DropObject { object })
    } else {
        Err(Trouble::Case)
    }
}

/// The change that a line says.
pub fn change(line: &Line, owns: &[Named]) -> Result<Change, Trouble> {
    if line.is(0, b"moment") {
        return Ok(Change::Moment { t: line.number(1)? });
    }
    table_change(line, owns)
}
