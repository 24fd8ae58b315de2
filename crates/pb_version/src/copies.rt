ghost use Rattle.std.specs.Prelude.{◌≡◌, map, IfOk};

use super::{Levels, Table};
use std::alloc::{AllocError, Global};

fn copy_of_table(alloc: Global, table: &Table) -> Result<Table, AllocError>
    ensures ok { IfOk result (λ copy. copy ≡ table.now) }
{
    let view = table.view.copy(alloc)?;
    Ok(Table {
        number: table.number,
        rank: table.rank,
        backing: table.backing,
        size: table.size,
        view,
        is_virtual: table.is_virtual,
    })
}

fn copy_of_tables(alloc: Global, tables: &[Table]) -> Result<Vec<Table>, AllocError>
    ensures ok { IfOk result (λ copy. copy.items ≡ tables.now) }
{
    let mut copy = Vec::new(alloc);
    for table in tables {
        let table = copy_of_table(alloc, table)?;
        copy.push(table)?;
    }
    Ok(copy)
}

pub(crate) fn copy_of_levels(alloc: Global, levels: &Levels) -> Result<Levels, AllocError>
    ensures ok { IfOk result (λ copy. map (λ l. l.items) copy ≡ map (λ l. l.items) levels.now) }
{
    let [l0, l1, l2, l3, l4, l5, l6] = levels;
    let c0 = copy_of_tables(alloc, l0.as_slice())?;
    let c1 = copy_of_tables(alloc, l1.as_slice())?;
    let c2 = copy_of_tables(alloc, l2.as_slice())?;
    let c3 = copy_of_tables(alloc, l3.as_slice())?;
    let c4 = copy_of_tables(alloc, l4.as_slice())?;
    let c5 = copy_of_tables(alloc, l5.as_slice())?;
    let c6 = copy_of_tables(alloc, l6.as_slice())?;
    Ok([c0, c1, c2, c3, c4, c5, c6])
}
