// A catalogue that is made, entered to, dropped from and opened, each device call failing in turn.
ghost use Rattle.pb_catalog.specs.Catalog.{EachCatalogue};
ghost use Rattle.pb_mem.specs.Disk.{held};

use super::catalogues::{drops, enters, listed, own_entries, reopened};
use super::files::catalogue_2;
use super::sweep::{Subject, sweep};
use pb_catalog::{Catalog, CatalogError};
use pb_devices::Fault;
use pb_mem::MemDisk;
use std::alloc::Global;
use std::process::Abort;
use std::test::Fail;

fn change(
    rt: &impl Abort,
    alloc: Global,
    disk: &mut MemDisk,
    mut catalog: Catalog,
) -> Result<usize, Fail>
    requires { EachCatalogue catalog (held disk.old) }
{
    if !enters(rt, alloc, disk, &mut catalog, 4)? {
        return Ok(1);
    }
    if !enters(rt, alloc, disk, &mut catalog, 5)? {
        return Ok(2);
    }
    if !drops(rt, alloc, disk, &mut catalog, 4)? {
        return Ok(3);
    }
    open(rt, alloc, disk)
}

fn open(rt: &impl Abort, alloc: Global, disk: &mut MemDisk) -> Result<usize, Fail> {
    match reopened(alloc, disk) {
        Ok(_) => Ok(5),
        Err(error) => {
            assert_eq!(rt; error, CatalogError::Disk);
            Ok(4)
        }
    }
}

/// The numbers that stand after so many steps.
fn standing(steps: usize) -> &'static [u64] {
    match steps {
        0..=1 => &[],
        2 => &[4],
        3 => &[4, 5],
        _ => &[5],
    }
}

/// Whether exactly these numbers stand, in this order.
fn stand(alloc: Global, catalog: &Catalog, steps: usize) -> Result<bool, Fail> {
    let found = listed(alloc, catalog)?;
    let wanted = own_entries(alloc, standing(steps))?;
    Ok(found == wanted)
}

struct Entering;

// A creation is calls 1 to 10, the numbers 4 and 5 are entered by 11 to 22, and 4 is dropped by 23 to 28. The length is asked
// by 29, a barrier is 30, and the opening 31 and 32.
impl Subject for Entering {
    fn calls(&self) -> u8 {
        32
    }

    fn steps_before(&self, call: u8) -> usize {
        if call <= 10 {
            0
        } else if call <= 16 {
            1
        } else if call <= 22 {
            2
        } else if call <= 28 {
            3
        } else if call <= 32 {
            4
        } else {
            5
        }
    }

    fn drive<R: Abort>(&self, rt: &R, alloc: Global, disk: &mut MemDisk) -> Result<usize, Fail> {
        match Catalog::create(alloc, disk, catalogue_2(), 1) {
            Ok(catalog) => change(rt, alloc, disk, catalog),
            Err(fault) => {
                assert_eq!(rt; fault, Fault::Disk);
                Ok(0)
            }
        }
    }

    // What was acknowledged stands, and at most one step more. Before the first, there is no file, or one without an id.
    fn judge<R: Abort>(
        &self,
        rt: &R,
        alloc: Global,
        disk: &mut MemDisk,
        done: usize,
    ) -> Result<(), Fail> {
        match reopened(alloc, disk) {
            Ok(Some(catalog)) => {
                let now = stand(alloc, &catalog, done)?;
                let next = stand(alloc, &catalog, done.saturating_add(1))?;
                assert!(rt; now || next, "{done} done");
                Ok(())
            }
            Ok(None) => {
                assert_eq!(rt; done, 0);
                Ok(())
            }
            Err(error) => {
                assert_eq!(rt; error, CatalogError::Damaged);
                assert_eq!(rt; done, 0);
                Ok(())
            }
        }
    }
}

#[test]
fn a_failing_call_leaves_the_old_list_or_the_new(rt: HostRuntime) -> Result<(), Fail> {
    sweep(&rt, rt.alloc(), &Entering)
}
