ghost use Rattle.std.specs.Prelude.{◌≡◌, true, None, OnOk};
ghost use Rattle.pb_devices.specs.Contents.{HasFile, KeepsOthers};
ghost use Rattle.pb_devices.specs.Counts.{HasCause};
ghost use Rattle.pb_provider.specs.Files.{IsWhole};

use pb_devices::{Disk, Failed};
use pb_names::Name;

/// Makes a file of these bytes, whole and durable: four device calls.
pub(crate) fn create_file<D: Disk>(disk: &mut D, name: Name, bytes: &[u8]) -> Result<(), Failed>
    requires { D.told ≡ true → (D.contents disk.old).seen name ≡ None }
    ensures ok { D.told ≡ true → OnOk result (HasFile name bytes.now (D.contents disk.new)) }
    ensures others { D.told ≡ true → KeepsOthers (D.contents disk.old) (D.contents disk.new) name }
    ensures cause { HasCause (D.fault_count disk.old) (D.fault_count disk.new) result }
{
    write_whole(disk, name, bytes)?;
    disk.barrier()?;
    Ok(())
}

/// Makes a file whose bytes are durable, though it may still not have been made: three device calls.
fn write_whole<D: Disk>(disk: &mut D, name: Name, bytes: &[u8]) -> Result<(), Failed>
    requires { D.told ≡ true → (D.contents disk.old).seen name ≡ None }
    ensures ok { D.told ≡ true → OnOk result (IsWhole name bytes.now (D.contents disk.old) (D.contents disk.new)) }
    ensures others { D.told ≡ true → KeepsOthers (D.contents disk.old) (D.contents disk.new) name }
    ensures cause { HasCause (D.fault_count disk.old) (D.fault_count disk.new) result }
{
    let file = name.as_str();
    disk.create(file)?;
    disk.write_at(file, 0, bytes)?;
    // From here on a power cut leaves no torn table, whatever comes of the barrier.
    disk.sync(file)?;
    Ok(())
}

/// Removes a file: one device call.
pub(crate) fn remove_file<D: Disk>(disk: &mut D, name: Name) -> Result<(), Failed>
    ensures ok { D.told ≡ true → OnOk result ((D.contents disk.new).seen name ≡ None) }
    ensures others { D.told ≡ true → KeepsOthers (D.contents disk.old) (D.contents disk.new) name }
    ensures cause { HasCause (D.fault_count disk.old) (D.fault_count disk.new) result }
{
    disk.remove(name.as_str())?;
    Ok(())
}
