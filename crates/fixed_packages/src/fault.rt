//! Why a project file can't be used, told as for a registry's file.
ghost use Rattle.std.specs.Prelude.{◌≡◌};
ghost use Rattle.fixed_packages.specs.Faults.{fault_as};

use project_places::EnvFault;
use registry_tables::RegFault;

/// The fault of a project's file, as the readings of registries tell it: the file and the cause stay. Takes no memory.
pub fn as_registry_fault(fault: EnvFault) -> RegFault
    ensures { result ≡ fault_as fault }
{
    match fault {
        EnvFault::ReadFault(path) => RegFault::ReadFault(path),
        EnvFault::BadFile(path, cause) => RegFault::BadFile(path, cause),
        EnvFault::Memory => RegFault::Memory,
    }
}
