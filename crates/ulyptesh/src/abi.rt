// The call "abi".
ghost use Rattle.std.specs.Prelude.{◌≡◌};
ghost use Rattle.interface.specs.Interface.{interface_number};

use interface::interface_number;

// The number of the library's C interface, which a program compares with that of its header.
#[unsafe(no_mangle)]
pub extern "C" fn ulyptesh_abi() -> u32
    ensures { result ≡ interface_number }
{
    interface_number()
}
