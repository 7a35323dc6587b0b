// The number of the C interface.
#![tactic(auto)]

ghost use Rattle.std.specs.Prelude.{◌≡◌};
ghost use Rattle.interface.specs.Interface.{interface_number};

// It grows whenever a struct, a parameter or a meaning changes.
pub fn interface_number() -> u32
    ensures { result ≡ interface_number }
{
    5
}
