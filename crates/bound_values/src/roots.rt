//! Variables of loops whose values are known.

ghost use Rattle.std.specs.Prelude.{◌≡◌};
ghost use Rattle.sv_types.specs.Flows.{covers};
ghost use Rattle.expr_flows.specs.Known.{bits_of_variable, sure_of};

use expr_flows::Variable;

// Whether the signal or local with a number is a variable that has a bit.
fn is_variable(v: Variable, number: u64) -> bool
    ensures { result ≡ covers (bits_of_variable v) (record { signal = number; bit = 0 }) }
{
    4294967296 + v.local as u64 == number && 0 < v.width
}

/// Whether the signal or local with a number is one of some variables that have bits.
pub fn is_known(variables: &[Variable], number: u64) -> bool
    ensures { result ≡ sure_of variables.now (record { signal = number; bit = 0 }) }
{
    for v in variables {
        if is_variable(*v, number) {
            return true;
        }
    }
    false
}
