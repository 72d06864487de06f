// Whether two ports are one.

ghost use Rattle.std.specs.Prelude.{◌≡◌, ◌==◌};
ghost use Rattle.savi_kinds.specs.Ports.{number_of};

use savi_kinds::Port;

/// Whether two ports have one number.
pub fn is_same(p: Port, q: Port) -> bool
    ensures { result ≡ (number_of p == number_of q) }
{
    p.get() == q.get()
}
