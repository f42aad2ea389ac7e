//! Ports that are free.

ghost use Rattle.std.specs.Prelude.{◌≡◌, IfSome, Some};

use dap_outside::Door;

/// Lets the door listen at some free port.
pub fn port_of<D: Door>(door: &mut D) -> Option<u16>
    ensures { IfSome result (λ port. D.listens_at door.new ≡ Some port) }
{
    for port in 20_000..20_200u16 {
        if door.listen(port).is_ok() {
            return Some(port);
        }
    }
    None
}
