// How often an order has lost.
ghost use Rattle.std.specs.Prelude.{◌≡◌, ◌+◌, min};

// One loss more; 999 stay 999.
pub fn one_more(losses: u16) -> u16
    ensures { result ≡ min 999 (losses + 1) }
{
    losses.min(998) + 1
}
