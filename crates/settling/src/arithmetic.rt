// Quotients of whole numbers; division by 0 gives 0.
ghost use Rattle.std.specs.Prelude.{◌≡◌, ◌/◌};
ghost use Rattle.accounts.specs.Sums.{rounded_up};

// A quotient, rounded down; 0 if the divisor is 0 (rule 5.4).
pub(crate) fn rounded_down(n: u64, d: u64) -> u64
    ensures { result ≡ n / d }
{
    n.checked_div(d).unwrap_or(0)
}

// A quotient, rounded up; 0 if the divisor is 0 (rules 4.3 and 6.1).
pub(crate) fn rounded_up(n: u64, d: u64) -> u64
    ensures { result ≡ rounded_up n d }
{
    if d == 0 { 0 } else { n.div_ceil(d) }
}
